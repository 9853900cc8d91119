// Running: steps until the number asked for is made, the term is a value or a suspension, or a step is refused.
ghost use Rattle.std.specs.Prelude.{◌≡◌, length, replicate};
ghost use Rattle.calls.specs.Results.{run_outcome};
ghost use Rattle.engine.specs.Answers.{ran};

use crate::answers::{Ran, RunRefused};
use crate::entry::{check_entry_with, state_at};
use crate::guard::Zeroing;
use crate::states::Going;
use calls::states::Status;
use quantities::QuantitySet;
use steps::run::{Halted, run_steps};

// All of it; the spare is zero afterwards, however it ends.
pub(crate) fn run_image<Q: QuantitySet>(
    set: &Q,
    state: Going,
    n: u16,
    image: &mut [u32],
    spare: &mut [u32],
) -> Result<Ran, RunRefused>
    ensures answer { result ≡ ran state (run_outcome Q.meaning n image.old (length spare.old)).made (run_outcome Q.meaning n image.old (length spare.old)).answer }
    ensures image { image.new ≡ (run_outcome Q.meaning n image.old (length spare.old)).image }
    ensures spare { spare.new ≡ replicate (length spare.old) 0 }
{
    let guard = Zeroing { words: spare };
    // Kept: two refusals that hand the state back; an inner function with `?` would need a contract that says what this one says.
    if let Err(fault) = check_entry_with(image, guard.words.len(), Status::Going) {
        return Err(RunRefused {
            fault,
            made: 0,
            state,
        });
    }
    match run_steps(set, image, &mut *guard.words, n) {
        Ok(made) => Ok(Ran {
            made,
            state: state_at(image[1]),
        }),
        Err(Halted { fault, made }) => Err(RunRefused { fault, made, state }),
    }
}
