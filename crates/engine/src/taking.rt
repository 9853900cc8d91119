// Taking: the suspended term becomes the image's term.
ghost use Rattle.std.specs.Prelude.{◌≡◌, length, replicate};
ghost use Rattle.calls.specs.Results.{take_outcome};
ghost use Rattle.engine.specs.Answers.{taken};

use crate::answers::TakeRefused;
use crate::entry::{check_entry_with, state_at};
use crate::guard::Zeroing;
use crate::states::{Offering, State};
use calls::states::Status;
use steps::taking::take_term;

// All of it; the spare is zero afterwards, however it ends.
pub(crate) fn take_image(
    state: Offering,
    image: &mut [u32],
    spare: &mut [u32],
) -> Result<State, TakeRefused>
    ensures answer { result ≡ taken state (take_outcome image.old (length spare.old)).answer }
    ensures image { image.new ≡ (take_outcome image.old (length spare.old)).image }
    ensures spare { spare.new ≡ replicate (length spare.old) 0 }
{
    let guard = Zeroing { words: spare };
    // Kept: a match; tried as `map_err` with `?`: the step from the mapped answer back to that of the test stayed open on both ways out.
    match check_entry_with(image, guard.words.len(), Status::Offering) {
        Ok(()) => {
            take_term(image, &mut *guard.words);
            Ok(state_at(image[1]))
        }
        Err(fault) => Err(TakeRefused { fault, state }),
    }
}
