// Admitting a program: lists, form, types, in this order.
ghost use Rattle.std.specs.Prelude.{◌≡◌, ℕ, ◌≤◌, length, replicate};
ghost use Rattle.typing.specs.Machine.{nobody, fresh};
ghost use Rattle.admission.specs.Admission.{admit_answer};
ghost use Rattle.admission.specs.Laws.{Decides};

use faults::Fault;
use faults::numbers::FaultNumber;
use form::reading::read_program;
use quantities::QuantitySet;
use rules::model::Judged;
use stack::clear;
use typing::check::check;
use typing::model::{Frame, Scoped};

// The type row and the least yield row of a program, or the first fault: 1 for the lists, 4 to 9 for the form, 10 to 13 for the types.
// Both lists are blank afterwards.
pub fn admit<Q: QuantitySet>(
    set: &Q,
    program: &[u32],
    scopes: &mut [Scoped],
    judgements: &mut [Frame],
) -> Result<Judged, Fault>
    ensures answer { result ≡ admit_answer Q.meaning program.now (length scopes.old) (length judgements.old) }
    ensures decides { 256 ≤ length scopes.old → 256 ≤ length judgements.old → Decides Q.meaning program.now result }
    ensures scopes { scopes.new ≡ replicate (length scopes.old) nobody }
    ensures judgements { judgements.new ≡ replicate (length judgements.old) (fresh 0 0) }
{
    // Kept: cleared and counted here and where a program is opened, which tests the lengths of image and spare in between.
    clear(&mut *scopes);
    clear(&mut *judgements);
    if scopes.len() < 256 || judgements.len() < 256 {
        return Err(Fault::new(FaultNumber::WorkShort, 0));
    }
    let parts = read_program(program, set.bases())?;
    check(
        set,
        parts.rows,
        program,
        parts.rows.len() + 1,
        scopes,
        judgements,
    )
}
