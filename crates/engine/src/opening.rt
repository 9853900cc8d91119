// Opening a program: work, lengths, form and types, room, in this order.
ghost use Rattle.std.specs.Prelude.{◌≡◌, ◌^◌, ◌≤◌, length, replicate};
ghost use Rattle.typing.specs.Machine.{nobody, fresh};
ghost use Rattle.calls.specs.Results.{admitted_term, open_outcome};
ghost use Rattle.engine.specs.Answers.{opened};
ghost use Rattle.engine.specs.Opening.{WordsOf, Opens};

use crate::entry::{check_lengths, state_at};
use crate::guard::Zeroing;
use crate::states::State;
use admission::admitting::admit;
use faults::Fault;
use faults::numbers::FaultNumber;
use form::head::split;
use lines::making::head_word;
use quantities::QuantitySet;
use stack::clear;
use typing::model::{Frame, Scoped};
use writing::splicing::write_term;

// The words of an admitted program's term, or why it is not admitted. Both lists are blank afterwards.
fn admitted_words<'a, Q: QuantitySet>(
    set: &Q,
    program: &'a [u32],
    scopes: &mut [Scoped],
    judgements: &mut [Frame],
) -> Result<&'a [u32], Fault>
    requires some { 256 ≤ length scopes.old }
    requires many { 256 ≤ length judgements.old }
    ensures value { WordsOf (admitted_term Q.meaning program.now (length scopes.old) (length judgements.old)) result }
    ensures scopes { scopes.new ≡ replicate (length scopes.old) nobody }
    ensures judgements { judgements.new ≡ replicate (length judgements.old) (fresh 0 0) }
{
    // Kept: parted once more, since `admit` answers rows of the table and no parts.
    admit(set, program, scopes, judgements)?;
    let parts = split(program, set.bases())?;
    Ok(parts.term)
}

// Writes a term into an image from word 1 on, with no bindings, and answers its state; fault 15 where it has no room.
fn write_opened(image: &mut [u32], term: &[u32]) -> Result<State, Fault>
    requires low { 2 ≤ length image.old }
    requires high { length image.old ≤ 2 ^ 14 }
    ensures { Opens image.old term.now result image.new }
{
    if term.len() >= image.len() {
        return Err(Fault::new(FaultNumber::ImageFull, 0));
    }
    write_term(&mut image[1..], term);
    image[0] = head_word(term.len() + 1, 0);
    Ok(state_at(image[1]))
}

// All of it; spare and work are zero afterwards, however it ends.
pub(crate) fn open_program<Q: QuantitySet>(
    set: &Q,
    program: &[u32],
    scopes: &mut [Scoped],
    judgements: &mut [Frame],
    image: &mut [u32],
    spare: &mut [u32],
) -> Result<State, Fault>
    ensures answer { result ≡ opened (open_outcome Q.meaning program.now (length scopes.old) (length judgements.old) image.old (length spare.old)).answer }
    ensures image { image.new ≡ (open_outcome Q.meaning program.now (length scopes.old) (length judgements.old) image.old (length spare.old)).image }
    ensures spare { spare.new ≡ replicate (length spare.old) 0 }
    ensures scopes { scopes.new ≡ replicate (length scopes.old) nobody }
    ensures judgements { judgements.new ≡ replicate (length judgements.old) (fresh 0 0) }
{
    let guard = Zeroing { words: spare };
    clear(&mut *scopes);
    clear(&mut *judgements);
    if scopes.len() < 256 || judgements.len() < 256 {
        return Err(Fault::new(FaultNumber::WorkShort, 0));
    }
    check_lengths(image.len(), guard.words.len())?;
    let term = admitted_words(set, program, scopes, judgements)?;
    write_opened(image, term)
}
