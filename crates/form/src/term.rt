// The term of a program: each word keeps its rule, the words are those of one term, and none is too deep.
ghost use Rattle.std.specs.Prelude.{◌≡◌, ℕ, suc, ◌+◌, ◌<◌, ◌≤◌, [], ◌∷◌, length};
ghost use Rattle.stack.specs.Entries.{entries, SameSlots};
ghost use Rattle.words.specs.Kinds.{number_of};
ghost use Rattle.form.specs.Parted.{fine};
ghost use Rattle.form.specs.Words.{word_fault};
ghost use Rattle.programs.specs.Terms.{row_has_kind, word_rule, closed, opened, term_fault};

use encoding::first::arity;
use faults::Fault;
use faults::numbers::FaultNumber;
use layout::Word;
use stack::Stack;
use words::kinds::Kind;

// The greatest depth that a word of a program term may have.
const DEEPEST: usize = 256;

// Whether the word of a row has a kind; there is none from the number of rows on.
fn has_kind(rows: &[u32], row: u16, kind: Kind) -> bool
    ensures { result ≡ row_has_kind rows.now row (number_of kind) }
{
    rows.get(row as usize).is_some_and(|word| kind.is_of(*word))
}

// Whether a number keeps the rule of a word of a program term.
fn keeps_rule(rows: &[u32], word: u32) -> bool
    ensures { result ≡ word_rule rows.now word }
{
    match Word::try_from(word) {
        Ok(Word::Unit | Word::Variable { .. } | Word::Application | Word::Yield) => true,
        Ok(Word::Resume | Word::Snapshot | Word::Fix) => true,
        Ok(Word::Atom { .. } | Word::Operation { .. }) => true,
        Ok(Word::Abstraction { row, .. }) => has_kind(rows, row, Kind::FunctionType),
        Ok(Word::Coroutine { row, .. }) => has_kind(rows, row, Kind::CoroutineType),
        Ok(Word::Start { row }) => has_kind(rows, row, Kind::InstanceType),
        _ => false,
    }
}

// The fault of a word at a depth, which is 0 after the term's end: 8 before 7 before 9.
fn check_word(rows: &[u32], word: u32, depth: usize, place: usize) -> Result<(), Fault>
    ensures { result ≡ word_fault rows.now word depth place }
{
    if depth == 0 {
        return Err(Fault::new(FaultNumber::TermEnd, place));
    }
    if !keeps_rule(rows, word) {
        return Err(Fault::new(FaultNumber::TermWord, place));
    }
    if depth > DEEPEST {
        return Err(Fault::new(FaultNumber::Depth, place));
    }
    Ok(())
}

// A term was read whole: its owner has one part fewer to come, and is read whole itself with the last.
fn close(due: &mut Stack<'_, u8>)
    ensures all { entries due.new.slots.now due.new.len ≡ closed (entries due.old.slots.now due.old.len) }
    ensures over { SameSlots due.old.slots due.new.slots }
{
    while let Some(parts) = due.top() {
        if parts > 1 {
            due.set_top(parts - 1);
            return;
        }
        let _ = due.pop();
    }
}

// A word was read that has so many parts.
fn open_term(due: &mut Stack<'_, u8>, parts: u8)
    ensures all { length (entries due.old.slots.now due.old.len) < length due.old.slots.now → entries due.new.slots.now due.new.len ≡ opened parts (entries due.old.slots.now due.old.len) }
    ensures over { SameSlots due.old.slots due.new.slots }
{
    if parts == 0 {
        close(due);
    } else {
        // There is a slot for each open term: no word is opened at a depth above DEEPEST.
        let _ = due.push(parts);
    }
}

// The first fault of the term's words (7, 8 or 9), if there is one. A word's place counts from the head, which has place 0.
pub fn check_term(rows: &[u32], term: &[u32]) -> Result<(), Fault>
    ensures { result ≡ fine (term_fault rows.now (suc (length rows.now)) (1 ∷ []) term.now) }
{
    let mut counters = [0u8; DEEPEST + 1];
    let mut due = Stack::over(&mut counters);
    let _ = due.push(1);
    let first = rows.len() + 1;
    for (i, word) in term.iter().enumerate() {
        check_word(rows, *word, due.len(), first + i)?;
        open_term(&mut due, arity(*word));
    }
    if due.len() > 0 {
        return Err(Fault::new(FaultNumber::TermEnd, first + term.len()));
    }
    Ok(())
}
