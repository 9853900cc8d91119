// From a number to the word that it stands for.
ghost use Rattle.std.specs.Prelude.{◌≡◌};
ghost use Rattle.layout.specs.Layout.{word_at, read_word};

use crate::Word;
use crate::assembling::assemble;
use words::fields::{
    base, bindings, first, label, name, operation, payload, ready, row, rows, second, term_words,
    third, type_base, used,
};
use words::kinds::Kind;

// The word of the number's kind, if it is the number's own, so that no bit without a use is set.
pub fn parse(word: u32) -> Option<Word>
    ensures { result ≡ read_word word }
{
    let found = word_at(Kind::of_word(word)?, word);
    if assemble(found).is_some_and(|number| number == word) {
        Some(found)
    } else {
        None
    }
}

// The word of a kind with the fields that stand at their bits, whatever the other bits are.
fn word_at(kind: Kind, word: u32) -> Word
    ensures { result ≡ word_at kind word }
{
    match kind {
        Kind::Unit => Word::Unit,
        Kind::Variable => Word::Variable { name: name(word) },
        Kind::Abstraction => Word::Abstraction {
            name: name(word),
            row: row(word),
        },
        Kind::Coroutine => Word::Coroutine {
            name: name(word),
            row: row(word),
        },
        Kind::Application => Word::Application,
        Kind::Yield => Word::Yield,
        Kind::Start => Word::Start { row: row(word) },
        Kind::Resume => Word::Resume,
        Kind::Snapshot => Word::Snapshot,
        Kind::Fix => Word::Fix,
        Kind::Atom => Word::Atom {
            base: base(word),
            payload: payload(word),
        },
        Kind::Operation => Word::Operation {
            number: operation(word),
        },
        Kind::Instance => Word::Instance {
            label: label(word),
            row: row(word),
        },
        Kind::Resumption => Word::Resumption { label: label(word) },
        Kind::Suspension => Word::Suspension,
        Kind::Binding => Word::Binding {
            ready: ready(word),
            row: row(word),
        },
        Kind::UnitType => Word::UnitType,
        Kind::BottomType => Word::BottomType,
        Kind::BaseType => Word::BaseType {
            base: type_base(word),
        },
        Kind::FunctionType => Word::FunctionType {
            argument: first(word),
            result: second(word),
        },
        Kind::CoroutineType => Word::CoroutineType {
            argument: first(word),
            yields: second(word),
            result: third(word),
        },
        Kind::InstanceType => Word::InstanceType {
            yields: first(word),
            result: second(word),
        },
        Kind::ProgramHead => Word::ProgramHead {
            rows: rows(word),
            term_words: term_words(word),
        },
        Kind::ImageHead => Word::ImageHead {
            used: used(word),
            bindings: bindings(word),
        },
    }
}
