// The entries of the two stacks.
ghost use Rattle.typing.specs.Machine.{nobody, fresh};

use rules::model::{Judged, Variable};
use stack::Entry;

// A variable in scope.
// Kept: a wrapper, because an impl of another crate's trait needs a type of this crate.
#[derive(Clone, Copy, PartialEq, Eq, Default, Debug)]
pub struct Scoped {
    pub variable: Variable,
}

// An unfinished judgement: a word and its place, how many of its parts are judged, and their judgements.
// Kept: four fields in place of an array, because each rule takes its parts by name, and a field needs no bound.
#[derive(Clone, Copy, PartialEq, Eq, Default, Debug)]
pub struct Frame {
    pub word: u32,
    pub place: usize,
    pub done: u8,
    pub first: Judged,
    pub second: Judged,
    pub third: Judged,
    pub fourth: Judged,
}

impl Entry for Scoped {
    ghost blank = { nobody };

    fn blank() -> Scoped {
        Scoped::default()
    }
}

impl Entry for Frame {
    ghost blank = { fresh 0 0 };

    fn blank() -> Frame {
        Frame::default()
    }
}
