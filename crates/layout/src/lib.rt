// Words by their kind and fields: a word is built as a number of 32 bits, and read back. Bits without a use are zero.
#![tactic(auto)]

ghost use Rattle.std.specs.Prelude.{◌≡◌};
ghost use Rattle.layout.specs.Layout.{kind_of, parts_of};
ghost use Rattle.layout.specs.Conversions.{Builds, Decodes};

mod assembling;
mod parsing;

use assembling::assemble;
use parsing::parse;
use std::error::Error;
use std::fmt;
use words::kinds::Kind;

// A word, by its kind and its fields.
#[derive(Clone, Copy, PartialEq, Eq, Debug)]
pub enum Word {
    Unit,
    Variable {
        name: u16,
    },
    Abstraction {
        name: u16,
        row: u16,
    },
    Coroutine {
        name: u16,
        row: u16,
    },
    Application,
    Yield,
    Start {
        row: u16,
    },
    Resume,
    Snapshot,
    Fix,
    Atom {
        base: u8,
        payload: u32,
    },
    Operation {
        number: u8,
    },
    Instance {
        label: u16,
        row: u16,
    },
    Resumption {
        label: u16,
    },
    Suspension,
    Binding {
        ready: bool,
        row: u16,
    },
    UnitType,
    BottomType,
    BaseType {
        base: u8,
    },
    FunctionType {
        argument: u16,
        result: u16,
    },
    CoroutineType {
        argument: u16,
        yields: u16,
        result: u16,
    },
    InstanceType {
        yields: u16,
        result: u16,
    },
    ProgramHead {
        rows: u16,
        term_words: u16,
    },
    ImageHead {
        used: u16,
        bindings: u16,
    },
}

impl Word {
    // The word's kind.
    pub fn kind(self) -> Kind
        ensures { result ≡ kind_of self }
    {
        match self {
            Word::Unit => Kind::Unit,
            Word::Variable { .. } => Kind::Variable,
            Word::Abstraction { .. } => Kind::Abstraction,
            Word::Coroutine { .. } => Kind::Coroutine,
            Word::Application => Kind::Application,
            Word::Yield => Kind::Yield,
            Word::Start { .. } => Kind::Start,
            Word::Resume => Kind::Resume,
            Word::Snapshot => Kind::Snapshot,
            Word::Fix => Kind::Fix,
            Word::Atom { .. } => Kind::Atom,
            Word::Operation { .. } => Kind::Operation,
            Word::Instance { .. } => Kind::Instance,
            Word::Resumption { .. } => Kind::Resumption,
            Word::Suspension => Kind::Suspension,
            Word::Binding { .. } => Kind::Binding,
            Word::UnitType => Kind::UnitType,
            Word::BottomType => Kind::BottomType,
            Word::BaseType { .. } => Kind::BaseType,
            Word::FunctionType { .. } => Kind::FunctionType,
            Word::CoroutineType { .. } => Kind::CoroutineType,
            Word::InstanceType { .. } => Kind::InstanceType,
            Word::ProgramHead { .. } => Kind::ProgramHead,
            Word::ImageHead { .. } => Kind::ImageHead,
        }
    }

    // How many terms follow the word as its parts. A binding has its body for a part if it is ready.
    pub fn parts(self) -> u8
        ensures { result ≡ parts_of self }
    {
        match self {
            Word::Binding { ready, .. } => u8::from(ready),
            other => other.kind().parts(),
        }
    }
}

// A word with a field that does not fit its bits.
#[derive(Clone, Copy, PartialEq, Eq, Debug)]
pub struct WideField {
    pub word: Word,
}

impl fmt::Display for WideField {
    fn fmt<W: fmt::Write>(&self, f: &mut fmt::Formatter<W>) -> fmt::Result {
        write!(f, "a field does not fit its bits in {:?}", self.word)
    }
}

impl Error for WideField {}

// A number that stands for no word.
#[derive(Clone, Copy, PartialEq, Eq, Debug)]
pub struct NoWord {
    pub number: u32,
}

impl fmt::Display for NoWord {
    fn fmt<W: fmt::Write>(&self, f: &mut fmt::Formatter<W>) -> fmt::Result {
        write!(f, "{:08X} is no word", self.number)
    }
}

impl Error for NoWord {}

// The word as a number; an error where a field does not fit its bits.
impl TryFrom<Word> for u32 {
    type Error = WideField;

    ghost try_from_gives = { Builds };

    fn try_from(word: Word) -> Result<u32, WideField> {
        assemble(word).ok_or(WideField { word })
    }
}

// The word that a number stands for: of one of the kinds, with no bit set that has no use in it.
impl TryFrom<u32> for Word {
    type Error = NoWord;

    ghost try_from_gives = { Decodes };

    fn try_from(number: u32) -> Result<Word, NoWord> {
        parse(number).ok_or(NoWord { number })
    }
}
