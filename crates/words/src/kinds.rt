// The kinds of words and their numbers.
ghost use Rattle.std.specs.Prelude.{◌≡◌, ◌/◌, ◌^◌, ◌≤◌, ◌==◌, MatchOption, nat_lt};
ghost use Rattle.words.specs.Kinds.{number_of, kind_at, parts_of};
ghost use Rattle.words.specs.Numbered.{Numbered};

use crate::fields::kind_number;
use std::error::Error;
use std::fmt;

#[derive(Clone, Copy, PartialEq, Eq, Debug)]
pub enum Kind {
    // Words of terms.
    Unit = 0,
    Variable = 1,
    Abstraction = 2,
    Coroutine = 3,
    Application = 4,
    Yield = 5,
    Start = 6,
    Resume = 7,
    Snapshot = 8,
    Fix = 9,
    Atom = 10,
    Operation = 11,
    // Words of terms in images only.
    Instance = 12,
    Resumption = 13,
    Suspension = 14,
    // A binding of an image.
    Binding = 15,
    // Rows of a type table.
    UnitType = 16,
    BottomType = 17,
    BaseType = 18,
    FunctionType = 19,
    CoroutineType = 20,
    InstanceType = 21,
    // The first words of a program and of an image.
    ProgramHead = 22,
    ImageHead = 23,
}

// A number that is no kind's.
#[derive(Clone, Copy, PartialEq, Eq, Debug)]
pub struct UnknownKind {
    pub number: u8,
}

impl fmt::Display for UnknownKind {
    fn fmt<W: fmt::Write>(&self, f: &mut fmt::Formatter<W>) -> fmt::Result {
        write!(f, "no kind has the number {}", self.number)
    }
}

impl Error for UnknownKind {}

// The number that stands in a word's bits 27 to 31.
impl From<Kind> for u8 {
    ghost from_gives = { λ kind number. number ≡ number_of kind };

    fn from(kind: Kind) -> u8 {
        kind as u8
    }
}

// The kind with a number; there are none from 24 on.
impl TryFrom<u8> for Kind {
    type Error = UnknownKind;

    ghost try_from_gives = { Numbered };

    fn try_from(number: u8) -> Result<Kind, UnknownKind> {
        match number {
            0 => Ok(Kind::Unit),
            1 => Ok(Kind::Variable),
            2 => Ok(Kind::Abstraction),
            3 => Ok(Kind::Coroutine),
            4 => Ok(Kind::Application),
            5 => Ok(Kind::Yield),
            6 => Ok(Kind::Start),
            7 => Ok(Kind::Resume),
            8 => Ok(Kind::Snapshot),
            9 => Ok(Kind::Fix),
            10 => Ok(Kind::Atom),
            11 => Ok(Kind::Operation),
            12 => Ok(Kind::Instance),
            13 => Ok(Kind::Resumption),
            14 => Ok(Kind::Suspension),
            15 => Ok(Kind::Binding),
            16 => Ok(Kind::UnitType),
            17 => Ok(Kind::BottomType),
            18 => Ok(Kind::BaseType),
            19 => Ok(Kind::FunctionType),
            20 => Ok(Kind::CoroutineType),
            21 => Ok(Kind::InstanceType),
            22 => Ok(Kind::ProgramHead),
            23 => Ok(Kind::ImageHead),
            _ => Err(UnknownKind { number }),
        }
    }
}

impl Kind {
    // The kind of a word; none where bits 27 to 31 hold no kind's number.
    pub fn of_word(word: u32) -> Option<Kind>
        ensures kind { result ≡ kind_at (word / 2 ^ 27) }
        ensures number { MatchOption result (24 ≤ word / 2 ^ 27) (λ kind. word / 2 ^ 27 ≡ number_of kind) }
    {
        Kind::try_from(kind_number(word)).ok()
    }

    // Whether a word is of this kind.
    pub fn is_of(self, word: u32) -> bool
        ensures { result ≡ (word / 2 ^ 27 == number_of self) }
    {
        kind_number(word) == u8::from(self)
    }

    // How many terms follow a word of this kind as its parts. A binding has none by its kind: whether its body follows, its word says.
    pub fn parts(self) -> u8
        ensures { result ≡ parts_of self }
    {
        match self {
            Kind::Abstraction | Kind::Coroutine | Kind::Yield | Kind::Snapshot | Kind::Fix => 1,
            Kind::Application | Kind::Start | Kind::Operation | Kind::Suspension => 2,
            Kind::Resume | Kind::Resumption => 4,
            _ => 0,
        }
    }

    // Whether words of this kind stand in terms.
    pub fn is_of_term(self) -> bool
        ensures { result ≡ nat_lt (number_of self) 15 }
    {
        u8::from(self) < u8::from(Kind::Binding)
    }
}
