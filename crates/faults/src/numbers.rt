// The faults by number, and the layers that answer them.
ghost use Rattle.std.specs.Prelude.{◌≡◌};
ghost use Rattle.faults.specs.Numbers.{number_of, layer_of};

use std::fmt;

// The part of the engine that refused.
#[derive(Clone, Copy, PartialEq, Eq, Debug)]
pub enum Layer {
    // Reads a program's words: faults 4 to 9.
    Form,
    // Judges a program's types: faults 10 to 13.
    Check,
    // Runs it: the other faults.
    Engine,
}

// Why it refused.
#[derive(Clone, Copy, PartialEq, Eq, Debug)]
pub enum FaultNumber {
    // A work list has under 256 entries.
    WorkShort = 1,
    // The image's length is outside 2 to 16,384 words.
    ImageLength = 2,
    // Spare and image differ in length.
    SpareLength = 3,
    // No program head, counts out of range, or a length that is not 1 + rows + term words.
    Head = 4,
    // A row of the type table breaks its rule.
    Row = 5,
    // A row equals an earlier one.
    RowTwice = 6,
    // A term word breaks its rule.
    TermWord = 7,
    // The term ends before this word, or not by the end.
    TermEnd = 8,
    // A term at depth 257.
    Depth = 9,
    // A variable that is not in scope.
    Scope = 10,
    // An atom that is not in its base, or an operation without a signature.
    Quantity = 11,
    // Types that do not fit.
    Types = 12,
    // Only the yield type of a part does not fit.
    YieldType = 13,
    // A start or a snapshot with 4,095 bindings: the labels are used up.
    Labels = 14,
    // The next image needs more words than the image has.
    ImageFull = 15,
    // The words are not an image.
    NotImage = 16,
    // The image's term is of another state.
    OtherState = 17,
    // No rule applies at the term where the next step is due.
    NoRule = 18,
}

impl From<FaultNumber> for u8 {
    ghost from_gives = { λ fault number. number ≡ number_of fault };

    fn from(fault: FaultNumber) -> u8 {
        fault as u8
    }
}

impl FaultNumber {
    // The layer that answers faults of this number.
    pub fn layer(self) -> Layer
        ensures { result ≡ layer_of self }
    {
        match self {
            FaultNumber::Head | FaultNumber::Row | FaultNumber::RowTwice => Layer::Form,
            FaultNumber::TermWord | FaultNumber::TermEnd | FaultNumber::Depth => Layer::Form,
            FaultNumber::Scope | FaultNumber::Quantity => Layer::Check,
            FaultNumber::Types | FaultNumber::YieldType => Layer::Check,
            _ => Layer::Engine,
        }
    }
}

// What is wrong, in words.
impl fmt::Display for FaultNumber {
    fn fmt<W: fmt::Write>(&self, f: &mut fmt::Formatter<W>) -> fmt::Result {
        f.write_str(match *self {
            FaultNumber::WorkShort => "a work list has under 256 entries",
            FaultNumber::ImageLength => "the image's length is outside 2 to 16384 words",
            FaultNumber::SpareLength => "spare and image differ in length",
            FaultNumber::Head =>
                "no program head, counts out of range, or a length that does not fit them",
            FaultNumber::Row => "a type row breaks its rule",
            FaultNumber::RowTwice => "a type row equals an earlier one",
            FaultNumber::TermWord => "a term word breaks its rule",
            FaultNumber::TermEnd => "the term ends before this word, or not by the end",
            FaultNumber::Depth => "the term is deeper than 256",
            FaultNumber::Scope => "a variable is not in scope",
            FaultNumber::Quantity => "an atom is not in its base, or an operation has no signature",
            FaultNumber::Types => "types do not fit",
            FaultNumber::YieldType => "the yield type of a part does not fit",
            FaultNumber::Labels => "labels are used up",
            FaultNumber::ImageFull => "the image is full",
            FaultNumber::NotImage => "the words are not an image",
            FaultNumber::OtherState => "the image's term is of another state",
            FaultNumber::NoRule => "no rule applies",
        })
    }
}

impl fmt::Display for Layer {
    fn fmt<W: fmt::Write>(&self, f: &mut fmt::Formatter<W>) -> fmt::Result {
        f.write_str(match *self {
            Layer::Form => "form reader",
            Layer::Check => "check",
            Layer::Engine => "engine",
        })
    }
}
