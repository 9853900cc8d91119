// Quantity sets: what a sequence computes with. A set has base types, payloads in them, and operations on two payloads.
#![tactic(auto)]

ghost use Rattle.std.specs.Prelude.{◌≡◌, ℕ, ◌+◌, ◌-◌, ◌*◌, ◌/◌, ◌%◌, ◌^◌, ◌<◌, ◌≤◌};
ghost use Rattle.quantities.specs.Meaning.{Meaning, Lawful};

pub mod counts;
pub mod interlocks;

// The bases of an operation: those of its two operands and that of its result.
#[derive(Clone, Copy, PartialEq, Eq, Debug)]
pub struct Signature {
    pub first: u8,
    pub second: u8,
    pub result: u8,
}

// A quantity set answers by its meaning, a table of three questions, and its meaning keeps the law.
pub trait QuantitySet {
    // How many base types the set has; the delivered sets answer `bases` by it.
    const K: u8;

    ghost meaning: { Meaning };

    // How many base types the set has.
    // Kept: no body here, though both sets answer by K; a body would have to prove K for every set, which asks more of an implementation.
    fn bases(&self) -> u8
        ensures { result ≡ meaning.bases };

    // Whether a base holds a payload.
    fn holds(&self, base: u8, payload: u32) -> bool
        ensures { result ≡ meaning.holds base payload };

    // The bases of an operation, if it has a signature.
    fn signature(&self, operation: u8) -> Option<Signature>
        ensures { result ≡ meaning.signature operation };

    // What an operation gives for two payloads; 0 where it does not take them.
    fn apply(&self, operation: u8, first: u32, second: u32) -> u32
        ensures { result ≡ meaning.result operation first second };

    ghost lawful: { Lawful meaning };
}
