// What is answered when the engine says no.
#![tactic(auto)]

pub mod methods;
pub mod numbers;

use numbers::FaultNumber;

// A refusal: why, and where. The layer that refused follows from the number. The place is the number of a word, or 0 where the fault has
// no word.
#[derive(Clone, Copy, PartialEq, Eq, Debug)]
pub struct Fault {
    number: FaultNumber,
    // Kept: 0 and no Option, since the place of a fault without a word is 0 by the rule of the engine.
    place: usize,
}
