// What the calls answer, and what holds after every history of them.
#![tactic(auto)]

pub mod states;
pub mod theorems;
