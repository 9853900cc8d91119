// The path to the next step, on the words of a term.
#![tactic(auto)]

pub mod kinds;
mod parts;
pub mod pause;
pub mod place;
