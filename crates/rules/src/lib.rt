// The typing rules, one for each kind of term: what a term has, by what its parts have, or the fault at its place.
#![tactic(auto)]

pub mod model;
pub mod rules;
pub mod table;
