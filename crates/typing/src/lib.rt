// The type check over the words of a term: from left to right, with the unfinished judgements and the variables in scope on two lent stacks.
#![tactic(auto)]

pub mod check;
pub mod frames;
pub mod model;
pub mod scope;
