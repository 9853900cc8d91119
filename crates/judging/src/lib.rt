// The verdict on a term, and what is proved of it.
#![tactic(auto)]

pub mod theorems;
