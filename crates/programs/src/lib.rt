// The words of a program: what they are, how they are read, and what is promised of it.
#![tactic(auto)]

pub mod theorems;
