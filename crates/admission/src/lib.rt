// Admission: whether the words of a program are those of a program with a type, and which.
#![tactic(auto)]

pub mod admitting;
