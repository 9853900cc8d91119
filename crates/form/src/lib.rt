// The form reader: from any words and the number of bases of a set to the rows and the term of a program, or the first fault.
#![tactic(auto)]

pub mod head;
pub mod program;
pub mod reading;
pub mod rows;
pub mod term;
