// The lines of a step on an image: each writes the words of the successor into the spare from word 1 on.
#![tactic(auto)]

pub mod binding_lines;
pub mod making;
pub mod operating;
pub mod redex;
pub mod term_lines;
