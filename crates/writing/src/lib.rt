// Words written one after another: whole words, parts of words, and words with others for a variable.
#![tactic(auto)]

pub mod replacing;
pub mod splicing;
pub mod writer;
