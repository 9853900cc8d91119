// The words of terms: a term is its first word and then the words of its parts in order. Which words are those of a term, how far it
// reaches, and a cursor over words and terms.
#![tactic(auto)]

pub mod cursor;
pub mod ends;
pub mod first;
pub mod theorems;
