// The bits of words: programs, types and images are made of words of 32 bits. Bits 27 to 31 are a word's kind, and the kind says which
// fields the other bits hold.
#![tactic(auto)]

pub mod fields;
pub mod kinds;
