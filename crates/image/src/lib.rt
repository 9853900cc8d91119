// Images: configurations as words. Which words are an image, and where its bindings stand.
#![tactic(auto)]

pub mod locate;
pub mod read;
pub mod theorems;
pub mod values;
