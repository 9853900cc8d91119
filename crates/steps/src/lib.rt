// Steps on images: which line applies, a step, a run of steps, and a take.
#![tactic(auto)]

pub mod run;
pub mod step;
pub mod taking;
pub mod turn;
