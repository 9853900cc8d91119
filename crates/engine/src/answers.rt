// What the calls answer.
use crate::states::{Going, Offering, State};
use faults::Fault;
use std::error::Error;
use std::fmt;

// An accepted run: the steps made, and the next state.
#[derive(Debug, Drop)]
pub struct Ran {
    pub made: u16,
    pub state: State,
}

// A refused run: why, the steps made before, and the state back. The image is that after the steps made.
#[derive(Debug, Drop)]
pub struct RunRefused {
    pub fault: Fault,
    pub made: u16,
    pub state: Going,
}

// A refused take: why, and the state back.
#[derive(Debug, Drop)]
pub struct TakeRefused {
    pub fault: Fault,
    pub state: Offering,
}

// What is shown: a part of the caller's words, and the place where it stands in the image.
#[derive(Clone, Copy, Debug)]
pub struct Shown<'a> {
    pub place: usize,
    pub words: &'a [u32],
}

impl fmt::Display for RunRefused {
    fn fmt<W: fmt::Write>(&self, f: &mut fmt::Formatter<W>) -> fmt::Result {
        write!(f, "{}", self.fault)
    }
}

impl Error for RunRefused {}

impl fmt::Display for TakeRefused {
    fn fmt<W: fmt::Write>(&self, f: &mut fmt::Formatter<W>) -> fmt::Result {
        write!(f, "{}", self.fault)
    }
}

impl Error for TakeRefused {}
