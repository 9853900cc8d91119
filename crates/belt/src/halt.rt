// Why a stage could not go on.
use engine::answers::{RunRefused, TakeRefused};
use engine::states::State;
use faults::Fault;
use layout::WideField;
use std::alloc::AllocError;
use std::io;
use thiserror::Error;

#[derive(Debug, Drop, Error)]
pub enum Halt {
    // A call was refused that hands no state back.
    #[error("{0}")]
    Call(#[from] Fault),
    // A tick was refused, and the run is still going.
    #[error("{0}")]
    Tick(#[from] RunRefused),
    // A take was refused, and the offer still stands.
    #[error("{0}")]
    Take(#[from] TakeRefused),
    // The loop has gone round often enough, and the run has not ended.
    #[error("the run has not ended in time")]
    Late(State),
    // A word of the sequence has a field that does not fit.
    #[error("{0}")]
    Word(#[from] WideField),
    // There is no memory.
    #[error("there is no memory")]
    Memory(#[from(alloc)] AllocError),
    // Nothing can be printed.
    #[error("{0}")]
    Output(#[from] io::Error),
}
