// The states of a run. A call that is accepted uses up its state, show excepted: a state moves, it cannot be copied, and only the engine
// makes one.
ghost use Rattle.std.specs.Prelude.{◌≡◌};
ghost use Rattle.engine.specs.States.{state_of};

use calls::states::Status;

// The run goes on: it can be run.
#[derive(Debug, Drop)]
pub struct Going(());

// The run offers a value: it can be shown and taken.
#[derive(Debug, Drop)]
pub struct Offering(());

// The run has ended with a value: it can be shown.
#[derive(Debug, Drop)]
pub struct Ended(());

// What a call leaves.
#[derive(Debug, Drop)]
pub enum State {
    Going(Going),
    Offering(Offering),
    Ended(Ended),
}

impl State {
    // The state of this name.
    // Kept: no `From`, which everybody could call, since only the engine makes a state.
    pub(crate) fn of(status: Status) -> State
        ensures { result ≡ state_of status }
    {
        match status {
            Status::Going => State::Going(Going(())),
            Status::Offering => State::Offering(Offering(())),
            Status::Ended => State::Ended(Ended(())),
        }
    }

    // Which of the three it is, by name.
    pub fn status(&self) -> Status
        ensures { self.now ≡ state_of result }
    {
        match self {
            State::Going(_) => Status::Going,
            State::Offering(_) => Status::Offering,
            State::Ended(_) => Status::Ended,
        }
    }
}
