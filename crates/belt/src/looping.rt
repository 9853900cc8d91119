// The loop of a drive: it runs a belt tick by tick, and takes each set-point that is offered.
use crate::drive::{Drive, STEPS_A_TICK};
use crate::halt::Halt;
use engine::states::{Ended, Going, Offering, State};
use std::io;

// The most ticks and takes of one loop.
const MOST_TURNS: u16 = 200;

// What a loop has seen so far: ticks, steps made, and the last set-point.
#[derive(Drop)]
pub struct Seen {
    ticks: u16,
    steps: u32,
    set_point: Option<u32>,
}

impl Seen {
    pub fn new() -> Seen {
        Seen {
            ticks: 0,
            steps: 0,
            set_point: None,
        }
    }

    // One more tick, with so many steps made; the number of the tick.
    pub fn count_tick(&mut self, made: u16) -> u16 {
        self.ticks = self.ticks.saturating_add(1);
        self.steps = self.steps.saturating_add(u32::from(made));
        self.ticks
    }
}

// Runs until the belt has ended.
pub fn run_belt(
    rt: &HostRuntime,
    drive: &mut Drive,
    seen: &mut Seen,
    opened: State,
) -> Result<Ended, Halt> {
    let mut state = opened;
    for _ in 0..MOST_TURNS {
        state = match state {
            State::Going(going) => run_tick(rt, drive, seen, going)?,
            State::Offering(offering) => take_set_point(rt, drive, seen, offering)?,
            State::Ended(ended) => return Ok(ended),
        };
    }
    Err(Halt::Late(state))
}

// Runs for one tick.
fn run_tick(
    rt: &HostRuntime,
    drive: &mut Drive,
    seen: &mut Seen,
    going: Going,
) -> Result<State, Halt> {
    let ran = drive.tick(going)?;
    let made = ran.made;
    let tick = seen.count_tick(made);
    print!(rt; "tick {tick}: {made} of {STEPS_A_TICK} steps, ")?;
    print_state(rt, drive, &ran.state)?;
    Ok(ran.state)
}

// Shows the set-point that is offered, and takes it.
fn take_set_point(
    rt: &HostRuntime,
    drive: &mut Drive,
    seen: &mut Seen,
    offering: Offering,
) -> Result<State, Halt> {
    match (drive.count(&offering)?, seen.set_point) {
        (Some(next), Some(last)) if next < last => {
            print!(rt; "  set-point {next}, back from {last}; taken: ")?
        }
        (Some(next), _) => print!(rt; "  set-point {next}; taken: ")?,
        (None, _) => print!(rt; "  no count; taken: ")?,
    }
    seen.set_point = drive.count(&offering)?;
    let next = drive.take_offer(offering)?;
    print_state(rt, drive, &next)?;
    Ok(next)
}

// The state of a run, and what the head of its image says.
pub fn print_state(rt: &HostRuntime, drive: &Drive, state: &State) -> io::Result<()> {
    let status = state.status();
    match drive.usage() {
        Some(usage) => {
            let words = usage.words;
            let bindings = usage.bindings;
            println!(rt; "{status}, {words} words used, {bindings} bindings")
        }
        None => println!(rt; "{status}, no image"),
    }
}

// The value that a belt has ended with, after how many ticks and steps.
pub fn print_end(rt: &HostRuntime, drive: &Drive, seen: &Seen, ended: &Ended) -> Result<(), Halt> {
    let ticks = seen.ticks;
    let steps = seen.steps;
    match drive.count(ended)? {
        Some(value) => println!(rt; "the value is {value}, after {ticks} ticks and {steps} steps")?,
        None => println!(rt; "the value is no count, after {ticks} ticks and {steps} steps")?,
    }
    Ok(())
}
