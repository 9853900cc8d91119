// The stages, each with what the loop of a drive sees.
use crate::drive::{Drive, STEPS_A_TICK};
use crate::halt::Halt;
use crate::looping::{Seen, print_end, print_state, run_belt};
use crate::sequence::{COUNT, FIRST_POSITION, TRUTH, UNIT, WORDS, belt_sequence, truth};
use engine::answers::RunRefused;
use engine::states::State;
use layout::{WideField, Word};
use std::io;

// The words of an image in which the belt sequence runs to its end, and of one that is too small for it.
const ENOUGH: usize = 200;

const TOO_SMALL: usize = 144;

// The belt sequence is admitted: what it ends with, and what it offers.
pub fn show_admission(rt: &HostRuntime) -> Result<(), Halt> {
    let mut drive = Drive::new(rt.alloc(), ENOUGH)?;
    let sequence = encode(&belt_sequence())?;
    let judged = drive.admit_belt(&sequence)?;
    let words = sequence.len();
    let value = row_name(judged.row);
    let offers = row_name(judged.yields);
    println!(rt; "{words} words, admitted: its value is {value}, and each set-point is {offers}")?;
    Ok(())
}

// The words of a sequence as numbers.
fn encode(sequence: &[Word; WORDS]) -> Result<[u32; WORDS], WideField> {
    let mut numbers = [0; WORDS];
    for (number, word) in numbers.iter_mut().zip(sequence.iter()) {
        *number = u32::try_from(*word)?;
    }
    Ok(numbers)
}

// What a value of one of the first rows is.
fn row_name(row: u16) -> &'static str {
    match row {
        UNIT => "unit",
        COUNT => "a count",
        TRUTH => "a truth value",
        _ => "of another type",
    }
}

// The belt sequence runs from its beginning to its end.
pub fn show_run(rt: &HostRuntime) -> Result<(), Halt> {
    let mut drive = Drive::new(rt.alloc(), ENOUGH)?;
    let opened = open_belt(rt, &mut drive)?;
    run_to_end(rt, &mut drive, Seen::new(), opened)
}

// The belt sequence, opened.
fn open_belt(rt: &HostRuntime, drive: &mut Drive) -> Result<State, Halt> {
    let sequence = encode(&belt_sequence())?;
    let opened = drive.open_belt(&sequence)?;
    let words = drive.image_words();
    print!(rt; "opened in an image of {words} words: ")?;
    print_state(rt, drive, &opened)?;
    Ok(opened)
}

fn run_to_end(
    rt: &HostRuntime,
    drive: &mut Drive,
    mut seen: Seen,
    state: State,
) -> Result<(), Halt> {
    let ended = run_belt(rt, drive, &mut seen, state)?;
    print_end(rt, drive, &seen, &ended)
}

// A sequence whose types do not fit is not opened.
pub fn show_refused(rt: &HostRuntime) -> Result<(), Halt> {
    let mut sequence = belt_sequence();
    sequence[FIRST_POSITION] = truth(1);
    let sequence = encode(&sequence)?;
    let mut drive = Drive::new(rt.alloc(), ENOUGH)?;
    match drive.open_belt(&sequence) {
        Ok(opened) => print_state(rt, &drive, &opened)?,
        Err(fault) => println!(rt; "not opened: {fault}")?,
    }
    Ok(())
}

// The image fills up, and the run goes on in a larger one.
pub fn show_full_image(rt: &HostRuntime) -> Result<(), Halt> {
    let mut drive = Drive::new(rt.alloc(), TOO_SMALL)?;
    let opened = open_belt(rt, &mut drive)?;
    let mut seen = Seen::new();
    match run_belt(rt, &mut drive, &mut seen, opened) {
        Ok(ended) => print_end(rt, &drive, &seen, &ended),
        Err(Halt::Tick(refused)) => {
            let going = show_tick_refused(rt, &drive, &mut seen, refused)?;
            drive.enlarge(ENOUGH)?;
            let words = drive.image_words();
            println!(rt; "the image now has {words} words")?;
            run_to_end(rt, &mut drive, seen, going)
        }
        // Kept: an arm that hands on; a `?` before the match would hand on the refused tick too.
        Err(halt) => Err(halt),
    }
}

// A refused tick; the state comes back.
fn show_tick_refused(
    rt: &HostRuntime,
    drive: &Drive,
    seen: &mut Seen,
    refused: RunRefused,
) -> io::Result<State> {
    let made = refused.made;
    let fault = refused.fault;
    let tick = seen.count_tick(made);
    println!(rt; "tick {tick}: {made} of {STEPS_A_TICK} steps, then {fault}")?;
    print!(rt; "  the state comes back: ")?;
    let state = State::Going(refused.state);
    print_state(rt, drive, &state)?;
    Ok(state)
}
