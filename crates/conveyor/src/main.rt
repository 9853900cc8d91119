// Shows, stage by stage, what the layers do: words are built and read, programs are read and admitted, quantity sets are asked, and
// refusals are printed.
#![tactic(auto)]

mod admission_shown;
mod programs_shown;
mod quantities_shown;
mod words_shown;

use admission_shown::show_admission;
use faults::Fault;
use faults::numbers::FaultNumber;
use programs_shown::show_reading;
use quantities_shown::{show_counts, show_interlocks};
use std::io;
use words_shown::{show_program, show_stray_bits};

fn main(rt: HostRuntime) -> io::Result<()> {
    println!(rt; "== words: a sequence that hands out set-point 5")?;
    show_program(&rt)?;
    println!(rt; "== words: numbers that are no words")?;
    show_stray_bits(&rt)?;
    println!(rt; "== programs: a sequence is read, and two are refused")?;
    show_reading(&rt)?;
    println!(rt; "== admission: a sequence of two set-points, and one that mixes types")?;
    show_admission(&rt)?;
    println!(rt; "== quantities: counts")?;
    show_counts(&rt)?;
    println!(rt; "== quantities: interlocks")?;
    show_interlocks(&rt)?;
    println!(rt; "== refusals")?;
    show_refusals(&rt)
}

// One refusal of each layer, as a person reads it.
fn show_refusals(rt: &HostRuntime) -> io::Result<()> {
    let row = Fault::new(FaultNumber::Row, 5);
    println!(rt; "{row}")?;
    let types = Fault::new(FaultNumber::Types, 9);
    println!(rt; "{types}")?;
    let full = Fault::new(FaultNumber::ImageFull, 1);
    println!(rt; "{full}")
}
