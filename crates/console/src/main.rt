// The engine over standard input: one answer line for each command line.
#![tactic(auto)]

mod answer;
mod command;
mod digits;
mod engines;
mod lent;
mod pieces;
mod reading;
mod running;
mod session;

use session::Session;
use std::io;
use std::io::{BufRead, BufReader};

fn main(rt: HostRuntime) -> io::Result<()> {
    let heap = rt.alloc();
    let mut session = Session::new(heap);
    for line in BufReader::new(heap, rt.stdin())?.split(heap, b'\n') {
        let answer = session.answer(line?.as_slice())?;
        println!(rt; "{answer}")?;
    }
    Ok(())
}
