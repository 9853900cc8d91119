// Measures admit: its time for terms of several lengths, and for tables of several lengths. Without an argument it only says so.
#![tactic(auto)]

use admission::admitting::admit;
use layout::Word;
use quantities::counts::Counts;
use std::alloc::Global;
use std::env;
use std::time::Instant;
use typing::model::{Frame, Scoped};

// How often each program is admitted.
const TIMES: u64 = 200;

fn main(rt: HostRuntime) -> anyhow::Result<()> {
    let given = env::args(&rt)?.skip(1).count();
    if given == 0 {
        println!(rt; "measure: give any argument to measure")?;
        return Ok(());
    }
    println!(rt; "term words, rows: nanoseconds a call")?;
    for levels in [8, 10, 12] {
        measure(&rt, levels, 4)?;
    }
    for rows in [4, 64, 512] {
        measure(&rt, 8, rows)?;
    }
    Ok(())
}

// Admits a program and prints how long a call took.
fn measure(rt: &HostRuntime, levels: u8, rows: u16) -> anyhow::Result<()> {
    let program = tree(rt.alloc(), levels, rows)?;
    let start = Instant::now(rt)?;
    let admitted = (0..TIMES)
        .filter(|_| is_admitted(program.as_slice()))
        .count();
    let nanos = start.elapsed(rt)?.as_nanos() / TIMES as u128;
    let words = program.len().saturating_sub(usize::from(rows) + 1);
    println!(rt; "{words}, {rows}: {nanos} ({admitted} of {TIMES} admitted)")?;
    Ok(())
}

// Whether a program over counts is admitted.
fn is_admitted(program: &[u32]) -> bool {
    let mut scopes = [Scoped::default(); 256];
    let mut judgements = [Frame::default(); 256];
    admit(&Counts, program, &mut scopes, &mut judgements).is_ok()
}

// A yield of a complete tree of sums over so many levels, so 2 to the power of that many term words, with a table of so many rows.
fn tree(heap: Global, levels: u8, rows: u16) -> anyhow::Result<Vec<u32>> {
    let term_words = 1u16 << (levels % 16);
    let mut program = Vec::new(heap);
    program.push(u32::try_from(Word::ProgramHead { rows, term_words })?)?;
    program.push(u32::try_from(Word::UnitType)?)?;
    program.push(u32::try_from(Word::BottomType)?)?;
    program.push(u32::try_from(Word::BaseType { base: 0 })?)?;
    program.push(u32::try_from(Word::BaseType { base: 1 })?)?;
    for before in 3..rows.saturating_sub(1) {
        program.push(u32::try_from(Word::FunctionType {
            argument: before,
            result: before,
        })?)?;
    }
    program.push(u32::try_from(Word::Yield)?)?;
    let mut open = Vec::new(heap);
    open.push(levels)?;
    for _ in 1..term_words {
        let level = open.pop().unwrap_or(1);
        if level > 1 {
            program.push(u32::try_from(Word::Operation { number: 0 })?)?;
            open.push(level - 1)?;
            open.push(level - 1)?;
        } else {
            program.push(u32::try_from(Word::Atom {
                base: 0,
                payload: 1,
            })?)?;
        }
    }
    Ok(program)
}
