// Quantity sets, asked for what they hold and give.
use quantities::QuantitySet;
use quantities::counts::Counts;
use quantities::interlocks::Interlocks;
use std::io;

// What an operation of a set gives for two payloads, and whether that is in the operation's result base.
fn show_result<Q: QuantitySet>(
    rt: &HostRuntime,
    set: &Q,
    operation: u8,
    first: u32,
    second: u32,
) -> io::Result<()> {
    let Some(signature) = set.signature(operation) else {
        return println!(rt; "operation {operation} has no signature");
    };
    let result = set.apply(operation, first, second);
    let base = signature.result;
    if set.holds(base, result) {
        println!(rt; "operation {operation} on {first} and {second} gives {result} in base {base}")
    } else {
        println!(rt;
            "operation {operation} on {first} and {second} gives {result}, which base {base} lacks"
        )
    }
}

pub fn show_counts(rt: &HostRuntime) -> io::Result<()> {
    let set = Counts;
    let bases = set.bases();
    println!(rt; "{bases} bases")?;
    show_result(rt, &set, 0, 65_535, 1)?;
    show_result(rt, &set, 1, 3, 10)?;
    show_result(rt, &set, 2, 100, 100)?;
    show_result(rt, &set, 3, 1, 0)?;
    show_result(rt, &set, 4, 1, 1)
}

// The whole table of operation 1: a row for each first operand.
pub fn show_interlocks(rt: &HostRuntime) -> io::Result<()> {
    let set = Interlocks;
    let bases = set.bases();
    println!(rt; "{bases} base")?;
    show_result(rt, &set, 0, 1, 3)?;
    show_result(rt, &set, 1, 2, 0)?;
    for first in 0..4 {
        let run = set.apply(1, first, 0);
        let hold = set.apply(1, first, 1);
        let stop = set.apply(1, first, 2);
        let fault = set.apply(1, first, 3);
        println!(rt; "{first}: {run} {hold} {stop} {fault}")?;
    }
    Ok(())
}
