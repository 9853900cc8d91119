// Sequences, admitted or refused.
use admission::admitting::admit;
use quantities::counts::Counts;
use rules::model::Shape;
use rules::table::shape_at;
use std::io;
use typing::model::{Frame, Scoped};

// Kept: numbers, since the stage shows what a drive lends; values of `Word` would be made numbers before they are shown.
// Hands out the set-points 10 and 20: a coroutine that yields 20, applied to a yield of 10. Row 4 is a coroutine type from Unit, which
// yields counts and gives Unit.
const TWO_SET_POINTS: [u32; 12] = [
    0xB000_1805,
    0x8000_0000,
    0x8800_0000,
    0x9000_0000,
    0x9000_0001,
    0xA000_0400,
    0x2000_0000,
    0x1800_4000,
    0x2800_0000,
    0x5000_0014,
    0x2800_0000,
    0x5000_000A,
];

// The place of the word of the first set-point.
const FIRST_SET_POINT: usize = 11;

pub fn show_admission(rt: &HostRuntime) -> io::Result<()> {
    show_admitted(rt, &TWO_SET_POINTS)?;
    // The first set-point is the truth value 1, which is no count.
    let mut mixed = TWO_SET_POINTS;
    mixed[FIRST_SET_POINT] = 0x5100_0001;
    show_admitted(rt, &mixed)
}

// What admit answers for a program over counts.
fn show_admitted(rt: &HostRuntime, program: &[u32]) -> io::Result<()> {
    let mut scopes = [Scoped::default(); 256];
    let mut judgements = [Frame::default(); 256];
    match admit(&Counts, program, &mut scopes, &mut judgements) {
        Ok(judged) => {
            show_row(rt, "type", &program[1..], judged.row)?;
            show_row(rt, "yield type", &program[1..], judged.yields)
        }
        Err(fault) => println!(rt; "{fault}"),
    }
}

// A row of the table by name.
fn show_row(rt: &HostRuntime, what: &str, rows: &[u32], row: u16) -> io::Result<()> {
    match shape_at(rows, row) {
        Shape::UnitRow => println!(rt; "{what}: Unit"),
        Shape::BottomRow => println!(rt; "{what}: ⊥, it yields nothing"),
        Shape::BaseRow(base) => println!(rt; "{what}: base {base}"),
        Shape::FunctionRow { argument, result } => {
            println!(rt; "{what}: function from row {argument} to row {result}")
        }
        Shape::CoroutineRow {
            argument,
            yields,
            result,
        } => println!(rt;
            "{what}: coroutine from row {argument} to row {result} that yields row {yields}"
        ),
        Shape::InstanceRow { yields, result } => {
            println!(rt; "{what}: instance that yields row {yields} and gives row {result}")
        }
        Shape::NoRow => println!(rt; "{what}: no type"),
    }
}
