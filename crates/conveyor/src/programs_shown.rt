// Programs, read by the form reader.
use form::reading::read_program;
use std::io;

// Kept: numbers, since this stage shows how the form reader takes numbers apart.
// A yield of the count 5.
const OFFER: [u32; 7] = [
    0xB000_0804,
    0x8000_0000,
    0x8800_0000,
    0x9000_0000,
    0x9000_0001,
    0x2800_0000,
    0x5000_0005,
];

// The same, with a row that refers to itself.
const LOOPING_ROW: [u32; 8] = [
    0xB000_0805,
    0x8000_0000,
    0x8800_0000,
    0x9000_0000,
    0x9000_0001,
    0x9800_0004,
    0x2800_0000,
    0x5000_0005,
];

// A yield without its part.
const CUT_SHORT: [u32; 6] = [
    0xB000_0404,
    0x8000_0000,
    0x8800_0000,
    0x9000_0000,
    0x9000_0001,
    0x2800_0000,
];

pub fn show_reading(rt: &HostRuntime) -> io::Result<()> {
    show_read(rt, &OFFER)?;
    show_read(rt, &LOOPING_ROW)?;
    show_read(rt, &CUT_SHORT)
}

// What the form reader answers for a program over counts.
fn show_read(rt: &HostRuntime, words: &[u32]) -> io::Result<()> {
    match read_program(words, 2) {
        Ok(program) => {
            let rows = program.rows.len();
            let term = program.term.len();
            println!(rt; "{rows} rows, {term} term words")
        }
        Err(fault) => println!(rt; "{fault}"),
    }
}
