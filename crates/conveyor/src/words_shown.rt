// Words, built and read.
use layout::Word;
use std::io;

// The seven words of a program over counts: head, four rows of types, and the term that yields the count 5.
const PROGRAM: [Word; 7] = [
    Word::ProgramHead {
        rows: 4,
        term_words: 2,
    },
    Word::UnitType,
    Word::BottomType,
    Word::BaseType { base: 0 },
    Word::BaseType { base: 1 },
    Word::Yield,
    Word::Atom {
        base: 0,
        payload: 5,
    },
];

pub fn show_program(rt: &HostRuntime) -> io::Result<()> {
    for word in PROGRAM {
        match u32::try_from(word) {
            Ok(number) => {
                let parts = word.parts();
                println!(rt; "{number:08X} is {word:?}, parts {parts}")?;
            }
            Err(_) => println!(rt; "{word:?} does not fit a word")?,
        }
    }
    Ok(())
}

// A unit with a bit that has no use, a kind that there is not, and a name that is too large.
pub fn show_stray_bits(rt: &HostRuntime) -> io::Result<()> {
    for number in [0x0000_0001u32, 0xC000_0000, 0x0800_1000] {
        match Word::try_from(number) {
            Ok(word) => println!(rt; "{number:08X} is {word:?}")?,
            Err(error) => println!(rt; "{error}")?,
        }
    }
    match u32::try_from(Word::Variable { name: 4096 }) {
        Ok(number) => println!(rt; "{number:08X}"),
        Err(_) => println!(rt; "a variable's name ends at 4095"),
    }
}
