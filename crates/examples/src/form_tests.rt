use faults::Fault;
use faults::numbers::FaultNumber;
use form::reading::read_program;

// Words of programs over counts, so that rows 0 to 3 are Unit, ⊥ and the two bases, with the number and the place of the fault; 0 and 0
// where they are accepted.
const PROGRAMS: [(&[u32], u8, usize); 24] = [
    // accepted: a yield of atom 5
    (
        &[
            0xB000_0804,
            0x8000_0000,
            0x8800_0000,
            0x9000_0000,
            0x9000_0001,
            0x2800_0000,
            0x5000_0005,
        ],
        0,
        0,
    ),
    // accepted: row 4 is a function type from Unit to Unit, and the term an abstraction of it
    (
        &[
            0xB000_0805,
            0x8000_0000,
            0x8800_0000,
            0x9000_0000,
            0x9000_0001,
            0x9800_0000,
            0x1000_4000,
            0x0000_0000,
        ],
        0,
        0,
    ),
    // 4: no word
    (&[], 4, 0),
    // 4: a stray bit in the head
    (
        &[
            0xB080_0404,
            0x8000_0000,
            0x8800_0000,
            0x9000_0000,
            0x9000_0001,
            0x0000_0000,
        ],
        4,
        0,
    ),
    // 4: an image head
    (
        &[
            0xB800_0404,
            0x8000_0000,
            0x8800_0000,
            0x9000_0000,
            0x9000_0001,
            0x0000_0000,
        ],
        4,
        0,
    ),
    // 4: three rows
    (
        &[
            0xB000_0403,
            0x8000_0000,
            0x8800_0000,
            0x9000_0000,
            0x0000_0000,
        ],
        4,
        0,
    ),
    // 4: no term word
    (
        &[
            0xB000_0004,
            0x8000_0000,
            0x8800_0000,
            0x9000_0000,
            0x9000_0001,
        ],
        4,
        0,
    ),
    // 4: one word more than stated
    (
        &[
            0xB000_0404,
            0x8000_0000,
            0x8800_0000,
            0x9000_0000,
            0x9000_0001,
            0x0000_0000,
            0x0000_0000,
        ],
        4,
        0,
    ),
    // 5: row 0 is ⊥
    (
        &[
            0xB000_0404,
            0x8800_0000,
            0x8800_0000,
            0x9000_0000,
            0x9000_0001,
            0x0000_0000,
        ],
        5,
        1,
    ),
    // 5: row 1 is Unit, also an earlier row
    (
        &[
            0xB000_0404,
            0x8000_0000,
            0x8000_0000,
            0x9000_0000,
            0x9000_0001,
            0x0000_0000,
        ],
        5,
        2,
    ),
    // 5: row 3 is base 0
    (
        &[
            0xB000_0404,
            0x8000_0000,
            0x8800_0000,
            0x9000_0000,
            0x9000_0000,
            0x0000_0000,
        ],
        5,
        4,
    ),
    // 5: row 4 refers to itself
    (
        &[
            0xB000_0405,
            0x8000_0000,
            0x8800_0000,
            0x9000_0000,
            0x9000_0001,
            0x9800_0004,
            0x0000_0000,
        ],
        5,
        5,
    ),
    // 5: row 4 is an instance type whose result is row 4
    (
        &[
            0xB000_0405,
            0x8000_0000,
            0x8800_0000,
            0x9000_0000,
            0x9000_0001,
            0xA800_0800,
            0x0000_0000,
        ],
        5,
        5,
    ),
    // 5: row 4 is Unit again
    (
        &[
            0xB000_0405,
            0x8000_0000,
            0x8800_0000,
            0x9000_0000,
            0x9000_0001,
            0x8000_0000,
            0x0000_0000,
        ],
        5,
        5,
    ),
    // 5: row 4 has a stray bit
    (
        &[
            0xB000_0405,
            0x8000_0000,
            0x8800_0000,
            0x9000_0000,
            0x9000_0001,
            0x9804_0000,
            0x0000_0000,
        ],
        5,
        5,
    ),
    // 6: row 5 equals row 4
    (
        &[
            0xB000_0406,
            0x8000_0000,
            0x8800_0000,
            0x9000_0000,
            0x9000_0001,
            0x9800_0000,
            0x9800_0000,
            0x0000_0000,
        ],
        6,
        6,
    ),
    // 7: an abstraction of row 0, which is no function type
    (
        &[
            0xB000_0804,
            0x8000_0000,
            0x8800_0000,
            0x9000_0000,
            0x9000_0001,
            0x1000_0000,
            0x0000_0000,
        ],
        7,
        5,
    ),
    // 7: an abstraction of row 4, which is not there
    (
        &[
            0xB000_0804,
            0x8000_0000,
            0x8800_0000,
            0x9000_0000,
            0x9000_0001,
            0x1000_4000,
            0x0000_0000,
        ],
        7,
        5,
    ),
    // 7: a coroutine of a function type
    (
        &[
            0xB000_0805,
            0x8000_0000,
            0x8800_0000,
            0x9000_0000,
            0x9000_0001,
            0x9800_0000,
            0x1800_4000,
            0x0000_0000,
        ],
        7,
        6,
    ),
    // 7: an instance
    (
        &[
            0xB000_0404,
            0x8000_0000,
            0x8800_0000,
            0x9000_0000,
            0x9000_0001,
            0x6000_0000,
        ],
        7,
        5,
    ),
    // 7: a unit with a stray bit
    (
        &[
            0xB000_0804,
            0x8000_0000,
            0x8800_0000,
            0x9000_0000,
            0x9000_0001,
            0x2800_0000,
            0x0000_0001,
        ],
        7,
        6,
    ),
    // 8: the term ends before word 6, which is no term word at all
    (
        &[
            0xB000_0804,
            0x8000_0000,
            0x8800_0000,
            0x9000_0000,
            0x9000_0001,
            0x0000_0000,
            0xFFFF_FFFF,
        ],
        8,
        6,
    ),
    // 8: a yield without its part
    (
        &[
            0xB000_0404,
            0x8000_0000,
            0x8800_0000,
            0x9000_0000,
            0x9000_0001,
            0x2800_0000,
        ],
        8,
        6,
    ),
    // 8: an application with one part
    (
        &[
            0xB000_0804,
            0x8000_0000,
            0x8800_0000,
            0x9000_0000,
            0x9000_0001,
            0x2000_0000,
            0x0000_0000,
        ],
        8,
        7,
    ),
];

// The number and the place of what the form reader answers; 0 and 0 where it accepts.
fn answer(words: &[u32]) -> (u8, usize) {
    match read_program(words, 2) {
        Ok(_) => (0, 0),
        Err(fault) => (u8::from(fault.number()), fault.place()),
    }
}

#[test]
fn programs_are_read_or_refused_at_their_place(rt: HostRuntime) {
    for (words, number, place) in PROGRAMS {
        let (found, at) = answer(words);
        assert_eq!(rt; found, number);
        assert_eq!(rt; at, place);
    }
}

// The head and the rows of a program over counts with so many term words.
fn write_rows(words: &mut [u32], term_words: u16) {
    if words.len() >= 5 {
        words[0] = 0xB000_0004 + term_words as u32 * 0x400;
        words[1] = 0x8000_0000;
        words[2] = 0x8800_0000;
        words[3] = 0x9000_0000;
        words[4] = 0x9000_0001;
    }
}

// So many yields round a unit.
fn deep(yields: u16) -> (u8, usize) {
    let mut words = [0x2800_0000u32; 262];
    if yields > 256 {
        return (0, 0);
    }
    write_rows(&mut words, yields + 1);
    let end = 5 + yields as usize;
    words[end] = 0;
    answer(&words[0..end + 1])
}

#[test]
fn depth_256_is_accepted_and_257_refused(rt: HostRuntime) {
    assert_eq!(rt; deep(255), (0, 0));
    assert_eq!(rt; deep(256), (9, 261));
}
