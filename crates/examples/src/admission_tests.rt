use admission::admitting::admit;
use faults::Fault;
use faults::numbers::FaultNumber;
use quantities::counts::Counts;
use rules::model::{Judged, Variable};
use typing::model::{Frame, Scoped};

// Words of programs over counts, with what is answered: 0, the row of the type and that of the yield type, or the number and the place of
// the fault, and 0.
const PROGRAMS: [(&[u32], u8, usize, usize); 4] = [
    // accepted: a yield of atom 5 has type Unit and yields counts
    (
        &[
            0xB000_0804,
            0x8000_0000,
            0x8800_0000,
            0x9000_0000,
            0x9000_0001,
            0x2800_0000,
            0x5000_0005,
        ],
        0,
        0,
        2,
    ),
    // 13: row 4 is a coroutine type of yield ⊥, and a coroutine of it is applied to what yields
    (
        &[
            0xB000_1405,
            0x8000_0000,
            0x8800_0000,
            0x9000_0000,
            0x9000_0001,
            0xA000_0200,
            0x2000_0000,
            0x1800_4000,
            0x0800_0000,
            0x2800_0000,
            0x5000_0005,
        ],
        13,
        6,
        0,
    ),
    // 7: a unit with a stray bit; the form comes before the name that is not in scope
    (
        &[
            0xB000_0C04,
            0x8000_0000,
            0x8800_0000,
            0x9000_0000,
            0x9000_0001,
            0x2000_0000,
            0x0800_0000,
            0x0000_0001,
        ],
        7,
        7,
        0,
    ),
    // 4: no word
    (&[], 4, 0, 0),
];

// The table of types of the terms below.
const ROWS: [u32; 29] = [
    // 0: Unit
    0x8000_0000,
    // 1: ⊥
    0x8800_0000,
    // 2: base 0: counts
    0x9000_0000,
    // 3: base 1: truth values
    0x9000_0001,
    // 4: a function from row 0 to row 0
    0x9800_0000,
    // 5: a function from row 0 to row 4
    0x9800_0800,
    // 6: a coroutine from row 0, yields row 2, results in row 0
    0xA000_0400,
    // 7: a function from row 0 to row 6
    0x9800_0C00,
    // 8: a coroutine from row 0, yields row 1, results in row 0
    0xA000_0200,
    // 9: a function from row 0 to row 8
    0x9800_1000,
    // 10: an instance that yields row 2 and results in row 0
    0xA800_0002,
    // 11: an instance that yields row 3 and results in row 0
    0xA800_0003,
    // 12: an instance that yields row 2 and results in row 3
    0xA800_0602,
    // 13: a coroutine from row 0, yields row 2, results in row 3
    0xA00C_0400,
    // 14: a coroutine from row 3, yields row 3, results in row 0
    0xA000_0603,
    // 15: a coroutine from row 2, yields row 3, results in row 0
    0xA000_0602,
    // 16: a coroutine from row 0, yields row 3, results in row 0
    0xA000_0600,
    // 17: a coroutine from row 0, yields row 3, results in row 2
    0xA008_0600,
    // 18: a coroutine from row 2, yields row 2, results in row 0
    0xA000_0402,
    // 19: a coroutine from row 2, yields row 3, results in row 2
    0xA008_0602,
    // 20: a function from row 2 to row 0
    0x9800_0002,
    // 21: a function from row 0 to row 14
    0x9800_1C00,
    // 22: a function from row 0 to row 15
    0x9800_1E00,
    // 23: a function from row 0 to row 16
    0x9800_2000,
    // 24: a function from row 0 to row 2
    0x9800_0400,
    // 25: a function from row 2 to row 4
    0x9800_0802,
    // 26: a function from row 0 to row 20
    0x9800_2800,
    // 27: a coroutine from row 0, yields row 0, results in row 0
    0xA000_0000,
    // 28: an instance that yields row 0 and results in row 0
    0xA800_0000,
];

// Terms of programs with these rows, with what is answered. The first word of a term has place 30.
const TERMS: [(&[u32], u8, usize, usize); 101] = [
    // unit
    (&[0x0000_0000], 0, 0, 1),
    // the largest count
    (&[0x5000_FFFF], 0, 2, 1),
    // a truth value
    (&[0x5100_0001], 0, 3, 1),
    // 11: a count that is too large
    (&[0x5001_0000], 11, 30, 0),
    // 11: no truth value
    (&[0x5100_0002], 11, 30, 0),
    // 11: an atom of base 2
    (&[0x5200_0000], 11, 30, 0),
    // 11: an atom of base 7, yielded
    (&[0x2800_0000, 0x5700_0000], 11, 31, 0),
    // 10: no name is in scope
    (&[0x0800_0000], 10, 30, 0),
    // 10: another name than the binder's
    (&[0x1000_4001, 0x0800_0000], 10, 31, 0),
    // 10: the binder of the name is left
    (
        &[0x2000_0000, 0x1000_4000, 0x0800_0000, 0x0800_0000],
        10,
        33,
        0,
    ),
    // an abstraction
    (&[0x1000_4000, 0x0800_0000], 0, 4, 1),
    // 12: an abstraction with another result
    (&[0x1000_4000, 0x5000_0005], 12, 30, 0),
    // 13: an abstraction whose body yields
    (&[0x1000_4000, 0x2800_0000, 0x5000_0005], 13, 30, 0),
    // 12: an abstraction with another result whose body yields
    (
        &[
            0x1000_4000,
            0x2000_0000,
            0x1001_8000,
            0x5000_0005,
            0x2800_0000,
            0x5000_0005,
        ],
        12,
        30,
        0,
    ),
    // a coroutine whose body yields
    (&[0x1800_6000, 0x2800_0000, 0x5000_0005], 0, 6, 1),
    // a coroutine whose body does not yield
    (&[0x1800_6000, 0x0800_0000], 0, 6, 1),
    // 12: a coroutine with another result
    (&[0x1800_6000, 0x5000_0005], 12, 30, 0),
    // 13: a coroutine whose body yields another type
    (&[0x1800_6000, 0x2800_0000, 0x5100_0001], 13, 30, 0),
    // 13: a coroutine of yield ⊥ whose body yields
    (&[0x1800_8000, 0x2800_0000, 0x5000_0005], 13, 30, 0),
    // 12: a coroutine with another result whose body yields another type
    (
        &[
            0x1800_6000,
            0x2000_0000,
            0x1001_8000,
            0x5000_0005,
            0x2800_0000,
            0x5100_0001,
        ],
        12,
        30,
        0,
    ),
    // 12: unit, applied
    (&[0x2000_0000, 0x0000_0000, 0x0000_0000], 12, 30, 0),
    // 12: an instance, applied
    (
        &[
            0x2000_0000,
            0x3000_C000,
            0x1800_D000,
            0x5100_0001,
            0x0000_0000,
            0x0000_0000,
        ],
        12,
        30,
        0,
    ),
    // a function, applied
    (
        &[0x2000_0000, 0x1000_4000, 0x0800_0000, 0x0000_0000],
        0,
        0,
        1,
    ),
    // a function, applied to what yields
    (
        &[
            0x2000_0000,
            0x1000_4000,
            0x0800_0000,
            0x2800_0000,
            0x5000_0005,
        ],
        0,
        0,
        2,
    ),
    // what yields, applied to unit: the function yields
    (
        &[
            0x2000_0000,
            0x2000_0000,
            0x1000_5000,
            0x1000_4000,
            0x0000_0000,
            0x2800_0000,
            0x5000_0005,
            0x0000_0000,
        ],
        0,
        0,
        2,
    ),
    // a function, applied: both parts yield the same
    (
        &[
            0x2000_0000,
            0x2000_0000,
            0x1000_5000,
            0x1000_4000,
            0x0000_0000,
            0x2800_0000,
            0x5000_0005,
            0x2800_0000,
            0x5000_0005,
        ],
        0,
        0,
        2,
    ),
    // 12: a function, applied to another type
    (
        &[0x2000_0000, 0x1000_4000, 0x0800_0000, 0x5000_0005],
        12,
        30,
        0,
    ),
    // 13: a function, applied: the parts yield different types
    (
        &[
            0x2000_0000,
            0x2000_0000,
            0x1000_5000,
            0x1000_4000,
            0x0000_0000,
            0x2800_0000,
            0x5000_0005,
            0x2800_0000,
            0x5100_0001,
        ],
        13,
        30,
        0,
    ),
    // 12: a function, applied to another type: the parts yield different types
    (
        &[
            0x2000_0000,
            0x2000_0000,
            0x1000_5000,
            0x1000_4000,
            0x0000_0000,
            0x2800_0000,
            0x5000_0005,
            0x2000_0000,
            0x1001_8000,
            0x5000_0005,
            0x2800_0000,
            0x5100_0001,
        ],
        12,
        30,
        0,
    ),
    // a coroutine, applied: it has its yield type though no part yields
    (
        &[0x2000_0000, 0x1800_6000, 0x0000_0000, 0x0000_0000],
        0,
        0,
        2,
    ),
    // a coroutine, applied: both parts yield its type
    (
        &[
            0x2000_0000,
            0x2000_0000,
            0x1000_7000,
            0x1800_6000,
            0x0000_0000,
            0x2800_0000,
            0x5000_0005,
            0x2800_0000,
            0x5000_0005,
        ],
        0,
        0,
        2,
    ),
    // a coroutine of yield ⊥, applied
    (
        &[0x2000_0000, 0x1800_8000, 0x0000_0000, 0x0000_0000],
        0,
        0,
        1,
    ),
    // 12: a coroutine, applied to another type
    (
        &[0x2000_0000, 0x1800_6000, 0x0000_0000, 0x5000_0005],
        12,
        30,
        0,
    ),
    // 13: a coroutine, applied to what yields another type
    (
        &[
            0x2000_0000,
            0x1800_6000,
            0x0000_0000,
            0x2800_0000,
            0x5100_0001,
        ],
        13,
        30,
        0,
    ),
    // 13: a coroutine that yields another type, applied
    (
        &[
            0x2000_0000,
            0x2000_0000,
            0x1000_7000,
            0x1800_6000,
            0x0000_0000,
            0x2800_0000,
            0x5100_0001,
            0x0000_0000,
        ],
        13,
        30,
        0,
    ),
    // 13: a coroutine of yield ⊥, applied to what yields
    (
        &[
            0x2000_0000,
            0x1800_8000,
            0x0000_0000,
            0x2800_0000,
            0x5000_0005,
        ],
        13,
        30,
        0,
    ),
    // 13: a coroutine of yield ⊥ that yields, applied
    (
        &[
            0x2000_0000,
            0x2000_0000,
            0x1000_9000,
            0x1800_8000,
            0x0000_0000,
            0x2800_0000,
            0x5000_0005,
            0x0000_0000,
        ],
        13,
        30,
        0,
    ),
    // 12: a coroutine, applied to another type that yields another type
    (
        &[
            0x2000_0000,
            0x1800_6000,
            0x0000_0000,
            0x2000_0000,
            0x1001_8000,
            0x5000_0005,
            0x2800_0000,
            0x5100_0001,
        ],
        12,
        30,
        0,
    ),
    // a yield
    (&[0x2800_0000, 0x5000_0005], 0, 0, 2),
    // a yield whose part yields its type
    (&[0x2800_0000, 0x2800_0000, 0x0000_0000], 0, 0, 0),
    // 13: a yield whose part yields another type
    (&[0x2800_0000, 0x2800_0000, 0x5000_0005], 13, 30, 0),
    // a start
    (
        &[0x3000_A000, 0x1800_6000, 0x0000_0000, 0x0000_0000],
        0,
        10,
        1,
    ),
    // a start whose coroutine yields
    (
        &[
            0x3000_A000,
            0x2000_0000,
            0x1000_7000,
            0x1800_6000,
            0x0000_0000,
            0x2800_0000,
            0x5000_0005,
            0x0000_0000,
        ],
        0,
        10,
        2,
    ),
    // a start whose argument yields
    (
        &[
            0x3000_A000,
            0x1800_6000,
            0x0000_0000,
            0x2800_0000,
            0x5100_0001,
        ],
        0,
        10,
        3,
    ),
    // a start whose parts yield the same
    (
        &[
            0x3000_A000,
            0x2000_0000,
            0x1000_7000,
            0x1800_6000,
            0x0000_0000,
            0x2800_0000,
            0x5100_0001,
            0x2800_0000,
            0x5100_0001,
        ],
        0,
        10,
        3,
    ),
    // 12: a start of unit
    (&[0x3000_A000, 0x0000_0000, 0x0000_0000], 12, 30, 0),
    // 12: a start of a function
    (
        &[0x3000_A000, 0x1000_4000, 0x0800_0000, 0x0000_0000],
        12,
        30,
        0,
    ),
    // 12: a start with another argument
    (
        &[0x3000_A000, 0x1800_6000, 0x0000_0000, 0x5000_0005],
        12,
        30,
        0,
    ),
    // 12: a start whose row has another yield
    (
        &[0x3000_B000, 0x1800_6000, 0x0000_0000, 0x0000_0000],
        12,
        30,
        0,
    ),
    // 12: a start whose row has another result
    (
        &[0x3000_C000, 0x1800_6000, 0x0000_0000, 0x0000_0000],
        12,
        30,
        0,
    ),
    // 13: a start whose parts yield different types
    (
        &[
            0x3000_A000,
            0x2000_0000,
            0x1000_7000,
            0x1800_6000,
            0x0000_0000,
            0x2800_0000,
            0x5000_0005,
            0x2800_0000,
            0x5100_0001,
        ],
        13,
        30,
        0,
    ),
    // 12: a start whose row has another yield and whose parts yield different types
    (
        &[
            0x3000_B000,
            0x2000_0000,
            0x1000_7000,
            0x1800_6000,
            0x0000_0000,
            0x2800_0000,
            0x5000_0005,
            0x2800_0000,
            0x5100_0001,
        ],
        12,
        30,
        0,
    ),
    // a resume
    (
        &[
            0x3800_0000,
            0x3000_C000,
            0x1800_D000,
            0x5100_0001,
            0x0000_0000,
            0x1800_E000,
            0x0000_0000,
            0x1800_F000,
            0x0000_0000,
            0x1801_0000,
            0x0000_0000,
        ],
        0,
        0,
        3,
    ),
    // a resume whose instance yields the type of the handlers
    (
        &[
            0x3800_0000,
            0x3000_C000,
            0x1800_D000,
            0x5100_0001,
            0x2800_0000,
            0x5100_0001,
            0x1800_E000,
            0x0000_0000,
            0x1800_F000,
            0x0000_0000,
            0x1801_0000,
            0x0000_0000,
        ],
        0,
        0,
        3,
    ),
    // 12: a resume of unit
    (
        &[
            0x3800_0000,
            0x0000_0000,
            0x1800_E000,
            0x0000_0000,
            0x1800_F000,
            0x0000_0000,
            0x1801_0000,
            0x0000_0000,
        ],
        12,
        30,
        0,
    ),
    // 12: a resume of a coroutine
    (
        &[
            0x3800_0000,
            0x1800_D000,
            0x5100_0001,
            0x1800_E000,
            0x0000_0000,
            0x1800_F000,
            0x0000_0000,
            0x1801_0000,
            0x0000_0000,
        ],
        12,
        30,
        0,
    ),
    // 12: the handler of results is no coroutine
    (
        &[
            0x3800_0000,
            0x3000_C000,
            0x1800_D000,
            0x5100_0001,
            0x0000_0000,
            0x0000_0000,
            0x1800_F000,
            0x0000_0000,
            0x1801_0000,
            0x0000_0000,
        ],
        12,
        30,
        0,
    ),
    // 12: the handler of yields is no coroutine
    (
        &[
            0x3800_0000,
            0x3000_C000,
            0x1800_D000,
            0x5100_0001,
            0x0000_0000,
            0x1800_E000,
            0x0000_0000,
            0x0000_0000,
            0x1801_0000,
            0x0000_0000,
        ],
        12,
        30,
        0,
    ),
    // 12: the third handler is no coroutine
    (
        &[
            0x3800_0000,
            0x3000_C000,
            0x1800_D000,
            0x5100_0001,
            0x0000_0000,
            0x1800_E000,
            0x0000_0000,
            0x1800_F000,
            0x0000_0000,
            0x0000_0000,
        ],
        12,
        30,
        0,
    ),
    // 12: the handler of results has another argument
    (
        &[
            0x3800_0000,
            0x3000_C000,
            0x1800_D000,
            0x5100_0001,
            0x0000_0000,
            0x1800_F000,
            0x0000_0000,
            0x1800_F000,
            0x0000_0000,
            0x1801_0000,
            0x0000_0000,
        ],
        12,
        30,
        0,
    ),
    // 12: the handler of yields has another argument
    (
        &[
            0x3800_0000,
            0x3000_C000,
            0x1800_D000,
            0x5100_0001,
            0x0000_0000,
            0x1800_E000,
            0x0000_0000,
            0x1800_E000,
            0x0000_0000,
            0x1801_0000,
            0x0000_0000,
        ],
        12,
        30,
        0,
    ),
    // 12: the third handler has another argument
    (
        &[
            0x3800_0000,
            0x3000_C000,
            0x1800_D000,
            0x5100_0001,
            0x0000_0000,
            0x1800_E000,
            0x0000_0000,
            0x1800_F000,
            0x0000_0000,
            0x1800_E000,
            0x0000_0000,
        ],
        12,
        30,
        0,
    ),
    // 12: the handler of yields has another yield
    (
        &[
            0x3800_0000,
            0x3000_C000,
            0x1800_D000,
            0x5100_0001,
            0x0000_0000,
            0x1800_E000,
            0x0000_0000,
            0x1801_2000,
            0x0000_0000,
            0x1801_0000,
            0x0000_0000,
        ],
        12,
        30,
        0,
    ),
    // 12: the third handler has another yield
    (
        &[
            0x3800_0000,
            0x3000_C000,
            0x1800_D000,
            0x5100_0001,
            0x0000_0000,
            0x1800_E000,
            0x0000_0000,
            0x1800_F000,
            0x0000_0000,
            0x1800_6000,
            0x0000_0000,
        ],
        12,
        30,
        0,
    ),
    // 12: the handler of yields has another result
    (
        &[
            0x3800_0000,
            0x3000_C000,
            0x1800_D000,
            0x5100_0001,
            0x0000_0000,
            0x1800_E000,
            0x0000_0000,
            0x1801_3000,
            0x5000_0005,
            0x1801_0000,
            0x0000_0000,
        ],
        12,
        30,
        0,
    ),
    // 12: the third handler has another result
    (
        &[
            0x3800_0000,
            0x3000_C000,
            0x1800_D000,
            0x5100_0001,
            0x0000_0000,
            0x1800_E000,
            0x0000_0000,
            0x1800_F000,
            0x0000_0000,
            0x1801_1000,
            0x5000_0005,
        ],
        12,
        30,
        0,
    ),
    // 13: the instance yields another type
    (
        &[
            0x3800_0000,
            0x3000_C000,
            0x1800_D000,
            0x5100_0001,
            0x2800_0000,
            0x5000_0005,
            0x1800_E000,
            0x0000_0000,
            0x1800_F000,
            0x0000_0000,
            0x1801_0000,
            0x0000_0000,
        ],
        13,
        30,
        0,
    ),
    // 13: the handler of results yields another type
    (
        &[
            0x3800_0000,
            0x3000_C000,
            0x1800_D000,
            0x5100_0001,
            0x0000_0000,
            0x2000_0000,
            0x1001_5000,
            0x1800_E000,
            0x0000_0000,
            0x2800_0000,
            0x5000_0005,
            0x1800_F000,
            0x0000_0000,
            0x1801_0000,
            0x0000_0000,
        ],
        13,
        30,
        0,
    ),
    // 13: the handler of yields yields another type
    (
        &[
            0x3800_0000,
            0x3000_C000,
            0x1800_D000,
            0x5100_0001,
            0x0000_0000,
            0x1800_E000,
            0x0000_0000,
            0x2000_0000,
            0x1001_6000,
            0x1800_F000,
            0x0000_0000,
            0x2800_0000,
            0x5000_0005,
            0x1801_0000,
            0x0000_0000,
        ],
        13,
        30,
        0,
    ),
    // 13: the third handler yields another type
    (
        &[
            0x3800_0000,
            0x3000_C000,
            0x1800_D000,
            0x5100_0001,
            0x0000_0000,
            0x1800_E000,
            0x0000_0000,
            0x1800_F000,
            0x0000_0000,
            0x2000_0000,
            0x1001_7000,
            0x1801_0000,
            0x0000_0000,
            0x2800_0000,
            0x5000_0005,
        ],
        13,
        30,
        0,
    ),
    // 12: the handler of yields has another yield, and the instance yields another type
    (
        &[
            0x3800_0000,
            0x3000_C000,
            0x1800_D000,
            0x5100_0001,
            0x2800_0000,
            0x5000_0005,
            0x1800_E000,
            0x0000_0000,
            0x1801_2000,
            0x0000_0000,
            0x1801_0000,
            0x0000_0000,
        ],
        12,
        30,
        0,
    ),
    // a resume with handlers of yield ⊥
    (
        &[
            0x3800_0000,
            0x3001_C000,
            0x1801_B000,
            0x0000_0000,
            0x0000_0000,
            0x1800_8000,
            0x0000_0000,
            0x1800_8000,
            0x0000_0000,
            0x1800_8000,
            0x0000_0000,
        ],
        0,
        0,
        1,
    ),
    // 13: a resume with handlers of yield ⊥ whose instance yields
    (
        &[
            0x3800_0000,
            0x3001_C000,
            0x1801_B000,
            0x0000_0000,
            0x2800_0000,
            0x0000_0000,
            0x1800_8000,
            0x0000_0000,
            0x1800_8000,
            0x0000_0000,
            0x1800_8000,
            0x0000_0000,
        ],
        13,
        30,
        0,
    ),
    // a snapshot
    (
        &[
            0x4000_0000,
            0x3000_C000,
            0x1800_D000,
            0x5100_0001,
            0x0000_0000,
        ],
        0,
        12,
        1,
    ),
    // a snapshot whose part yields
    (
        &[
            0x4000_0000,
            0x3000_A000,
            0x1800_6000,
            0x0000_0000,
            0x2800_0000,
            0x5000_0005,
        ],
        0,
        10,
        2,
    ),
    // 12: a snapshot of unit
    (&[0x4000_0000, 0x0000_0000], 12, 30, 0),
    // 12: a snapshot of a coroutine
    (&[0x4000_0000, 0x1800_6000, 0x0000_0000], 12, 30, 0),
    // a fix
    (&[0x4800_0000, 0x1000_4000, 0x0800_0000], 0, 0, 1),
    // 12: a fix of unit
    (&[0x4800_0000, 0x0000_0000], 12, 30, 0),
    // 12: a fix of a coroutine
    (&[0x4800_0000, 0x1800_8000, 0x0000_0000], 12, 30, 0),
    // 12: a fix of a function from counts to unit
    (&[0x4800_0000, 0x1001_4000, 0x0000_0000], 12, 30, 0),
    // 13: a fix whose part yields
    (
        &[
            0x4800_0000,
            0x2000_0000,
            0x1000_5000,
            0x1000_4000,
            0x0000_0000,
            0x2800_0000,
            0x5000_0005,
        ],
        13,
        30,
        0,
    ),
    // a sum
    (&[0x5800_0000, 0x5000_0005, 0x5000_0006], 0, 2, 1),
    // a comparison
    (&[0x5800_0002, 0x5000_0005, 0x5000_0006], 0, 3, 1),
    // a conjunction
    (&[0x5800_0003, 0x5100_0000, 0x5100_0001], 0, 3, 1),
    // a sum whose first operand yields
    (
        &[
            0x5800_0000,
            0x2000_0000,
            0x1001_8000,
            0x5000_0005,
            0x2800_0000,
            0x5000_0005,
            0x5000_0005,
        ],
        0,
        2,
        2,
    ),
    // a difference whose second operand yields
    (
        &[
            0x5800_0001,
            0x5000_0005,
            0x2000_0000,
            0x1001_8000,
            0x5000_0005,
            0x2800_0000,
            0x5100_0001,
        ],
        0,
        2,
        3,
    ),
    // 12: the first operand is no count
    (&[0x5800_0000, 0x5100_0001, 0x5000_0005], 12, 30, 0),
    // 12: the second operand is no count
    (&[0x5800_0000, 0x5000_0005, 0x5100_0001], 12, 30, 0),
    // 13: the operands yield different types
    (
        &[
            0x5800_0000,
            0x2000_0000,
            0x1001_8000,
            0x5000_0005,
            0x2800_0000,
            0x5000_0005,
            0x2000_0000,
            0x1001_8000,
            0x5000_0005,
            0x2800_0000,
            0x5100_0001,
        ],
        13,
        30,
        0,
    ),
    // 12: the first operand is no count, and the operands yield different types
    (
        &[
            0x5800_0000,
            0x2000_0000,
            0x1000_4000,
            0x0800_0000,
            0x2800_0000,
            0x5000_0005,
            0x2000_0000,
            0x1001_8000,
            0x5000_0005,
            0x2800_0000,
            0x5100_0001,
        ],
        12,
        30,
        0,
    ),
    // 11: operation 4
    (&[0x5800_0004, 0x5000_0005, 0x5000_0005], 11, 30, 0),
    // 11: operation 4 on units
    (&[0x5800_0004, 0x0000_0000, 0x0000_0000], 11, 30, 0),
    // 10: operation 4 on a name that is not in scope
    (&[0x5800_0004, 0x0000_0000, 0x0800_0000], 10, 32, 0),
    // 12 at word 1, though word 4 is a name that is not in scope
    (
        &[
            0x2000_0000,
            0x2000_0000,
            0x0000_0000,
            0x0000_0000,
            0x0800_0000,
        ],
        12,
        31,
        0,
    ),
    // 10 at word 1, though word 2 applies unit
    (
        &[
            0x2000_0000,
            0x0800_0000,
            0x2000_0000,
            0x0000_0000,
            0x0000_0000,
        ],
        10,
        31,
        0,
    ),
    // 13 at word 1, though word 4 is a count that is too large
    (
        &[
            0x2000_0000,
            0x2800_0000,
            0x2800_0000,
            0x5000_0005,
            0x5001_0000,
        ],
        13,
        31,
        0,
    ),
    // 12 at word 1, part of an abstraction that could have a type
    (
        &[0x1000_4000, 0x2000_0000, 0x0000_0000, 0x0000_0000],
        12,
        31,
        0,
    ),
    // the inner binder of the name counts, and it is of Unit
    (&[0x1001_9000, 0x1000_4000, 0x0800_0000], 0, 25, 1),
    // 12: the inner binder of the name counts, and it is of counts
    (&[0x1001_A000, 0x1001_4000, 0x0800_0000], 12, 31, 0),
    // the outer binder of the name counts again after the inner ones
    (
        &[
            0x1001_4000,
            0x2000_0000,
            0x2000_0000,
            0x1001_A000,
            0x1001_4000,
            0x0000_0000,
            0x0000_0000,
            0x0800_0000,
        ],
        0,
        20,
        1,
    ),
];

// The blank entries.
const NOBODY: Scoped = Scoped {
    variable: Variable { name: 0, row: 0 },
};

const NONE: Judged = Judged { row: 0, yields: 0 };

const FRESH: Frame = Frame {
    word: 0,
    place: 0,
    done: 0,
    first: NONE,
    second: NONE,
    third: NONE,
    fourth: NONE,
};

// An entry that is not blank.
fn rubbish_scoped() -> Scoped {
    Scoped {
        variable: Variable { name: 7, row: 7 },
    }
}

// Likewise.
fn rubbish_frame() -> Frame {
    let none = Judged { row: 7, yields: 7 };
    Frame {
        word: 7,
        place: 7,
        done: 7,
        first: none,
        second: none,
        third: none,
        fourth: none,
    }
}

// Whether all entries are blank.
fn all_nobody(scopes: &[Scoped]) -> bool {
    scopes.iter().all(|entry| *entry == NOBODY)
}

// Whether all entries are blank.
fn all_fresh(judgements: &[Frame]) -> bool {
    judgements.iter().all(|entry| *entry == FRESH)
}

// What is answered over these lists; number 255 where they are not blank afterwards.
fn answer_over(
    words: &[u32],
    scopes: &mut [Scoped],
    judgements: &mut [Frame],
) -> (u8, usize, usize) {
    let answered = admit(&Counts, words, &mut *scopes, &mut *judgements);
    if !all_nobody(&*scopes) || !all_fresh(&*judgements) {
        return (255, 0, 0);
    }
    match answered {
        Ok(judged) => (0, judged.row as usize, judged.yields as usize),
        Err(fault) => (u8::from(fault.number()), fault.place(), 0),
    }
}

// What is answered over lists of 256 entries full of rubbish.
fn answer(words: &[u32]) -> (u8, usize, usize) {
    let mut scopes = [rubbish_scoped(); 256];
    let mut judgements = [rubbish_frame(); 256];
    answer_over(words, &mut scopes, &mut judgements)
}

#[test]
fn programs_are_judged_or_refused_at_their_place(rt: HostRuntime) {
    for (words, number, first, second) in PROGRAMS {
        assert_eq!(rt; answer(words), (number, first, second));
    }
}

// The head, the rows above and a term of at most 15 words.
fn write_program(words: &mut [u32], term: &[u32]) {
    let mut head = 0xB000_001Du32;
    for (at, row) in ROWS.iter().enumerate() {
        if at < 29 && words.len() >= 45 {
            words[1 + at] = *row;
        }
    }
    for (at, word) in term.iter().enumerate() {
        if at < 15 && words.len() >= 45 {
            words[30 + at] = *word;
            head = head.wrapping_add(0x400);
        }
    }
    if words.len() >= 45 {
        words[0] = head;
    }
}

// What is answered for a term with the rows above.
fn answer_for_term(term: &[u32]) -> (u8, usize, usize) {
    let mut words = [0u32; 45];
    if term.len() > 15 {
        return (255, 0, 0);
    }
    write_program(&mut words, term);
    answer(&words[0..30 + term.len()])
}

#[test]
fn terms_are_judged_or_refused_at_their_place(rt: HostRuntime) {
    for (term, number, first, second) in TERMS {
        assert_eq!(rt; answer_for_term(term), (number, first, second));
    }
}

// What is answered for a yield of atom 5 over lists of so many entries full of rubbish.
fn answer_in(scoped: usize, judged: usize) -> (u8, usize, usize) {
    let mut scopes = [rubbish_scoped(); 256];
    let mut judgements = [rubbish_frame(); 256];
    if scoped > 256 || judged > 256 {
        return (255, 0, 0);
    }
    answer_over(
        PROGRAMS[0].0,
        &mut scopes[0..scoped],
        &mut judgements[0..judged],
    )
}

#[test]
fn lists_of_255_entries_are_refused(rt: HostRuntime) {
    assert_eq!(rt; answer_in(256, 256), (0, 0, 2));
    assert_eq!(rt; answer_in(255, 256), (1, 0, 0));
    assert_eq!(rt; answer_in(256, 255), (1, 0, 0));
    assert_eq!(rt; answer_in(0, 0), (1, 0, 0));
}

// The head and the rows of a program over counts with so many term words.
fn write_rows(words: &mut [u32], term_words: u16) {
    if words.len() >= 5 {
        words[0] = 0xB000_0004 + term_words as u32 * 0x400;
        words[1] = 0x8000_0000;
        words[2] = 0x8800_0000;
        words[3] = 0x9000_0000;
        words[4] = 0x9000_0001;
    }
}

// So many yields round a unit.
fn deep(yields: u16) -> (u8, usize, usize) {
    let mut words = [0x2800_0000u32; 262];
    if yields > 256 {
        return (255, 0, 0);
    }
    write_rows(&mut words, yields + 1);
    let end = 5 + yields as usize;
    words[end] = 0;
    answer(&words[0..end + 1])
}

#[test]
fn depth_256_is_judged_and_257_refused(rt: HostRuntime) {
    assert_eq!(rt; deep(255), (0, 0, 0));
    assert_eq!(rt; deep(256), (9, 261, 0));
}
