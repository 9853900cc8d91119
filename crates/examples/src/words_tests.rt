use layout::{NoWord, WideField, Word};
use words::kinds::Kind;

// Words at both ends of each field, with their numbers.
const WORDS: [(Word, u32); 45] = [
    (Word::Unit, 0x0000_0000),
    (Word::Variable { name: 0 }, 0x0800_0000),
    (Word::Variable { name: 4095 }, 0x0800_0FFF),
    (Word::Abstraction { name: 4095, row: 0 }, 0x1000_0FFF),
    (Word::Abstraction { name: 0, row: 511 }, 0x101F_F000),
    (Word::Coroutine { name: 4095, row: 0 }, 0x1800_0FFF),
    (Word::Coroutine { name: 0, row: 511 }, 0x181F_F000),
    (Word::Application, 0x2000_0000),
    (Word::Yield, 0x2800_0000),
    (Word::Start { row: 0 }, 0x3000_0000),
    (Word::Start { row: 511 }, 0x301F_F000),
    (Word::Resume, 0x3800_0000),
    (Word::Snapshot, 0x4000_0000),
    (Word::Fix, 0x4800_0000),
    (
        Word::Atom {
            base: 0,
            payload: 16_777_215,
        },
        0x50FF_FFFF,
    ),
    (
        Word::Atom {
            base: 7,
            payload: 0,
        },
        0x5700_0000,
    ),
    (Word::Operation { number: 0 }, 0x5800_0000),
    (Word::Operation { number: 255 }, 0x5800_00FF),
    (
        Word::Instance {
            label: 4095,
            row: 0,
        },
        0x6000_0FFF,
    ),
    (Word::Instance { label: 0, row: 511 }, 0x601F_F000),
    (Word::Resumption { label: 0 }, 0x6800_0000),
    (Word::Resumption { label: 4095 }, 0x6800_0FFF),
    (Word::Suspension, 0x7000_0000),
    (
        Word::Binding {
            ready: false,
            row: 0,
        },
        0x7800_0000,
    ),
    (
        Word::Binding {
            ready: true,
            row: 0,
        },
        0x7800_0001,
    ),
    (
        Word::Binding {
            ready: false,
            row: 511,
        },
        0x781F_F000,
    ),
    (Word::UnitType, 0x8000_0000),
    (Word::BottomType, 0x8800_0000),
    (Word::BaseType { base: 0 }, 0x9000_0000),
    (Word::BaseType { base: 7 }, 0x9000_0007),
    (
        Word::FunctionType {
            argument: 511,
            result: 0,
        },
        0x9800_01FF,
    ),
    (
        Word::FunctionType {
            argument: 0,
            result: 511,
        },
        0x9803_FE00,
    ),
    (
        Word::CoroutineType {
            argument: 511,
            yields: 0,
            result: 0,
        },
        0xA000_01FF,
    ),
    (
        Word::CoroutineType {
            argument: 0,
            yields: 511,
            result: 0,
        },
        0xA003_FE00,
    ),
    (
        Word::CoroutineType {
            argument: 0,
            yields: 0,
            result: 511,
        },
        0xA7FC_0000,
    ),
    (
        Word::InstanceType {
            yields: 511,
            result: 0,
        },
        0xA800_01FF,
    ),
    (
        Word::InstanceType {
            yields: 0,
            result: 511,
        },
        0xA803_FE00,
    ),
    (
        Word::ProgramHead {
            rows: 0,
            term_words: 0,
        },
        0xB000_0000,
    ),
    (
        Word::ProgramHead {
            rows: 1023,
            term_words: 0,
        },
        0xB000_03FF,
    ),
    (
        Word::ProgramHead {
            rows: 0,
            term_words: 8191,
        },
        0xB07F_FC00,
    ),
    (
        Word::ProgramHead {
            rows: 4,
            term_words: 2,
        },
        0xB000_0804,
    ),
    (
        Word::ImageHead {
            used: 0,
            bindings: 0,
        },
        0xB800_0000,
    ),
    (
        Word::ImageHead {
            used: 32_767,
            bindings: 0,
        },
        0xB800_7FFF,
    ),
    (
        Word::ImageHead {
            used: 0,
            bindings: 4095,
        },
        0xBFFF_8000,
    ),
    (
        Word::ImageHead {
            used: 4,
            bindings: 1,
        },
        0xB800_8004,
    ),
];

#[test]
fn words_are_built_and_read_back(rt: HostRuntime) {
    for (word, number) in WORDS {
        assert_eq!(rt; u32::try_from(word), Ok(number));
        assert_eq!(rt; Word::try_from(number), Ok(word));
        assert_eq!(rt; Kind::try_from((number >> 27) as u8), Ok(word.kind()));
    }
}

// One more than each field holds.
const TOO_LARGE: [Word; 17] = [
    Word::Variable { name: 4096 },
    Word::Abstraction { name: 0, row: 512 },
    Word::Coroutine { name: 4096, row: 0 },
    Word::Start { row: 512 },
    Word::Atom {
        base: 0,
        payload: 16_777_216,
    },
    Word::Atom {
        base: 8,
        payload: 0,
    },
    Word::Instance {
        label: 4096,
        row: 0,
    },
    Word::Instance { label: 0, row: 512 },
    Word::Resumption { label: 4096 },
    Word::Binding {
        ready: true,
        row: 512,
    },
    Word::BaseType { base: 8 },
    Word::FunctionType {
        argument: 512,
        result: 0,
    },
    Word::CoroutineType {
        argument: 0,
        yields: 512,
        result: 0,
    },
    Word::CoroutineType {
        argument: 0,
        yields: 0,
        result: 512,
    },
    Word::InstanceType {
        yields: 0,
        result: 512,
    },
    Word::ProgramHead {
        rows: 1024,
        term_words: 0,
    },
    Word::ImageHead {
        used: 0,
        bindings: 4096,
    },
];

#[test]
fn fields_that_do_not_fit_are_refused(rt: HostRuntime) {
    for word in TOO_LARGE {
        assert_eq!(rt; u32::try_from(word), Err(WideField { word }));
    }
}

// A bit without a use, for each group of kinds, and the kinds 24 and 31.
const NO_WORDS: [u32; 16] = [
    0x0000_0001,
    0x0400_0000,
    0x0800_1000,
    0x1020_0000,
    0x2000_0001,
    0x3000_0001,
    0x5800_0100,
    0x6020_0000,
    0x6800_1000,
    0x7800_0002,
    0x8000_0001,
    0x9000_0008,
    0x9804_0000,
    0xB080_0000,
    0xC000_0000,
    0xF800_0000,
];

#[test]
fn stray_bits_and_kinds_are_refused(rt: HostRuntime) {
    for number in NO_WORDS {
        assert_eq!(rt; Word::try_from(number), Err(NoWord { number }));
    }
}

// Each word that parts may follow, with their number.
const PARTS: [(Word, u8); 15] = [
    (Word::Unit, 0),
    (Word::Abstraction { name: 0, row: 4 }, 1),
    (Word::Coroutine { name: 0, row: 4 }, 1),
    (Word::Application, 2),
    (Word::Yield, 1),
    (Word::Start { row: 5 }, 2),
    (Word::Resume, 4),
    (Word::Snapshot, 1),
    (Word::Fix, 1),
    (
        Word::Atom {
            base: 0,
            payload: 5,
        },
        0,
    ),
    (Word::Operation { number: 0 }, 2),
    (Word::Resumption { label: 0 }, 4),
    (Word::Suspension, 2),
    (
        Word::Binding {
            ready: false,
            row: 5,
        },
        0,
    ),
    (
        Word::Binding {
            ready: true,
            row: 5,
        },
        1,
    ),
];

#[test]
fn words_have_their_parts(rt: HostRuntime) {
    for (word, parts) in PARTS {
        assert_eq!(rt; word.parts(), parts);
    }
}
