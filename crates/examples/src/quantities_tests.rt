use quantities::counts::{Counts, counts_bases};
use quantities::interlocks::{Interlocks, interlocks_bases};
use quantities::{QuantitySet, Signature};

// First operand, second operand, and what operation 1 of the interlocks gives.
const TRANSITIONS: [(u32, u32, u32); 16] = [
    (0, 0, 0),
    (0, 1, 1),
    (0, 2, 2),
    (0, 3, 3),
    (1, 0, 0),
    (1, 1, 1),
    (1, 2, 2),
    (1, 3, 3),
    (2, 0, 1),
    (2, 1, 1),
    (2, 2, 2),
    (2, 3, 3),
    (3, 0, 3),
    (3, 1, 3),
    (3, 2, 2),
    (3, 3, 3),
];

#[test]
fn interlocks_answer_by_their_table(rt: HostRuntime) {
    assert_eq!(rt; Interlocks.bases(), interlocks_bases());
    for (first, second, result) in TRANSITIONS {
        assert_eq!(rt; Interlocks.apply(1, first, second), result);
        assert_eq!(rt; Interlocks.apply(0, first, second), first.max(second));
        assert!(rt; Interlocks.holds(0, result));
    }
    assert_eq!(rt; Interlocks.apply(1, 4, 0), 0);
    assert_eq!(rt; Interlocks.apply(1, 0, 4), 0);
    assert_eq!(rt; Interlocks.apply(2, 3, 3), 0);
    assert_eq!(rt; Interlocks.signature(2), None);
}

// Base, payload, and whether counts hold it there.
const HELD: [(u8, u32, bool); 8] = [
    (0, 0, true),
    (0, 65_535, true),
    (0, 65_536, false),
    (0, 16_777_216, false),
    (1, 0, true),
    (1, 1, true),
    (1, 2, false),
    (2, 0, false),
];

// Operation, operands, and what counts give.
const RESULTS: [(u8, u32, u32, u32); 16] = [
    (0, 0, 0, 0),
    (0, 65_535, 1, 0),
    (0, 65_535, 65_535, 65_534),
    (0, 65_536, 1, 0),
    (1, 65_535, 1, 65_534),
    (1, 1, 65_535, 0),
    (1, 0, 0, 0),
    (2, 0, 0, 1),
    (2, 0, 1, 0),
    (2, 65_535, 65_535, 1),
    (2, 65_536, 0, 0),
    (3, 0, 0, 0),
    (3, 1, 0, 0),
    (3, 1, 1, 1),
    (3, 2, 1, 0),
    (4, 1, 1, 0),
];

#[test]
fn counts_answer_at_their_edges(rt: HostRuntime) {
    assert_eq!(rt; Counts.bases(), counts_bases());
    for (base, payload, held) in HELD {
        assert_eq!(rt; Counts.holds(base, payload), held);
    }
    for (operation, first, second, result) in RESULTS {
        assert_eq!(rt; Counts.apply(operation, first, second), result);
    }
    assert_eq!(rt;
        Counts.signature(2),
        Some(Signature {
            first: 0,
            second: 0,
            result: 1,
        })
    );
    assert_eq!(rt;
        Counts.signature(3),
        Some(Signature {
            first: 1,
            second: 1,
            result: 1,
        })
    );
    assert_eq!(rt; Counts.signature(4), None);
}
