// Interlocks: one base with the conditions 0 run, 1 hold, 2 stop and 3 fault.
ghost use Rattle.std.specs.Prelude.{◌≡◌};
ghost use Rattle.quantities.specs.Interlocks.{interlocks};
ghost use Rattle.quantities.specs.InterlocksLaw.{interlocks_lawful};

use super::{QuantitySet, Signature};

// What operation 1 gives: the row of the first operand, the place of the second.
const TRANSITIONS: [[u32; 4]; 4] = [[0, 1, 2, 3], [0, 1, 2, 3], [1, 1, 2, 3], [3, 3, 2, 3]];

#[derive(Clone, Copy)]
pub struct Interlocks;

// Kept: operations by the numbers that words hold, as in counts.
impl QuantitySet for Interlocks {
    const K: u8 = 1;

    ghost meaning = { interlocks };

    ghost lawful = { interlocks_lawful };

    fn bases(&self) -> u8 {
        Self::K
    }

    fn holds(&self, base: u8, payload: u32) -> bool {
        base == 0 && payload < 4
    }

    fn signature(&self, operation: u8) -> Option<Signature> {
        match operation {
            0 | 1 => Some(Signature {
                first: 0,
                second: 0,
                result: 0,
            }),
            _ => None,
        }
    }

    fn apply(&self, operation: u8, first: u32, second: u32) -> u32 {
        if first >= 4 || second >= 4 {
            return 0;
        }
        match operation {
            0 => first.max(second),
            1 => TRANSITIONS[first as usize][second as usize],
            _ => 0,
        }
    }
}

// The number of bases that the set states is 1.
// Kept: a function for each set; one for every set needs a ghost member beside K, which each implementation would have to give.
pub fn interlocks_bases() -> u8
    ensures { result ≡ 1 }
{
    <Interlocks as QuantitySet>::K
}
