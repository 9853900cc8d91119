// Counts: base 0 holds the counts 0 to 65,535, and base 1 holds the truth values 0 and 1.
ghost use Rattle.std.specs.Prelude.{◌≡◌};
ghost use Rattle.quantities.specs.Counts.{counts};
ghost use Rattle.quantities.specs.CountsLaw.{counts_lawful};

use super::{QuantitySet, Signature};

#[derive(Clone, Copy)]
pub struct Counts;

// Kept: operations and bases by the numbers that words hold; an enum would be made of the number and taken apart in the same line.
impl QuantitySet for Counts {
    const K: u8 = 2;

    ghost meaning = { counts };

    ghost lawful = { counts_lawful };

    fn bases(&self) -> u8 {
        Self::K
    }

    fn holds(&self, base: u8, payload: u32) -> bool {
        match base {
            0 => payload < 65_536,
            1 => payload < 2,
            _ => false,
        }
    }

    fn signature(&self, operation: u8) -> Option<Signature> {
        match operation {
            0 | 1 => Some(Signature {
                first: 0,
                second: 0,
                result: 0,
            }),
            2 => Some(Signature {
                first: 0,
                second: 0,
                result: 1,
            }),
            3 => Some(Signature {
                first: 1,
                second: 1,
                result: 1,
            }),
            _ => None,
        }
    }

    fn apply(&self, operation: u8, first: u32, second: u32) -> u32 {
        if operation == 3 {
            return u32::from(first == 1 && second == 1);
        }
        if first >= 65_536 || second >= 65_536 {
            return 0;
        }
        match operation {
            0 => (first + second) % 65_536,
            1 => first.saturating_sub(second),
            2 => u32::from(first >= second),
            _ => 0,
        }
    }
}

// The number of bases that the set states is 2.
// Kept: a function for each set; one for every set needs a ghost member beside K, which each implementation would have to give.
pub fn counts_bases() -> u8
    ensures { result ≡ 2 }
{
    <Counts as QuantitySet>::K
}
