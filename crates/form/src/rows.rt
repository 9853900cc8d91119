// The rows of a program: each keeps its rule, and no two are alike.
ghost use Rattle.std.specs.Prelude.{◌≡◌, ℕ, []};
ghost use Rattle.form.specs.Parted.{fine};
ghost use Rattle.programs.specs.Rows.{row_rule, rows_fault};

use faults::Fault;
use faults::numbers::FaultNumber;
use layout::Word;

// Whether a number keeps the rule of row `r` over a set with so many bases.
fn keeps_rule(bases: u8, r: usize, word: u32) -> bool
    ensures { result ≡ row_rule bases r word }
{
    match Word::try_from(word) {
        Ok(Word::UnitType) => r == 0,
        Ok(Word::BottomType) => r == 1,
        Ok(Word::BaseType { base }) => base < bases && r == base as usize + 2,
        Ok(Word::FunctionType { argument, result }) => {
            bases as usize + 2 <= r && (argument as usize) < r && (result as usize) < r
        }
        Ok(
            Word::CoroutineType {
                argument,
                yields,
                result,
            },
        ) => {
            bases as usize + 2 <= r
                && (argument as usize) < r
                && (yields as usize) < r
                && (result as usize) < r
        }
        Ok(Word::InstanceType { yields, result }) => {
            bases as usize + 2 <= r && (yields as usize) < r && (result as usize) < r
        }
        _ => false,
    }
}

// The first row that breaks its rule (fault 5) or equals an earlier one (fault 6), if there is one.
#[tactic(auto, using(crate::proofs::RowLoops::row_good, crate::proofs::RowLoops::row_twice))]
pub fn check_rows(rows: &[u32], bases: u8) -> Result<(), Fault>
    ensures { result ≡ fine (rows_fault bases 0 [] rows.now) }
{
    for (r, word) in rows.iter().enumerate() {
        if !keeps_rule(bases, r, *word) {
            return Err(Fault::new(FaultNumber::Row, r + 1));
        }
        if rows[0..r].contains(word) {
            return Err(Fault::new(FaultNumber::RowTwice, r + 1));
        }
    }
    Ok(())
}
