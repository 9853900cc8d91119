// The head of a program: the words after it are parted into rows and term.
ghost use Rattle.std.specs.Prelude.{◌≡◌, ok_or};
ghost use Rattle.faults.specs.declared.numbers.FaultNumber.TheVariants.{Head};
ghost use Rattle.faults.specs.Faults.{fault_of};
ghost use Rattle.form.specs.Parted.{words_of, counts};
ghost use Rattle.layout.specs.Layout.{read_word};
ghost use Rattle.programs.specs.Reading.{split as split_of, read_head, in_range};

use crate::program::Program;
use faults::Fault;
use faults::numbers::FaultNumber;
use layout::Word;

// How many rows and term words a head states.
fn counts_of(head: u32) -> Option<(u16, u16)>
    ensures { counts result ≡ read_head (read_word head) }
{
    match Word::try_from(head) {
        Ok(Word::ProgramHead { rows, term_words }) => Some((rows, term_words)),
        _ => None,
    }
}

// Whether the counts are in range for a set with so many bases, and fit the number of words after the head.
fn fits(bases: u8, rows: u16, term_words: u16, words: usize) -> bool
    ensures { result ≡ in_range bases (record { rows = rows; term_words = term_words }) words }
{
    let (rows, term_words) = (rows as usize, term_words as usize);
    bases as usize + 2 <= rows
        && rows <= 512
        && 1 <= term_words
        && term_words <= 4096
        && words == rows + term_words
}

// The words after the head, parted into rows and term, where there is a head whose counts fit.
fn parted<'a>(words: &'a [u32], bases: u8) -> Option<Program<'a>>
    ensures { words_of (ok_or result (fault_of Head 0)) ≡ split_of bases words.now }
{
    let (head, rest) = words.split_first()?;
    let (rows, term_words) = counts_of(*head)?;
    if !fits(bases, rows, term_words, rest.len()) {
        return None;
    }
    let (rows, term) = rest.split_at(rows as usize);
    Some(Program { rows, term })
}

// The rows and the term of a program; fault 4 where there is no head, or its counts do not fit.
pub fn split<'a>(words: &'a [u32], bases: u8) -> Result<Program<'a>, Fault>
    ensures { words_of result ≡ split_of bases words.now }
{
    parted(words, bases).ok_or(Fault::new(FaultNumber::Head, 0))
}
