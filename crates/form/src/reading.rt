// Reading a program: head, rows, term, in this order.
ghost use Rattle.std.specs.Prelude.{◌≡◌};
ghost use Rattle.form.specs.Parted.{words_of};
ghost use Rattle.programs.specs.Reading.{read_program};

use crate::head::split;
use crate::program::Program;
use crate::rows::check_rows;
use crate::term::check_term;
use faults::Fault;

// The rows and the term of a program over a set with so many bases, or the first fault: 4 for the head, 5 and 6 for the rows upward, 7 to
// 9 for the term's words upward.
pub fn read_program<'a>(words: &'a [u32], bases: u8) -> Result<Program<'a>, Fault>
    ensures { words_of result ≡ read_program bases words.now }
{
    let program = split(words, bases)?;
    check_rows(program.rows, bases)?;
    check_term(program.rows, program.term)?;
    Ok(program)
}
