// A name replaced by a term, on words.
ghost use Rattle.std.specs.Prelude.{◌≡◌, ◌+◌, ◌^◌, ◌<◌, ◌&&◌, ◌||◌, ◌==◌};
ghost use Rattle.writing.specs.Replacing.{is_variable, binds as Binds, shade as Shade};

use encoding::first::{arity, is_binder};
use words::fields::name;
use words::kinds::Kind;

// Whether a word is the variable x, and x is not bound anew.
pub(crate) fn is_free(x: u16, shaded: usize, word: u32) -> bool
    ensures { result ≡ (shaded == 0 && is_variable x word) }
{
    shaded == 0 && Kind::Variable.is_of(word) && name(word) == x
}

// Whether a word binds the name x.
fn binds(word: u32, x: u16) -> bool
    ensures { result ≡ Binds x word }
{
    is_binder(word) && name(word) == x
}

// How many terms are still to come in which x is bound anew, after a word, where there were n before it.
pub(crate) fn shade(x: u16, n: usize, word: u32) -> usize
    requires { n + 4 < 2 ^ 64 }
    ensures { result ≡ Shade x n word }
{
    if n > 0 {
        n - 1 + arity(word) as usize
    } else if binds(word, x) {
        1
    } else {
        0
    }
}
