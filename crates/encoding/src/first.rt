// The first word of a term: whether a number is one, how many parts follow it, and whether it binds a name.
ghost use Rattle.std.specs.Prelude.{◌≡◌, ◌/◌, ◌^◌, ◌||◌, ◌==◌};
ghost use Rattle.encoding.specs.Scanning.{arity_of, is_term_word};

use layout::Word;
use words::kinds::Kind;

// How many parts follow a word of a term; 0 for other words.
pub fn arity(word: u32) -> u8
    ensures { result ≡ arity_of word }
{
    Kind::of_word(word).map_or(0, Kind::parts)
}

// Whether a word binds a name in its part: that of an abstraction or a coroutine.
pub fn is_binder(word: u32) -> bool
    ensures { result ≡ (word / 2 ^ 27 == 2 || word / 2 ^ 27 == 3) }
{
    Kind::Abstraction.is_of(word) || Kind::Coroutine.is_of(word)
}

// Whether a number stands for a word of a term: of a kind from 0 to 14, with no bit set that has no use in it.
pub fn is_term_word(word: u32) -> bool
    ensures { result ≡ is_term_word word }
{
    Word::try_from(word).is_ok_and(|found| found.kind().is_of_term())
}
