// The parts of a term that are still to be evaluated.
ghost use Rattle.std.specs.Prelude.{◌≡◌, ◌<◌, ◌≤◌, length, drop, IfSome};
ghost use Rattle.path.specs.Walking.{unfinished};

use encoding::first::arity;
use image::values::is_value_word;

// The place of the first of so many terms from a place on that is no value.
// In place in its two callers: a call for each term that is entered made the walk to a deep step take 1.7 times as long.
#[inline(always)]
pub(crate) fn first_unfinished(words: &[u32], at: usize, terms: usize) -> Option<usize>
    ensures value { result ≡ unfinished at terms 0 (drop at words.now) }
    ensures bounds { IfSome result (λ q. (at ≤ q) × (q < length words.now)) }
{
    let mut left = terms;
    let mut skip = 0;
    // Kept: an index, which is the place that is returned; tried with `words[at..].iter().enumerate()`: 15 machine instructions a word and not 13.
    for place in at..words.len() {
        let word = words[place];
        if skip > 0 {
            skip = skip - 1 + arity(word) as usize;
        } else if left == 0 {
            return None;
        } else if is_value_word(word) {
            left -= 1;
            skip = arity(word) as usize;
        } else {
            return Some(place);
        }
    }
    None
}
