// The part of a term that is suspended.
ghost use Rattle.std.specs.Prelude.{◌≡◌, ◌<◌, length, drop, IfSome};
ghost use Rattle.path.specs.Walking.{pause_at};

use crate::parts::first_unfinished;
use words::kinds::Kind;

// The place of the first of so many terms from a place on that is no value, if it is a suspension.
pub fn pause_at(words: &[u32], at: usize, parts: usize) -> Option<usize>
    ensures value { result ≡ pause_at at parts 0 (drop at words.now) }
    ensures bounds { IfSome result (λ q. q < length words.now) }
{
    let place = first_unfinished(words, at, parts)?;
    Kind::Suspension.is_of(words[place]).then_some(place)
}
