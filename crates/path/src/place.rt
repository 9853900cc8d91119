// The place of the next step.
ghost use Rattle.std.specs.Prelude.{◌≡◌, ◌+◌, ◌≤◌, length, drop};
ghost use Rattle.calculus.specs.Terms.{Term};
ghost use Rattle.calculus.specs.Occurrences.{word_at};
ghost use Rattle.calculus.specs.Places.{path};
ghost use Rattle.encoding.specs.Encoding.{Stands};
ghost use Rattle.path.specs.Walking.{walk};

use crate::kinds::evaluated;
use crate::parts::first_unfinished;
use words::kinds::Kind;

// The place of the last term of the path that starts at a place.
pub fn step_place(words: &[u32], at: usize) -> usize
    requires within { at ≤ length words.now }
    ensures walks { result ≡ walk at at 1 0 (drop at words.now) }
    ensures value { (t : Term) → Stands t words.now at → result ≡ at + word_at t (path t) }
    ensures bounds { result ≤ length words.now }
{
    let mut last = at;
    let mut from = at;
    let mut parts = 1;
    while let Some(next) = first_unfinished(words, from, parts) {
        if Kind::Suspension.is_of(words[next]) {
            break;
        }
        last = next;
        from = next + 1;
        parts = evaluated(words[next]);
    }
    last
}
