// Where a term ends.
ghost use Rattle.std.specs.Prelude.{◌≡◌, ◌+◌, ◌<◌, ◌≤◌, length, drop, IfSome, Some, MatchOption};
ghost use Rattle.calculus.specs.Terms.{Term};
ghost use Rattle.calculus.specs.Parts.{size};
ghost use Rattle.encoding.specs.Encoding.{Stands};
ghost use Rattle.encoding.specs.Scanning.{scan};

use crate::first::{arity, is_term_word};

// Kept: words and a place, here and in the crates above, since terms are spoken of at their place among all words.
// The place after the term that stands at a place; nothing where none stands there.
pub fn end_of(words: &[u32], at: usize) -> Option<usize>
    ensures value { result ≡ scan 1 at (drop at words.now) }
    ensures terms { MatchOption result ((t : Term) → Stands t words.now at → ⊥) (λ e. (t : Term) × Stands t words.now at × (e ≡ at + size t)) }
    ensures known { (t : Term) → Stands t words.now at → result ≡ Some (at + size t) }
    ensures bounds { IfSome result (λ e. (at < e) × (e ≤ length words.now)) }
{
    let rest = words.get(at..)?;
    // How many terms are still to come.
    // Kept: counted here and in walks of image and path; each stops at words of its own, so one walk would take that test as a parameter.
    let mut pending = 1;
    for (passed, word) in rest.iter().enumerate() {
        if !is_term_word(*word) {
            return None;
        }
        pending = pending - 1 + arity(*word) as usize;
        if pending == 0 {
            return Some(at + passed + 1);
        }
    }
    None
}
