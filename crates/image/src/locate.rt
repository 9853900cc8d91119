// Where terms end and bindings stand among words that are known to have them.
ghost use Rattle.std.specs.Prelude.{◌≡◌, ℕ, ◌+◌, ◌≤◌, List, length, drop, Some};
ghost use Rattle.calculus.specs.Lists.{at as entry};
ghost use Rattle.calculus.specs.Terms.{Term};
ghost use Rattle.calculus.specs.Configurations.{Binding, Configuration};
ghost use Rattle.image.specs.Images.{Image};
ghost use Rattle.image.specs.Places.{At, Passed, Bound};
ghost use Rattle.image.specs.Seeking.{seek};

use encoding::ends::end_of;
use encoding::first::arity;

// The place behind the term at a place; that place where no term stands there.
// Kept: a place in every case; an Option would be taken off by each caller, all of which ask at a term.
pub fn past(words: &[u32], at: usize) -> usize
    ensures value { (t : Term) (rest : List ℕ) → At t rest at words.now → Passed t rest at result words.now }
    ensures bounds { (at ≤ result) × (result ≤ at + length words.now) }
{
    end_of(words, at).unwrap_or(at)
}

// Kept: likewise a place in every case, the end where there is no such binding.
// The place of a label's binding: behind the term at word 1 and as many bindings.
pub fn binding_at(image: &[u32], label: usize) -> usize
    ensures seeks { 1 ≤ length image.now → result ≡ seek 1 label 1 (drop 1 image.now) }
    ensures value { (c : Configuration) (β : Binding) → Image image.now c → entry c.bindings label ≡ Some β → Bound image.now c label β result }
    ensures bounds { result ≤ length image.now }
{
    let Some((_, body)) = image.split_first() else {
        return 0;
    };
    let mut pending = 1;
    let mut left = label;
    for (passed, &word) in body.iter().enumerate() {
        if pending > 0 {
            pending = pending - 1 + arity(word) as usize;
        } else if left > 0 {
            left -= 1;
            // Kept: the bit itself, here and in the image reader, since it is the number of terms that follow.
            pending = (word % 2) as usize;
        } else {
            return passed + 1;
        }
    }
    image.len()
}
