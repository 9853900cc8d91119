// Whether words are an image.
ghost use Rattle.std.specs.Prelude.{◌≡◌, ◌≤◌, IfSome, Decides, option_map};
ghost use Rattle.calculus.specs.Configurations.{Configuration};
ghost use Rattle.image.specs.Images.{Image};
ghost use Rattle.image.specs.Behind.{Behind, place};
ghost use Rattle.image.specs.Reading.{value_after, label_below, values_follow, may_stand, is_binding, reach as Reach, all_zero, headed as Headed, is_image};

use crate::values::is_value_word;
use encoding::first::{arity, is_term_word};
use words::fields::{bindings, label, used};
use words::kinds::Kind;

// Whether words are the image of a configuration.
pub fn read_image(words: &[u32]) -> bool
    ensures value { result ≡ is_image words.now }
    ensures decides { Decides result ((c : Configuration) × Image words.now c) }
{
    (2..=16384).contains(&words.len()) && headed(words)
}

// Whether the first word is the head of an image, a term and as many bindings as it says follow, they end where it says, and the rest
// is zero.
fn headed(words: &[u32]) -> bool
    ensures { result ≡ Headed words.now }
{
    let Some((&head, body)) = words.split_first() else {
        return false;
    };
    if !Kind::ImageHead.is_of(head) {
        return false;
    }
    let Some(rest) = reach(body, bindings(head)) else {
        return false;
    };
    words.len() - rest.len() == used(head) as usize && is_zero(rest)
}

// What is behind the term and the so many bindings that words begin with, if they stand there.
fn reach(words: &[u32], count: u16) -> Option<&[u32]>
    ensures value { Reach count 1 count 1 words.now ≡ option_map (λ rest. place words.now rest.now) result }
    ensures behind { IfSome result (λ rest. Behind words.now rest.now) }
{
    let mut pending = 1;
    let mut left = count as usize;
    let mut rest = words;
    while pending + left > 0 {
        let (&word, behind) = rest.split_first()?;
        if pending > 0 {
            if !stands(count, word, behind) {
                return None;
            }
            pending = pending - 1 + arity(word) as usize;
        } else {
            if !is_binding(word) {
                return None;
            }
            left -= 1;
            pending = (word % 2) as usize;
        }
        rest = behind;
    }
    Some(rest)
}

// Whether a word may stand in a term among so many bindings, before the words that are behind it.
fn stands(count: u16, word: u32, behind: &[u32]) -> bool
    ensures { result ≡ may_stand count word behind.now }
{
    is_term_word(word) && is_label_below(count, word) && values_follow(word, behind)
}

// Whether the label of an instance or a resumption is below the number of bindings.
fn is_label_below(count: u16, word: u32) -> bool
    ensures { result ≡ label_below count word }
{
    match Kind::of_word(word) {
        Some(Kind::Instance | Kind::Resumption) => label(word) < count,
        _ => true,
    }
}

// Whether the parts of a word that have to be values are, by the words behind it.
fn values_follow(word: u32, behind: &[u32]) -> bool
    ensures { result ≡ values_follow word behind.now }
{
    match Kind::of_word(word) {
        Some(Kind::Resumption) => (1..=3).all(|terms| is_value_after(terms, behind)),
        Some(Kind::Suspension) => is_value_after(1, behind),
        _ => true,
    }
}

// Whether the word of a value stands after so many terms.
fn is_value_after(terms: u8, words: &[u32]) -> bool
    ensures { result ≡ value_after terms words.now }
{
    let mut pending = terms as usize;
    for &word in words {
        if pending == 0 {
            return is_value_word(word);
        }
        pending = pending - 1 + arity(word) as usize;
    }
    false
}

// Whether a word is that of a binding.
// Kept: by its bits, as the definition says it; a word that was read would be taken apart again.
fn is_binding(word: u32) -> bool
    ensures { result ≡ is_binding word }
{
    Kind::Binding.is_of(word) && word % 0x1000 < 2 && word / 0x1000 % 0x8000 < 0x200
}

// Whether all words are zero.
fn is_zero(words: &[u32]) -> bool
    ensures { result ≡ all_zero words.now }
{
    words.iter().all(|word| *word == 0)
}
