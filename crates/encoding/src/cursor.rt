// A place among words, and steps from it to the right: over a word, or over a term.
ghost use Rattle.std.specs.Prelude.{◌≡◌, ◌<◌, ◌≤◌, length, MatchOption};
ghost use Rattle.encoding.specs.Cursors.{OverWord, OverTerm, OverKnown, OverPart};

use crate::ends::end_of;

// Kept: a place beside the words and no slice of the words to come, since the contracts speak of places among all words.
#[derive(Clone, Copy)]
pub struct Cursor<'a> {
    words: &'a [u32],
    at: usize,
}

impl<'a> Cursor<'a> {
    // At the first of the words.
    pub fn over(words: &'a [u32]) -> Self
        ensures { (result.words.now ≡ words.now) × (result.at ≡ 0) }
    {
        Cursor { words, at: 0 }
    }

    // At a place among the words or right behind them; nothing where the place is further on.
    pub fn from(words: &'a [u32], at: usize) -> Option<Self>
        ensures { MatchOption result (length words.now < at) (λ c. (at ≤ length words.now) × (c.words.now ≡ words.now) × (c.at ≡ at)) }
    {
        (at <= words.len()).then_some(Cursor { words, at })
    }

    // Where the cursor is.
    pub fn place(&self) -> usize
        ensures { result ≡ self.now.at }
    {
        self.at
    }

    // The word at the cursor, which moves behind it; nothing where the words end.
    pub fn next_word(&mut self) -> Option<u32>
        ensures step { OverWord self.old.words.now self.old.at self.new.at result }
        ensures words { self.new.words ≡ self.old.words }
    {
        let Cursor { words, at } = *self;
        let word = *words.get(at)?;
        *self = Cursor { words, at: at + 1 };
        Some(word)
    }

    // The words of the term at the cursor, which moves behind it; nothing where no term stands there.
    pub fn next_term(&mut self) -> Option<&'a [u32]>
        ensures terms { OverTerm self.old.words.now self.old.at self.new.at result }
        ensures known { OverKnown self.old.words.now self.old.at self.new.at result }
        ensures part { OverPart self.old.words.now self.old.at self.new.at result }
        ensures words { self.new.words ≡ self.old.words }
    {
        let Cursor { words, at } = *self;
        let end = end_of(words, at)?;
        *self = Cursor { words, at: end };
        Some(&words[at..end])
    }
}
