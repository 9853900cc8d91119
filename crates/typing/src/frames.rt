// The unfinished judgements.
ghost use Rattle.std.specs.Prelude.{◌≡◌, is_some};
ghost use Rattle.stack.specs.Entries.{entries, SameSlots};
ghost use Rattle.typing.specs.Machine.{fresh as fresh_frame, added, is_full, several, delivered};

use crate::model::Frame;
use encoding::first::arity;
use rules::model::Judged;
use stack::{Entry, Stack};

impl Frame {
    // A word whose parts are all to come.
    pub fn fresh(word: u32, place: usize) -> Frame
        ensures { result ≡ fresh_frame word place }
    {
        Frame {
            word,
            place,
            ..Frame::blank()
        }
    }

    // One part more is judged.
    pub fn add(self, judged: Judged) -> Frame
        ensures { result ≡ added self judged }
    {
        match self.done {
            0 => Frame {
                done: 1,
                first: judged,
                ..self
            },
            1 => Frame {
                done: 2,
                second: judged,
                ..self
            },
            2 => Frame {
                done: 3,
                third: judged,
                ..self
            },
            3 => Frame {
                done: 4,
                fourth: judged,
                ..self
            },
            _ => self,
        }
    }

    // Whether all parts are judged.
    pub fn full(self) -> bool
        ensures { result ≡ is_full self }
    {
        self.done == arity(self.word)
    }
}

// Takes the newest frame off and adds its judgement to the one that is then newest, in place; none where there is none.
// Kept: an Option of nothing, so that `?` hands on what `pop` and `top` answer.
pub fn deliver(frames: &mut Stack<'_, Frame>, judged: Judged) -> Option<()>
    ensures more { is_some result ≡ several (entries frames.old.slots.now frames.old.len) }
    ensures all { entries frames.new.slots.now frames.new.len ≡ delivered judged (entries frames.old.slots.now frames.old.len) }
    ensures over { SameSlots frames.old.slots frames.new.slots }
{
    frames.pop()?;
    let below = frames.top()?;
    frames.set_top(below.add(judged));
    Some(())
}
