// The lines of a step that leave the bindings as they are: each writes the words of the successor from word 1 on.
ghost use Rattle.std.specs.Prelude.{◌≡◌, ◌+◌, ◌^◌, ◌<◌, length};
ghost use Rattle.calculus.specs.Terms.{Term, unit, application, yield, fix, suspension};
ghost use Rattle.calculus.specs.Configurations.{Configuration, ◌∣◌};
ghost use Rattle.calculus.specs.Frames.{Frame, plug};
ghost use Rattle.calculus.specs.Views.{view};
ghost use Rattle.calculus.specs.Redexes.{applied, fixed};
ghost use Rattle.image.specs.Images.{words_of};
ghost use Rattle.writing.specs.Writing.{Built};
ghost use Rattle.lines.specs.Frames.{before_hole};
ghost use Rattle.lines.specs.Lines.{Lined};

use crate::making::{SUSPENSION, UNIT};
use crate::redex::Redex;
use encoding::first::is_binder;
use image::locate::past;
use words::fields::name;
use words::kinds::Kind;
use writing::writer::{Writer, get};

// Kept: each line, here and in the other files, writes out what is before and behind the term, so that it reads as the list of its words.
impl Redex<'_> {
    ghost use Rattle.lines.specs.Standing.{Stands};

    // The yield becomes a suspension of unit, its value pending.
    pub fn write_yield(&self, spare: &mut [u32]) -> usize
        ensures { (c : Configuration) (K : Term → Term) (v : Term) → Stands self.now c (yield v) K
            → Built spare.old 1 (words_of (K (suspension unit v) ∣ c.bindings)) spare.new result }
    {
        let image = self.image;
        let place = self.place;
        let stop = past(image, place + 1);
        let mut out = Writer::from_place(spare, 1);
        out.copy(image, 1..place);
        out.word(SUSPENSION);
        out.word(UNIT);
        out.copy(image, place + 1..stop);
        out.copy(image, stop..self.used);
        out.place()
    }

    // The suspension at a place, a part of the term, moves out of it.
    pub fn write_pause(&self, spare: &mut [u32], inner: usize) -> usize
        requires { inner < 2 ^ 63 }
        ensures { (c : Configuration) (K : Term → Term) (F : Frame) (t v : Term)
            → Stands self.now c (plug F (suspension t v)) K
            → inner ≡ self.now.place + length (before_hole F)
            → Built spare.old 1 (words_of (K (suspension (plug F t) v) ∣ c.bindings)) spare.new result }
    {
        let image = self.image;
        let place = self.place;
        let stop = past(image, place);
        let pending = past(image, inner + 1);
        let behind = past(image, pending);
        let mut out = Writer::from_place(spare, 1);
        out.copy(image, 1..place);
        out.word(SUSPENSION);
        out.copy(image, place..inner);
        out.copy(image, inner + 1..pending);
        out.copy(image, behind..stop);
        out.copy(image, pending..behind);
        out.copy(image, stop..self.used);
        out.place()
    }

    // The application becomes the body of the abstraction or coroutine that is applied, the argument for its name.
    pub fn write_apply(&self, spare: &mut [u32]) -> Option<usize>
        ensures { (c : Configuration) (K : Term → Term) (f v : Term) → Stands self.now c (application f v) K
            → Lined result spare.old spare.new K (applied (view f) v c.bindings) }
    {
        let image = self.image;
        let place = self.place;
        let function = get(image, place + 1);
        if !is_binder(function) {
            return None;
        }
        let argument = past(image, place + 2);
        let stop = past(image, argument);
        let mut out = Writer::from_place(spare, 1);
        out.copy(image, 1..place);
        out.copy_body(image, place + 2..argument, name(function), argument..stop);
        out.copy(image, stop..self.used);
        Some(out.place())
    }

    // The fix of an abstraction becomes its body, the fix for its name.
    pub fn write_fix(&self, spare: &mut [u32]) -> Option<usize>
        ensures { (c : Configuration) (K : Term → Term) (f : Term) → Stands self.now c (fix f) K
            → Lined result spare.old spare.new K (fixed (view f) c.bindings) }
    {
        let image = self.image;
        let place = self.place;
        let abstraction = get(image, place + 1);
        if !Kind::Abstraction.is_of(abstraction) {
            return None;
        }
        let stop = past(image, place + 2);
        let mut out = Writer::from_place(spare, 1);
        out.copy(image, 1..place);
        out.copy_body(image, place + 2..stop, name(abstraction), place..stop);
        out.copy(image, stop..self.used);
        Some(out.place())
    }
}
