// The offer of an image is taken.
ghost use Rattle.std.specs.Prelude.{◌≡◌, ◌^◌, ◌≤◌, length};
ghost use Rattle.calculus.specs.Terms.{Term, suspension};
ghost use Rattle.calculus.specs.Configurations.{Configuration, ◌∣◌};
ghost use Rattle.image.specs.Images.{Image, image_of, words_of};
ghost use Rattle.writing.specs.Writing.{Built};

use image::locate::past;
use lines::making::head_word;
use words::fields::{bindings, used};
use writing::splicing::take_over;
use writing::writer::Writer;

// Writes the words of a suspended term and of the bindings from word 1 on. Answers the place behind them.
fn write_taken(image: &[u32], spare: &mut [u32]) -> usize
    requires { 1 ≤ length image.now }
    ensures { (c : Configuration) (t v : Term) → Image image.now c → c.term ≡ suspension t v
        → Built spare.old 1 (words_of (t ∣ c.bindings)) spare.new result }
{
    let pending = past(image, 2);
    let stop = past(image, pending);
    let mut out = Writer::from_place(spare, 1);
    out.copy(image, 2..pending);
    out.copy(image, stop..used(image[0]) as usize);
    out.place()
}

// Kept: the bounds of image and spare, as at `run_steps`.
// The suspended term of an image becomes its term. The spare words are as the take left them.
pub fn take_term(image: &mut [u32], spare: &mut [u32])
    requires low { 2 ≤ length image.old }
    requires high { length image.old ≤ 2 ^ 14 }
    requires same { length image.old ≡ length spare.old }
    ensures { (c : Configuration) (t v : Term) → Image image.old c → c.term ≡ suspension t v
        → image.new ≡ image_of (length image.old) (t ∣ c.bindings) }
{
    let end = write_taken(image, spare);
    if end > image.len() {
        return;
    }
    image[0] = head_word(end, bindings(image[0]) as usize);
    take_over(&mut image[1..], &spare[1..], end.saturating_sub(1));
}
