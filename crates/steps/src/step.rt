// One step on an image.
ghost use Rattle.std.specs.Prelude.{◌≡◌, ◌^◌, ◌≤◌, length};
ghost use Rattle.calculus.specs.Configurations.{Configuration};
ghost use Rattle.image.specs.Images.{Image};
ghost use Rattle.image.specs.Stepping.{step_in};
ghost use Rattle.steps.specs.Stepped.{StepWritten};

use crate::turn::write_line;
use faults::Fault;
use faults::numbers::FaultNumber;
use lines::making::head_word;
use lines::redex::Redex;
use path::place::step_place;
use quantities::QuantitySet;
use words::fields::{bindings, used};
use writing::splicing::take_over;

// The most bindings that an image has.
const MOST_BINDINGS: usize = 4095;

// Makes the one step of an image. A step that cannot be made is refused, and the image is as it was. The spare words are as the step left
// them.
// Kept: the bounds of image and spare, as at `run_steps`.
pub fn step<Q: QuantitySet>(set: &Q, image: &mut [u32], spare: &mut [u32]) -> Result<(), Fault>
    requires low { 2 ≤ length image.old }
    requires high { length image.old ≤ 2 ^ 14 }
    requires same { length image.old ≡ length spare.old }
    ensures { (c : Configuration) → Image image.old c
        → StepWritten result image.old image.new (step_in Q.meaning (length image.old) c) }
{
    let head = image[0];
    let p = step_place(image, 1);
    let redex = Redex {
        image,
        place: p,
        bindings: bindings(head) as usize,
        used: used(head) as usize,
    };
    let Some((e, m)) = write_line(set, &redex, spare) else {
        return Err(Fault::new(FaultNumber::NoRule, p));
    };
    if m > MOST_BINDINGS {
        return Err(Fault::new(FaultNumber::Labels, p));
    }
    if e > image.len() {
        return Err(Fault::new(FaultNumber::ImageFull, p));
    }
    image[0] = head_word(e, m);
    take_over(&mut image[1..], &spare[1..], e.saturating_sub(1));
    Ok(())
}
