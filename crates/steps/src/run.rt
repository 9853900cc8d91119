// Steps until a number of them is made, the term is a value or a suspension, or a step is refused.
ghost use Rattle.std.specs.Prelude.{◌≡◌, ◌^◌, ◌≤◌, ◌||◌, length, ◌==◌};
ghost use Rattle.calculus.specs.Configurations.{Configuration};
ghost use Rattle.image.specs.Images.{Image};
ghost use Rattle.image.specs.Reading.{kind_at, value_kind};
ghost use Rattle.image.specs.Stepping.{steps_in};
ghost use Rattle.steps.specs.Stepped.{RunWritten};

use crate::step::step;
use faults::Fault;
use image::values::is_value_word;
use quantities::QuantitySet;
use words::kinds::Kind;

// Whether a word is that of a value or of a suspension.
fn is_resting(w: u32) -> bool
    ensures { result ≡ (value_kind (kind_at w) || kind_at w == 14) }
{
    is_value_word(w) || Kind::Suspension.is_of(w)
}

// A run whose next step was refused: why, and how many steps were made before.
#[derive(Clone, Copy)]
pub struct Halted {
    pub fault: Fault,
    pub made: u16,
}

// Makes at most n steps on an image. Answers how many were made, or the refusal of the next one.
// Kept: the bounds, tried as ghost fields of a struct over both slices; a constructor that refuses cannot say that both come back.
pub fn run_steps<Q: QuantitySet>(
    set: &Q,
    image: &mut [u32],
    spare: &mut [u32],
    n: u16,
) -> Result<u16, Halted>
    requires low { 2 ≤ length image.old }
    requires high { length image.old ≤ 2 ^ 14 }
    requires same { length image.old ≡ length spare.old }
    ensures { (c : Configuration) → Image image.old c
        → RunWritten result image.old image.new (steps_in Q.meaning (length image.old) n c) }
{
    for made in 0..n {
        if is_resting(image[1]) {
            return Ok(made);
        }
        step(set, image, spare).map_err(|fault| Halted { fault, made })?;
    }
    Ok(n)
}
