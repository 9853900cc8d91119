// Which line of a step applies.
ghost use Rattle.std.specs.Prelude.{◌≡◌, ◌^◌, ◌<◌, length};
ghost use Rattle.calculus.specs.Configurations.{Configuration};
ghost use Rattle.calculus.specs.Places.{place};
ghost use Rattle.calculus.specs.Next.{next};
ghost use Rattle.image.specs.Images.{Image, used as Used};
ghost use Rattle.lines.specs.Lines.{Turned};

use lines::redex::Redex;
use path::kinds::evaluated;
use path::pause::pause_at;
use quantities::QuantitySet;
use words::kinds::Kind;
use writing::writer::get;

// Writes the words of the successor from word 1 on, where the step is at the place of the redex. Answers where the words end, and how many
// bindings there are then; nothing where no line applies.
pub fn write_line<Q: QuantitySet>(
    set: &Q,
    redex: &Redex,
    spare: &mut [u32],
) -> Option<(usize, usize)>
    requires { redex.now.bindings < 2 ^ 12 }
    ensures { (c : Configuration) → Image redex.now.image.now c → redex.now.place ≡ place c.term → redex.now.used ≡ Used c
        → redex.now.bindings ≡ length c.bindings
        → Turned result spare.old spare.new (next Q.meaning c.term c.bindings) }
{
    let bindings = redex.bindings;
    let word = get(redex.image, redex.place);
    if let Some(inner) = pause_at(redex.image, redex.place + 1, evaluated(word)) {
        if Kind::Resumption.is_of(word) {
            return redex.write_capture(spare).map(|end| (end, bindings));
        }
        return Some((redex.write_pause(spare, inner), bindings));
    }
    let kind = Kind::of_word(word)?;
    // Kept: the number of bindings in each arm, since two of the lines add one.
    match kind {
        Kind::Application => redex.write_apply(spare).map(|end| (end, bindings)),
        Kind::Yield => Some((redex.write_yield(spare), bindings)),
        Kind::Start => redex.write_start(spare).map(|end| (end, bindings + 1)),
        Kind::Resume => redex.write_resume(spare).map(|end| (end, bindings)),
        Kind::Snapshot => redex.write_copy(spare).map(|end| (end, bindings + 1)),
        Kind::Fix => redex.write_fix(spare).map(|end| (end, bindings)),
        Kind::Operation => redex.write_operation(set, spare).map(|end| (end, bindings)),
        Kind::Resumption => redex.write_end(spare).map(|end| (end, bindings)),
        _ => None,
    }
}
