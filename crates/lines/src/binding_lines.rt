// The lines of a step that read or change a binding: each writes the words of the successor from word 1 on.
ghost use Rattle.std.specs.Prelude.{◌≡◌, ℕ, ◌+◌, ◌^◌, ◌<◌, ◌≤◌, length};
ghost use Rattle.calculus.specs.Lists.{at as entry, put};
ghost use Rattle.calculus.specs.Terms.{Term, application, start, resume, snapshot, resumption, suspension};
ghost use Rattle.calculus.specs.Configurations.{Binding, ready, Configuration, ◌∣◌};
ghost use Rattle.calculus.specs.Views.{view};
ghost use Rattle.calculus.specs.Redexes.{started, resumes, copies, on_empty};
ghost use Rattle.image.specs.Images.{binding_words};
ghost use Rattle.image.specs.Places.{Bound};
ghost use Rattle.lines.specs.Lines.{Lined};

use crate::making::{APPLICATION, UNIT, binding_word, instance_word, resumption_word};
use crate::redex::Redex;
use image::locate::{binding_at, past};
use words::fields::{label, name, ready as is_ready, row};
use words::kinds::Kind;
use writing::writer::{Writer, get};

impl Redex<'_> {
    ghost use Rattle.lines.specs.Standing.{Stands};

    // The start becomes an instance with the next label; its binding is ready with the coroutine's body, the argument for its name.
    pub fn write_start(&self, spare: &mut [u32]) -> Option<usize>
        requires { self.now.bindings < 2 ^ 12 }
        ensures { (c : Configuration) (K : Term → Term) (i : ℕ) (f v : Term) → Stands self.now c (start i f v) K → self.now.bindings ≡ length c.bindings
            → Lined result spare.old spare.new K (started i (view f) v c.bindings) }
    {
        let image = self.image;
        let place = self.place;
        let coroutine = get(image, place + 1);
        if !Kind::Coroutine.is_of(coroutine) {
            return None;
        }
        let row_number = row(get(image, place));
        let argument = past(image, place + 2);
        let stop = past(image, argument);
        let mut out = Writer::from_place(spare, 1);
        out.copy(image, 1..place);
        out.word(instance_word(self.bindings as u16, row_number));
        out.copy(image, stop..self.used);
        out.word(binding_word(true, row_number));
        out.copy_body(image, place + 2..argument, name(coroutine), argument..stop);
        Some(out.place())
    }

    // The resume becomes a resumption with the body of the ready binding, which becomes empty; or, where the binding is empty, the
    // application of the fourth part to unit.
    pub fn write_resume(&self, spare: &mut [u32]) -> Option<usize>
        ensures { (c : Configuration) (K : Term → Term) (f b d e : Term) → Stands self.now c (resume f b d e) K
            → Lined result spare.old spare.new K (resumes (view f) b d e c.bindings) }
    {
        let image = self.image;
        let place = self.place;
        let instance = get(image, place + 1);
        if !Kind::Instance.is_of(instance) {
            return None;
        }
        let binding = binding_at(image, label(instance) as usize);
        let head = get(image, binding);
        let third = past(image, place + 2);
        let fourth = past(image, third);
        let stop = past(image, fourth);
        let mut out = Writer::from_place(spare, 1);
        out.copy(image, 1..place);
        if !is_ready(head) {
            out.word(APPLICATION);
            out.copy(image, fourth..stop);
            out.word(UNIT);
            out.copy(image, stop..self.used);
            return Some(out.place());
        }
        let end = past(image, binding + 1);
        out.word(resumption_word(label(instance)));
        out.copy(image, binding + 1..end);
        out.copy(image, place + 2..stop);
        out.copy(image, stop..binding);
        out.word(binding_word(false, row(head)));
        out.copy(image, end..self.used);
        Some(out.place())
    }

    // The resumption with a suspension becomes the application of its third part to the pending value, and the empty binding becomes ready
    // with the suspended term.
    pub fn write_capture(&self, spare: &mut [u32]) -> Option<usize>
        ensures { (c : Configuration) (K : Term → Term) (l : ℕ) (t v b d e : Term)
            → Stands self.now c (resumption l (suspension t v) b d e) K
            → Lined result spare.old spare.new K
            (on_empty (entry c.bindings l) (λ i. application d v ∣ put c.bindings l (ready i t))) }
    {
        let image = self.image;
        let place = self.place;
        let binding = binding_at(image, label(get(image, place)) as usize);
        let head = get(image, binding);
        if is_ready(head) {
            return None;
        }
        let pending = past(image, place + 2);
        let second = past(image, pending);
        let third = past(image, second);
        let fourth = past(image, third);
        let stop = past(image, fourth);
        let mut out = Writer::from_place(spare, 1);
        out.copy(image, 1..place);
        out.word(APPLICATION);
        out.copy(image, third..fourth);
        out.copy(image, pending..second);
        out.copy(image, stop..binding);
        out.word(binding_word(true, row(head)));
        out.copy(image, place + 2..pending);
        out.copy(image, binding + 1..self.used);
        Some(out.place())
    }

    // The resumption with a value becomes the application of its second part to the value.
    pub fn write_end(&self, spare: &mut [u32]) -> Option<usize>
        ensures { (c : Configuration) (K : Term → Term) (l : ℕ) (v b d e : Term)
            → Stands self.now c (resumption l v b d e) K
            → Lined result spare.old spare.new K (on_empty (entry c.bindings l) (λ i. application b v ∣ c.bindings)) }
    {
        let image = self.image;
        let place = self.place;
        let binding = binding_at(image, label(get(image, place)) as usize);
        if is_ready(get(image, binding)) {
            return None;
        }
        let second = past(image, place + 1);
        let third = past(image, second);
        let fourth = past(image, third);
        let stop = past(image, fourth);
        let mut out = Writer::from_place(spare, 1);
        out.copy(image, 1..place);
        out.word(APPLICATION);
        out.copy(image, second..third);
        out.copy(image, place + 1..second);
        out.copy(image, stop..self.used);
        Some(out.place())
    }

    // The snapshot becomes an instance with the next label and the row of the binding that is copied to the end.
    pub fn write_copy(&self, spare: &mut [u32]) -> Option<usize>
        requires { self.now.bindings < 2 ^ 12 }
        ensures { (c : Configuration) (K : Term → Term) (f : Term) → Stands self.now c (snapshot f) K → self.now.bindings ≡ length c.bindings
            → Lined result spare.old spare.new K (copies (view f) c.bindings) }
    {
        let image = self.image;
        let place = self.place;
        let instance = get(image, place + 1);
        if !Kind::Instance.is_of(instance) {
            return None;
        }
        let binding = binding_at(image, label(instance) as usize);
        let head = get(image, binding);
        let end = binding_end(image, binding);
        let mut out = Writer::from_place(spare, 1);
        out.copy(image, 1..place);
        out.word(instance_word(self.bindings as u16, row(head)));
        out.copy(image, place + 2..self.used);
        out.copy(image, binding..end);
        Some(out.place())
    }
}

// The place behind the binding at a place.
fn binding_end(image: &[u32], binding: usize) -> usize
    requires { binding ≤ length image.now }
    ensures { (c : Configuration) (l : ℕ) (β : Binding) → Bound image.now c l β binding → result ≡ binding + length (binding_words β) }
{
    if !is_ready(get(image, binding)) {
        binding + 1
    } else {
        past(image, binding + 1)
    }
}
