// The line of an operation, over any quantity set.
ghost use Rattle.std.specs.Prelude.{◌≡◌, ℕ, ◌^◌, ◌<◌, IfSome};
ghost use Rattle.calculus.specs.Terms.{Term, operation as Operation};
ghost use Rattle.calculus.specs.Configurations.{Bindings, Configuration};
ghost use Rattle.calculus.specs.Views.{view};
ghost use Rattle.calculus.specs.Redexes.{operated, operates};
ghost use Rattle.lines.specs.Lines.{Lined};
ghost use Rattle.lines.specs.Operations.{Operated};

use crate::making::atom_word;
use crate::redex::Redex;
use image::locate::past;
use quantities::QuantitySet;
use words::fields::{base, operation, payload};
use words::kinds::Kind;
use writing::writer::{Writer, get};

// The base and the payload that operation o gives for payload p of base j and payload q of base k, if it takes them.
// Kept: six numbers; a struct of payload and base would be made at the one call and taken apart in the next lines.
fn operate<Q: QuantitySet>(set: &Q, o: u8, p: u32, j: u8, q: u32, k: u8) -> Option<(u8, u32)>
    ensures value { (μ : Bindings) → Operated result μ (operated Q.meaning o p j q k (Q.meaning.signature o) μ) }
    ensures bounds { IfSome result (λ w. (w.0 < 8) × (w.1 < 2 ^ 24)) }
{
    let s = set.signature(o)?;
    if j != s.first {
        return None;
    }
    if k != s.second {
        return None;
    }
    if !set.holds(j, p) {
        return None;
    }
    if !set.holds(k, q) {
        return None;
    }
    Some((s.result, set.apply(o, p, q)))
}

impl Redex<'_> {
    ghost use Rattle.lines.specs.Standing.{Stands};

    // The operation on two atoms becomes the atom that the set gives.
    pub fn write_operation<Q: QuantitySet>(&self, set: &Q, spare: &mut [u32]) -> Option<usize>
        ensures { (c : Configuration) (K : Term → Term) (o : ℕ) (a b : Term)
            → Stands self.now c (Operation o a b) K
            → Lined result spare.old spare.new K (operates Q.meaning o (view a) (view b) c.bindings) }
    {
        let image = self.image;
        let place = self.place;
        let left = get(image, place + 1);
        if !Kind::Atom.is_of(left) {
            return None;
        }
        let middle = past(image, place + 1);
        let right = get(image, middle);
        if !Kind::Atom.is_of(right) {
            return None;
        }
        let number = operation(get(image, place));
        let (atom_base, atom_payload) = operate(
            set,
            number,
            payload(left),
            base(left),
            payload(right),
            base(right),
        )?;
        let stop = past(image, middle);
        let mut out = Writer::from_place(spare, 1);
        out.copy(image, 1..place);
        out.word(atom_word(atom_base, atom_payload));
        out.copy(image, stop..self.used);
        Some(out.place())
    }
}
