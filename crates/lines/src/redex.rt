// Where a step is made.
ghost use Rattle.std.specs.Prelude.{◌^◌, ◌<◌};

// A place in an image with so many bindings and used words: there the term stands that a step changes.
#[derive(Clone, Copy)]
pub struct Redex<'a> {
    pub image: &'a [u32],
    pub place: usize,
    pub bindings: usize,
    pub used: usize,
    ghost low: { place < 2 ^ 63 },
}
