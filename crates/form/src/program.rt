// The parts of a program, as parts of the caller's words.
#[derive(Clone, Copy)]
pub struct Program<'a> {
    pub rows: &'a [u32],
    pub term: &'a [u32],
}
