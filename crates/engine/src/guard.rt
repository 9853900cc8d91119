// Spare words that are all zero again once the guard ends, on every way out.
ghost use Rattle.std.specs.Prelude.{◌≡◌, length, replicate};

pub(crate) struct Zeroing<'a> {
    pub(crate) words: &'a mut [u32],
}

impl Drop for Zeroing<'_> {
    fn drop(self)
        ensures { self.exit.0.now ≡ replicate (length self.entry.words.now) 0 }
    {
        self.words.fill(0);
        let Zeroing { words: _ } = self;
    }
}
