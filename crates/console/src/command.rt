// What a line may ask for.

// A quantity set by name.
#[derive(Clone, Copy)]
pub enum SetName {
    Counts,
    Interlocks,
}

// The lengths that `open` asks for.
#[derive(Clone, Copy)]
pub struct Lengths {
    pub scopes: u16,
    pub judgements: u16,
    pub image: u16,
    pub spare: u16,
}

#[derive(Drop)]
pub enum Command {
    // A new engine over a set.
    Set(SetName),
    // Stores a program.
    Program(Vec<u32>),
    // Admits the stored program, with work lists of so many entries.
    Admit { scopes: u16, judgements: u16 },
    // Opens the stored program on a new image.
    Open(Lengths),
    // Makes at most so many steps.
    Run { steps: u16, spare: u16 },
    // Shows the offered value, or the value of the end.
    Show,
    // Takes the offer.
    Take { spare: u16 },
    // Gives all words of the image.
    Image,
    // Replaces the image by these words.
    Load(Vec<u32>),
}
