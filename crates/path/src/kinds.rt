// What the kind of a word says of the path.
ghost use Rattle.std.specs.Prelude.{◌≡◌};
ghost use Rattle.path.specs.Walking.{evaluated_of};

use words::kinds::Kind;

// How many parts of a word are evaluated, from the first on.
pub fn evaluated(word: u32) -> usize
    ensures { result ≡ evaluated_of word }
{
    match Kind::of_word(word) {
        Some(Kind::Yield | Kind::Snapshot | Kind::Fix | Kind::Resumption) => 1,
        Some(Kind::Application | Kind::Start | Kind::Operation) => 2,
        Some(Kind::Resume) => 4,
        _ => 0,
    }
}
