// Values, by their first words.
ghost use Rattle.std.specs.Prelude.{◌≡◌};
ghost use Rattle.image.specs.Reading.{kind_at, value_kind};

use words::kinds::Kind;

// Whether a word is the first of a value: of a unit, an abstraction, a coroutine, an atom or an instance.
pub fn is_value_word(word: u32) -> bool
    ensures { result ≡ value_kind (kind_at word) }
{
    matches!(
        Kind::of_word(word),
        Some(Kind::Unit | Kind::Abstraction | Kind::Coroutine | Kind::Atom | Kind::Instance)
    )
}
