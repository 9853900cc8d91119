// The fields of a word, each read from its bits, whatever the word's kind is.
ghost use Rattle.std.specs.Prelude.{◌≡◌, ℕ, ◌+◌, ◌/◌, ◌%◌, ◌^◌, ◌<◌, ◌≤◌, ◌==◌};

// So many bits of a word, from one of them on.
fn bits<const FROM: u32, const COUNT: u32>(word: u32) -> u32
    requires within { FROM + COUNT ≤ 32 }
    requires shift { FROM < 32 }
    requires part { COUNT < 32 }
    ensures { result ≡ word / 2 ^ FROM % 2 ^ COUNT }
{
    (word >> FROM) % (1 << COUNT)
}

// Bits 27 to 31.
pub fn kind_number(word: u32) -> u8
    ensures { result ≡ word / 2 ^ 27 }
{
    bits::<27, 5>(word) as u8
}

// The name of a variable or a binder: bits 0 to 11.
pub fn name(word: u32) -> u16
    ensures { result ≡ word % 2 ^ 12 }
{
    bits::<0, 12>(word) as u16
}

// The label of an instance or a resumption: bits 0 to 11.
pub fn label(word: u32) -> u16
    ensures { result ≡ word % 2 ^ 12 }
{
    name(word)
}

// The row of a binder, a start, an instance or a binding: bits 12 to 20.
pub fn row(word: u32) -> u16
    ensures { result ≡ word / 2 ^ 12 % 2 ^ 9 }
{
    bits::<12, 9>(word) as u16
}

// The payload of an atom: bits 0 to 23.
pub fn payload(word: u32) -> u32
    ensures { result ≡ word % 2 ^ 24 }
{
    bits::<0, 24>(word)
}

// The base of an atom: bits 24 to 26.
pub fn base(word: u32) -> u8
    ensures { result ≡ word / 2 ^ 24 % 2 ^ 3 }
{
    bits::<24, 3>(word) as u8
}

// The number of an operation: bits 0 to 7.
pub fn operation(word: u32) -> u8
    ensures { result ≡ word % 2 ^ 8 }
{
    bits::<0, 8>(word) as u8
}

// Whether a binding is ready: bit 0.
pub fn ready(word: u32) -> bool
    ensures { result ≡ (word % 2 == 1) }
{
    bits::<0, 1>(word) == 1
}

// The base of a base type: bits 0 to 2.
pub fn type_base(word: u32) -> u8
    ensures { result ≡ word % 2 ^ 3 }
{
    bits::<0, 3>(word) as u8
}

// The first row that a type refers to: bits 0 to 8.
pub fn first(word: u32) -> u16
    ensures { result ≡ word % 2 ^ 9 }
{
    bits::<0, 9>(word) as u16
}

// The second row that a type refers to: bits 9 to 17.
pub fn second(word: u32) -> u16
    ensures { result ≡ word / 2 ^ 9 % 2 ^ 9 }
{
    bits::<9, 9>(word) as u16
}

// The third row that a type refers to: bits 18 to 26.
pub fn third(word: u32) -> u16
    ensures { result ≡ word / 2 ^ 18 % 2 ^ 9 }
{
    bits::<18, 9>(word) as u16
}

// How many rows a program head states: bits 0 to 9.
pub fn rows(word: u32) -> u16
    ensures { result ≡ word % 2 ^ 10 }
{
    bits::<0, 10>(word) as u16
}

// How many term words a program head states: bits 10 to 22.
pub fn term_words(word: u32) -> u16
    ensures { result ≡ word / 2 ^ 10 % 2 ^ 13 }
{
    bits::<10, 13>(word) as u16
}

// How many used words an image head states: bits 0 to 14.
pub fn used(word: u32) -> u16
    ensures { result ≡ word % 2 ^ 15 }
{
    bits::<0, 15>(word) as u16
}

// How many bindings an image head states: bits 15 to 26.
pub fn bindings(word: u32) -> u16
    ensures { result ≡ word / 2 ^ 15 % 2 ^ 12 }
{
    bits::<15, 12>(word) as u16
}
