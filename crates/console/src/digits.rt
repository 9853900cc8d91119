// Numbers as they are written.
ghost use Rattle.std.specs.Prelude.{◌≡◌};
ghost use Rattle.console.specs.Digits.{digit as digit_of, number_in, hex_word, decimal as decimal_of};

// The value of a digit of any base up to 16.
fn digit_value(byte: u8) -> Option<u8>
    ensures { result ≡ digit_of byte }
{
    match byte {
        b'0'..=b'9' => Some(byte - b'0'),
        b'A'..=b'F' => Some(byte - b'A' + 10),
        b'a'..=b'f' => Some(byte - b'a' + 10),
        _ => None,
    }
}

// The number that digits of a base stand for, if all are such digits and it is not over the limit.
fn number_in(text: &[u8], base: u8, limit: u32) -> Option<u32>
    ensures { result ≡ number_in base limit text.now }
{
    let mut value = 0u64;
    for byte in text {
        let digit = digit_value(*byte)?;
        if digit >= base {
            return None;
        }
        value = value * base as u64 + digit as u64;
        if value > limit as u64 {
            return None;
        }
    }
    Some(value as u32)
}

// A word: exactly eight hexadecimal digits.
pub fn hex_word(text: &[u8]) -> Option<u32>
    ensures { result ≡ hex_word text.now }
{
    if text.len() != 8 {
        return None;
    }
    number_in(text, 16, 0xFFFF_FFFF)
}

// A number: decimal digits, at most 65,535.
pub fn decimal(text: &[u8]) -> Option<u16>
    ensures { result ≡ decimal_of text.now }
{
    if text.is_empty() {
        return None;
    }
    number_in(text, 10, 65_535).map(|number| number as u16)
}
