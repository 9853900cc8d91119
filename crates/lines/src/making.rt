// Words made from their fields.
// Kept: no conversion from `Word`, which can refuse a field that is too wide; a line has no answer for that.
ghost use Rattle.std.specs.Prelude.{◌≡◌, ◌^◌, ◌<◌};
ghost use Rattle.layout.specs.declared.Word.TheVariants as W;
ghost use Rattle.layout.specs.Layout.{word_of};

use words::kinds::Kind;

// The word of unit.
pub const UNIT: u32 = (Kind::Unit as u32) << 27;

// The first word of an application.
pub const APPLICATION: u32 = (Kind::Application as u32) << 27;

// The first word of a suspension.
pub const SUSPENSION: u32 = (Kind::Suspension as u32) << 27;

// The kinds of words with fields, in their bits.
const ATOM: u32 = (Kind::Atom as u32) << 27;

const INSTANCE: u32 = (Kind::Instance as u32) << 27;

const RESUMPTION: u32 = (Kind::Resumption as u32) << 27;

const BINDING: u32 = (Kind::Binding as u32) << 27;

const IMAGE_HEAD: u32 = (Kind::ImageHead as u32) << 27;

// An instance with a label and a row.
pub fn instance_word(label: u16, row: u16) -> u32
    ensures { result ≡ word_of (W.Instance label row) }
{
    INSTANCE + label as u32 + row as u32 * 0x1000
}

// A resumption with a label.
pub fn resumption_word(label: u16) -> u32
    ensures { result ≡ word_of (W.Resumption label) }
{
    RESUMPTION + label as u32
}

// The first word of a binding.
pub fn binding_word(is_ready: bool, row: u16) -> u32
    ensures { result ≡ word_of (W.Binding is_ready row) }
{
    BINDING + is_ready as u32 + row as u32 * 0x1000
}

// An atom of a base with a payload.
pub fn atom_word(base: u8, payload: u32) -> u32
    requires few { base < 8 }
    requires small { payload < 2 ^ 24 }
    ensures { result ≡ word_of (W.Atom base payload) }
{
    ATOM + payload + base as u32 * 0x100_0000
}

// The head of an image with so many used words and bindings.
pub fn head_word(used: usize, bindings: usize) -> u32
    requires room { used < 2 ^ 15 }
    requires few { bindings < 2 ^ 12 }
    ensures { result ≡ word_of (W.ImageHead used bindings) }
{
    IMAGE_HEAD + used as u32 + bindings as u32 * 0x8000
}
