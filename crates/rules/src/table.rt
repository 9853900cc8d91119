// The rows of a type table, by their words.
ghost use Rattle.std.specs.Prelude.{◌≡◌};
ghost use Rattle.rules.specs.Table.{shape_of_kind, shape_of, shape_at, argument_of};

use crate::model::{Shape, UNIT_ROW};
use words::fields::{first, second, third, type_base};
use words::kinds::Kind;

// What stands at a row.
pub fn shape_at(rows: &[u32], row: u16) -> Shape
    ensures { result ≡ shape_at rows.now row }
{
    rows.get(row as usize)
        .map_or(Shape::NoRow, |word| shape(*word))
}

// The argument row of a binder's row; Unit's where the row is not that of a binder.
pub fn argument(shape: Shape) -> u16
    ensures { result ≡ argument_of shape }
{
    match shape {
        Shape::FunctionRow { argument, .. } => argument,
        Shape::CoroutineRow { argument, .. } => argument,
        _ => UNIT_ROW,
    }
}

// What a word of the table stands for.
fn shape(word: u32) -> Shape
    ensures { result ≡ shape_of word }
{
    Kind::of_word(word).map_or(Shape::NoRow, |kind| shape_of_kind(kind, word))
}

// The same, of a word of a known kind.
fn shape_of_kind(kind: Kind, word: u32) -> Shape
    ensures { result ≡ shape_of_kind kind word }
{
    match kind {
        Kind::UnitType => Shape::UnitRow,
        Kind::BottomType => Shape::BottomRow,
        Kind::BaseType => Shape::BaseRow(type_base(word)),
        Kind::FunctionType => Shape::FunctionRow {
            argument: first(word),
            result: second(word),
        },
        Kind::CoroutineType => Shape::CoroutineRow {
            argument: first(word),
            yields: second(word),
            result: third(word),
        },
        Kind::InstanceType => Shape::InstanceRow {
            yields: first(word),
            result: second(word),
        },
        _ => Shape::NoRow,
    }
}
