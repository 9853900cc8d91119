// From a word to its number.
ghost use Rattle.std.specs.Prelude.{◌≡◌, ℕ, ◌+◌, ◌*◌, ◌^◌, ◌≤◌, ◌&&◌, if◌then◌else◌, Some, None, nat_lt};
ghost use Rattle.words.specs.Kinds.{number_of};
ghost use Rattle.layout.specs.Layout.{built};

use crate::Word;
use words::kinds::Kind;

// The word as a number, by its kind.
pub fn assemble(word: Word) -> Option<u32>
    ensures { result ≡ built word }
{
    match word {
        Word::Variable { name } => named(Kind::Variable, name, 0),
        Word::Abstraction { name, row } => named(Kind::Abstraction, name, row),
        Word::Coroutine { name, row } => named(Kind::Coroutine, name, row),
        Word::Start { row } => named(Kind::Start, 0, row),
        Word::Instance { label, row } => named(Kind::Instance, label, row),
        Word::Resumption { label } => named(Kind::Resumption, label, 0),
        Word::Binding { ready, row } => named(Kind::Binding, u16::from(ready), row),
        Word::Atom { base, payload } => placed::<24, 3>(Kind::Atom, payload, u32::from(base)),
        Word::Operation { number } => placed::<8, 0>(Kind::Operation, u32::from(number), 0),
        Word::BaseType { base } => placed::<3, 0>(Kind::BaseType, u32::from(base), 0),
        Word::FunctionType { argument, result } => references(
            Kind::FunctionType,
            argument,
            result,
            0,
        ),
        Word::CoroutineType {
            argument,
            yields,
            result,
        } => references(Kind::CoroutineType, argument, yields, result),
        Word::InstanceType { yields, result } => references(Kind::InstanceType, yields, result, 0),
        Word::ProgramHead { rows, term_words } => {
            placed::<10, 13>(Kind::ProgramHead, u32::from(rows), u32::from(term_words))
        }
        Word::ImageHead { used, bindings } => {
            placed::<15, 12>(Kind::ImageHead, u32::from(used), u32::from(bindings))
        }
        Word::Unit => bare(Kind::Unit),
        Word::Application => bare(Kind::Application),
        Word::Yield => bare(Kind::Yield),
        Word::Resume => bare(Kind::Resume),
        Word::Snapshot => bare(Kind::Snapshot),
        Word::Fix => bare(Kind::Fix),
        Word::Suspension => bare(Kind::Suspension),
        Word::UnitType => bare(Kind::UnitType),
        Word::BottomType => bare(Kind::BottomType),
    }
}

// A word of a kind with two fields, one in the LOW lowest bits and one in the HIGH bits above them; nothing where one does not fit.
#[tactic(auto, using(crate::proofs::Placing::below_kind))]
fn placed<const LOW: u32, const HIGH: u32>(kind: Kind, low: u32, high: u32) -> Option<u32>
    requires within { LOW + HIGH ≤ 27 }
    ensures { result ≡ (if nat_lt low (2 ^ LOW) && nat_lt high (2 ^ HIGH) then Some (number_of kind * 2 ^ 27 + (low + high * 2 ^ LOW)) else None) }
{
    if low < 1 << LOW && high < 1 << HIGH {
        Some(u32::from(u8::from(kind)) * (1 << 27) + high * (1 << LOW) + low)
    } else {
        None
    }
}

// A word without fields.
fn bare(kind: Kind) -> Option<u32>
    ensures { result ≡ Some (number_of kind * 2 ^ 27) }
{
    placed::<0, 0>(kind, 0, 0)
}

// A word with a name or a label and a row.
fn named(kind: Kind, name: u16, row: u16) -> Option<u32>
    ensures { result ≡ (if nat_lt name (2 ^ 12) && nat_lt row (2 ^ 9) then Some (number_of kind * 2 ^ 27 + (name + row * 2 ^ 12)) else None) }
{
    placed::<12, 9>(kind, u32::from(name), u32::from(row))
}

// A type row with up to three references.
fn references(kind: Kind, first: u16, second: u16, third: u16) -> Option<u32>
    ensures { result ≡ (if nat_lt first (2 ^ 9) && (nat_lt second (2 ^ 9) && nat_lt third (2 ^ 9)) then Some (number_of kind * 2 ^ 27 + (first + (second * 2 ^ 9 + third * 2 ^ 18))) else None) }
{
    if first >= 1 << 9 || second >= 1 << 9 {
        return None;
    }
    placed::<18, 9>(
        kind,
        u32::from(first) + (u32::from(second) << 9),
        u32::from(third),
    )
}
