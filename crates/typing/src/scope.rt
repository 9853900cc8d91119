// The variables in scope.
ghost use Rattle.std.specs.Prelude.{◌≡◌, reverse, length, if◌then◌else◌, is_ok};
ghost use Rattle.stack.specs.Entries.{entries, SameSlots};
ghost use Rattle.rules.specs.Rules.{look as row_of};
ghost use Rattle.typing.specs.Machine.{variables, has_room, entered, left};

use crate::model::Scoped;
use encoding::first::is_binder;
use rules::model::Variable;
use rules::table::{argument, shape_at};
use stack::{Full, Stack};
use words::fields::{name as name_of, row};

// The row of a name. The newest variable stands last, and the newest of the name counts.
pub fn look(held: &[Scoped], name: u16) -> Option<u16>
    ensures { result ≡ row_of (variables (reverse held.now)) name }
{
    held.iter()
        .rev()
        .find(|scoped| name == scoped.variable.name)
        .map(|scoped| scoped.variable.row)
}

// Into the part of a word: a binder's name comes into scope, if there is room for it.
pub fn enter(rows: &[u32], scope: &mut Stack<'_, Scoped>, word: u32) -> Result<(), Full>
    ensures fits { is_ok result ≡ has_room (length scope.old.slots.now) word (entries scope.old.slots.now scope.old.len) }
    ensures all { entries scope.new.slots.now scope.new.len ≡ (if is_ok result then entered rows.now word (entries scope.old.slots.now scope.old.len) else entries scope.old.slots.now scope.old.len) }
    ensures over { SameSlots scope.old.slots scope.new.slots }
{
    if !is_binder(word) {
        return Ok(());
    }
    let variable = Variable {
        name: name_of(word),
        row: argument(shape_at(rows, row(word))),
    };
    scope.push(Scoped { variable })
}

// Out of a word: a binder's name leaves the scope.
pub fn leave(scope: &mut Stack<'_, Scoped>, word: u32)
    ensures all { entries scope.new.slots.now scope.new.len ≡ left word (entries scope.old.slots.now scope.old.len) }
    ensures over { SameSlots scope.old.slots scope.new.slots }
{
    if is_binder(word) {
        let _ = scope.pop();
    }
}
