// A stack over a lent slice, for any kind of entry. When it is dropped, all slots of the slice are blank.
#![tactic(auto)]

ghost use Rattle.std.specs.Prelude.{◌≡◌, ℕ, ◌+◌, ◌-◌, ◌<◌, ◌≤◌, true, false, List, [], ◌∷◌, length, take, replicate, if◌then◌else◌, MatchOption, nat_lt, is_ok, Some, codes};
ghost use Rattle.stack.specs.Entries.{entries, renewed, SameSlots};

use std::error::Error;
use std::fmt;

// An entry of a stack; the blank one is what the slots hold between calls.
// Kept: a trait beside `Default`, which promises a predicate and names no value that a clause could say of the slots.
pub trait Entry: Copy {
    ghost blank: { Self };

    fn blank() -> Self
        ensures { result ≡ blank };
}

// A byte is an entry; the blank one is 0.
impl Entry for u8 {
    ghost blank = { 0 };

    fn blank() -> u8 {
        u8::MIN
    }
}

// Makes every slot blank.
pub fn clear<T: Entry>(slots: &mut [T])
    ensures { slots.new ≡ replicate (length slots.old) T.blank }
{
    // Kept: a `for`; tried as `fill`, which asks for a clone that cannot fail, and of a type parameter `Copy` does not say that.
    for slot in slots.iter_mut() {
        *slot = T::blank();
    }
}

// There is no room for one more entry.
#[derive(Clone, Copy, PartialEq, Eq, Debug)]
pub struct Full;

impl fmt::Display for Full {
    ghost output = { λ s. Some (codes "the stack is full") };

    fn fmt<W: fmt::Write>(&self, f: &mut fmt::Formatter<W>) -> fmt::Result {
        f.write_str("the stack is full")
    }
}

impl Error for Full {}

// A stack: the first `len` slots hold its entries, the newest last.
// Kept: a number beside lent slots, since there is no heap, and no view of the entries, since a clause has to name the slots that it blanks.
pub struct Stack<'a, T: Entry> {
    slots: &'a mut [T],
    len: usize,
    ghost ok: { len ≤ length slots.now },
}

impl<'a, T: Entry> Stack<'a, T> {
    // An empty stack over lent slots.
    pub fn over(slots: &'a mut [T]) -> Self
        ensures empty { result.len ≡ 0 }
        ensures lent { result.slots ≡ slots.entry }
    {
        Stack { slots, len: 0 }
    }

    // One entry more; where there is no room the stack is as it was.
    pub fn push(&mut self, x: T) -> Result<(), Full>
        ensures fits { is_ok result ≡ nat_lt (length (entries self.old.slots.now self.old.len)) (length self.old.slots.now) }
        ensures all { entries self.new.slots.now self.new.len ≡ (if is_ok result then x ∷ entries self.old.slots.now self.old.len else entries self.old.slots.now self.old.len) }
        ensures over { SameSlots self.old.slots self.new.slots }
    {
        if self.len >= self.slots.len() {
            return Err(Full);
        }
        self.slots[self.len] = x;
        self.len += 1;
        Ok(())
    }

    // Takes the newest entry off, if there is one.
    pub fn pop(&mut self) -> Option<T>
        ensures all { MatchOption result ((entries self.old.slots.now self.old.len ≡ []) × (entries self.new.slots.now self.new.len ≡ [])) (λ x. entries self.old.slots.now self.old.len ≡ x ∷ entries self.new.slots.now self.new.len) }
        ensures down { MatchOption result (self.new.len ≡ 0) (λ x. self.new.len + 1 ≡ self.old.len) }
        ensures over { SameSlots self.old.slots self.new.slots }
    {
        self.len = self.len.checked_sub(1)?;
        Some(self.slots[self.len])
    }

    // Changes the newest entry in its slot; nothing where there is none.
    pub fn set_top(&mut self, x: T)
        ensures all { entries self.new.slots.now self.new.len ≡ renewed x (entries self.old.slots.now self.old.len) }
        ensures len { self.new.len ≡ self.old.len }
        ensures over { SameSlots self.old.slots self.new.slots }
    {
        if self.len > 0 {
            self.slots[self.len - 1] = x;
        }
    }
}

impl<'a, T: Entry> Stack<'a, T> {
    // The newest entry, if there is one.
    pub fn top(&self) -> Option<T>
        ensures { MatchOption result (entries self.now.slots.now self.now.len ≡ []) (λ x. entries self.now.slots.now self.now.len ≡ x ∷ entries self.now.slots.now (self.now.len - 1)) }
    {
        let newest = self.len.checked_sub(1)?;
        Some(self.slots[newest])
    }

    // How many entries there are.
    pub fn len(&self) -> usize
        ensures { result ≡ length (entries self.now.slots.now self.now.len) }
    {
        self.held().len()
    }

    // The entries, the oldest first.
    pub fn held(&self) -> &[T]
        ensures { result.now ≡ take self.now.len self.now.slots.now }
    {
        &self.slots[0..self.len]
    }
}

impl<T: Entry> Drop for Stack<'_, T> {
    fn drop(self)
        ensures { self.exit.0.now ≡ replicate (length self.entry.slots.now) T.blank }
    {
        let Stack { slots, len: _ } = self;
        clear(slots);
    }
}
