// Words written one after another into a lent slice.
ghost use Rattle.std.specs.Prelude.{◌≡◌, ◌+◌, ◌^◌, ◌<◌, ◌≤◌, [], ◌∷◌, length, slice_index};
ghost use Rattle.std.specs.List.{between};
ghost use Rattle.writing.specs.Writing.{Built};
ghost use Rattle.writing.specs.Replacing.{replaced};

use crate::replacing::{is_free, shade};
use crate::splicing::put;
use std::ops::Range;

// The word at a place, 0 behind the end.
// Kept: a word in every case; an Option would be taken off by each caller, all of which ask at a place among the words.
pub fn get(words: &[u32], i: usize) -> u32
    ensures { result ≡ slice_index words.now i }
{
    words.get(i).copied().unwrap_or(0)
}

// The words from one place up to another, as far as there are any.
pub fn part(words: &[u32], range: Range<usize>) -> &[u32]
    ensures value { result.now ≡ between range.start range.end words.now }
    ensures brief { length result.now ≤ length words.now }
{
    let end = range.end.min(words.len());
    &words[range.start.min(end)..end]
}

// Kept: that the slice stays is an equation in each method; a name for it would be no shorter.
// Writes words one after another into a lent slice. Words that do not fit are not all written: the place is then the one behind the end of
// the slice, and nothing fits from there on.
// Kept: a place behind the end, and no Option, since a line of a step answers None where it does not apply.
#[derive(Drop)]
pub struct Writer<'a> {
    out: &'a mut [u32],
    at: usize,
    ghost within: { at ≤ length out.now + 1 },
}

impl<'a> Writer<'a> {
    // A writer from a place on.
    pub fn from_place(out: &'a mut [u32], at: usize) -> Self
        requires { at ≤ length out.old + 1 }
        ensures place { result.at ≡ at }
        ensures lent { result.out ≡ out.entry }
    {
        Writer { out, at }
    }

    // The place behind what is written.
    pub fn place(&self) -> usize
        ensures { result ≡ self.now.at }
    {
        let Writer { at, .. } = self;
        *at
    }

    // Writes words.
    pub fn push(&mut self, new: &[u32])
        ensures all { Built self.old.out.now self.old.at new.now self.new.out.now self.new.at }
        ensures same { self.new.out.ghost_name ≡ self.old.out.ghost_name }
    {
        if self.at > self.out.len() {
            return;
        }
        self.at = put(self.out, self.at, new).unwrap_or(self.out.len() + 1);
    }

    // Writes the words of a body with those of a value for the variable x.
    pub fn push_body(&mut self, body: &[u32], x: u16, value: &[u32])
        ensures all { Built self.old.out.now self.old.at (replaced x value.now 0 body.now) self.new.out.now self.new.at }
        ensures same { self.new.out.ghost_name ≡ self.old.out.ghost_name }
    {
        let mut shaded = 0;
        for word in body {
            if is_free(x, shaded, *word) {
                self.push(value);
            } else {
                self.word(*word);
                shaded = shade(x, shaded, *word);
            }
        }
    }

    // Writes one word.
    pub fn word(&mut self, word: u32)
        ensures all { Built self.old.out.now self.old.at (word ∷ []) self.new.out.now self.new.at }
        ensures same { self.new.out.ghost_name ≡ self.old.out.ghost_name }
    {
        if self.at < self.out.len() {
            self.out[self.at] = word;
            self.at += 1;
        } else {
            self.at = self.out.len() + 1;
        }
    }

    // Writes the words from one place up to another.
    pub fn copy(&mut self, words: &[u32], range: Range<usize>)
        ensures all { Built self.old.out.now self.old.at (between range.start range.end words.now) self.new.out.now self.new.at }
        ensures same { self.new.out.ghost_name ≡ self.old.out.ghost_name }
    {
        self.push(part(words, range));
    }

    // Writes the words from one place up to another, with those between two others for the variable x.
    pub fn copy_body(&mut self, words: &[u32], body: Range<usize>, x: u16, value: Range<usize>)
        ensures all { Built self.old.out.now self.old.at (replaced x (between value.start value.end words.now) 0 (between body.start body.end words.now)) self.new.out.now self.new.at }
        ensures same { self.new.out.ghost_name ≡ self.old.out.ghost_name }
    {
        self.push_body(part(words, body), x, part(words, value));
    }
}
