// Words put into a slice.
ghost use Rattle.std.specs.Prelude.{◌≡◌, ◌-◌, ◌≤◌, ◌++◌, length, take, replicate};
ghost use Rattle.writing.specs.Writing.{Wrote};

// Kept: apart from the writer, its one caller: the copy and its bound are proved here, and what holds behind the end there.
// Copies words from a place on. Nothing is answered where they do not fit.
pub fn put(out: &mut [u32], at: usize, new: &[u32]) -> Option<usize>
    requires { at ≤ length out.old }
    ensures { Wrote result out.old at new.now out.new }
{
    if new.len() > out.len() - at {
        return None;
    }
    out[at..at + new.len()].copy_from_slice(new);
    Some(at + new.len())
}

// A term's words, and then zeros.
pub fn write_term(tail: &mut [u32], term: &[u32])
    requires { length term.now ≤ length tail.old }
    ensures { tail.new ≡ term.now ++ replicate (length tail.old - length term.now) 0 }
{
    tail[0..term.len()].copy_from_slice(term);
    tail[term.len()..].fill(0);
}

// The first n of the new words, and then zeros.
pub fn take_over(tail: &mut [u32], new: &[u32], n: usize)
    requires known { n ≤ length new.now }
    requires within { n ≤ length tail.old }
    ensures { tail.new ≡ take n new.now ++ replicate (length tail.old - n) 0 }
{
    write_term(tail, &new[0..n]);
}
