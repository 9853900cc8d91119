// What is lent to the engine: filled with rubbish before a call, and all zero after it.
use rules::model::{Judged, Variable};
use std::alloc::{AllocError, Global};
use typing::model::{Frame, Scoped};

const RUBBISH: u32 = 0xDEAD_BEEF;

// Words full of rubbish.
pub fn rubbish_words(heap: Global, len: u16) -> Result<Vec<u32>, AllocError> {
    vec![in heap; RUBBISH; len as usize]
}

// Entries of variables in scope, full of rubbish.
pub fn rubbish_scopes(heap: Global, len: u16) -> Result<Vec<Scoped>, AllocError> {
    let variable = Variable {
        name: 0xDEAD,
        row: 0xBEEF,
    };
    vec![in heap; Scoped { variable }; len as usize]
}

// Entries of unfinished judgements, full of rubbish.
pub fn rubbish_judgements(heap: Global, len: u16) -> Result<Vec<Frame>, AllocError> {
    let judged = Judged {
        row: 0xDEAD,
        yields: 0xBEEF,
    };
    let frame = Frame {
        word: RUBBISH,
        place: 0xDEAD,
        done: 0xBE,
        first: judged,
        second: judged,
        third: judged,
        fourth: judged,
    };
    vec![in heap; frame; len as usize]
}

// Whether all words are zero.
// Kept: a line here and in the image reader; a public function for it would need a contract and an edit for one call of the library.
pub fn are_zero(words: &[u32]) -> bool {
    words.iter().all(|word| *word == 0)
}

// Whether all entries of both work lists are blank, all numbers zero.
pub fn is_work_zero(scopes: &[Scoped], judgements: &[Frame]) -> bool {
    scopes.iter().all(|scoped| *scoped == Scoped::default())
        && judgements.iter().all(|frame| *frame == Frame::default())
}
