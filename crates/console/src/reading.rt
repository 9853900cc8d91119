// From the pieces of a line to its command.
use crate::command::{Command, Lengths, SetName};
use crate::digits::{decimal, hex_word};
use crate::pieces::split_at_spaces;
use std::alloc::{AllocError, Global};

// The command of a line, if it can be read.
pub fn read_command(heap: Global, line: &[u8]) -> Result<Option<Command>, AllocError> {
    let pieces = split_at_spaces(heap, line)?;
    let [name, parts @ ..] = pieces.as_slice() else {
        return Ok(None);
    };
    match *name {
        b"program" => Ok(read_words(heap, parts)?.map(Command::Program)),
        b"load" => Ok(read_words(heap, parts)?.map(Command::Load)),
        _ => Ok(read_short(*name, parts)),
    }
}

// A command of a fixed number of words.
fn read_short(name: &[u8], parts: &[&[u8]]) -> Option<Command> {
    match name {
        b"set" => read_set(parts),
        b"admit" => read_admit(parts),
        b"open" => read_open(parts),
        b"run" => read_run(parts),
        b"take" => read_take(parts),
        b"show" if parts.is_empty() => Some(Command::Show),
        b"image" if parts.is_empty() => Some(Command::Image),
        _ => None,
    }
}

fn read_set(parts: &[&[u8]]) -> Option<Command> {
    let [name] = parts else {
        return None;
    };
    match *name {
        b"counts" => Some(Command::Set(SetName::Counts)),
        b"interlocks" => Some(Command::Set(SetName::Interlocks)),
        _ => None,
    }
}

fn read_admit(parts: &[&[u8]]) -> Option<Command> {
    let [scopes, judgements] = parts else {
        return None;
    };
    Some(Command::Admit {
        scopes: decimal(*scopes)?,
        judgements: decimal(*judgements)?,
    })
}

fn read_open(parts: &[&[u8]]) -> Option<Command> {
    let [scopes, judgements, image, spare] = parts else {
        return None;
    };
    Some(Command::Open(Lengths {
        scopes: decimal(*scopes)?,
        judgements: decimal(*judgements)?,
        image: decimal(*image)?,
        spare: decimal(*spare)?,
    }))
}

fn read_run(parts: &[&[u8]]) -> Option<Command> {
    let [steps, spare] = parts else {
        return None;
    };
    Some(Command::Run {
        steps: decimal(*steps)?,
        spare: decimal(*spare)?,
    })
}

fn read_take(parts: &[&[u8]]) -> Option<Command> {
    let [spare] = parts else {
        return None;
    };
    Some(Command::Take {
        spare: decimal(*spare)?,
    })
}

// Words, if all can be read.
fn read_words(heap: Global, parts: &[&[u8]]) -> Result<Option<Vec<u32>>, AllocError> {
    parts
        .iter()
        .map(|part| hex_word(*part))
        .collect::<Option<Vec<u32>>>(heap)
}
