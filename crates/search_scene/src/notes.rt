//! The reasons as lines of a scene.
use memchr::memchr;
use search_picture::Line;
use std::alloc::{AllocError, Global};

/// What the lines of reasons begin with.
const PREFIX: &[u8] = b"pciex: ";

/// The first of the lines, and the other ones.
#[derive(Drop)]
pub(crate) struct Notes {
    pub(crate) first: Vec<u8>,
    pub(crate) others: Vec<Line>,
}

/// The line without the name of the program.
fn without_prefix(line: &[u8]) -> &[u8] {
    if line.starts_with(PREFIX) {
        &line[PREFIX.len()..]
    } else {
        line
    }
}

/// A copy of the line.
fn copy_of(alloc: Global, line: &[u8]) -> Result<Vec<u8>, AllocError> {
    let mut copy = Vec::new(alloc);
    copy.extend_from_slice(without_prefix(line))?;
    Ok(copy)
}

/// The lines of reasons.
pub(crate) fn notes_of(alloc: Global, told: &[u8]) -> Result<Notes, AllocError> {
    let mut others = Vec::new(alloc);
    let mut rest = told;
    while let Some(end) = memchr(b'\n', rest) {
        let text = copy_of(alloc, &rest[..end])?;
        others.push(Line { text })?;
        rest = &rest[end + 1..];
    }
    if others.is_empty() {
        return Ok(Notes {
            first: Vec::new(alloc),
            others,
        });
    }
    let Line { text } = others.remove(0);
    Ok(Notes {
        first: text,
        others,
    })
}
