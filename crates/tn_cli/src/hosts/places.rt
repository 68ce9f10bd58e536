//! Places and lines of the file's text.

use std::str;

/// A part of the text, and the number of its first line.
#[derive(Clone, Copy)]
pub(crate) struct Part<'t> {
    pub(crate) text: &'t str,
    pub(crate) line: usize,
}

/// Returns the place of a name in the text, as a word of its own.
pub(crate) fn place_in(text: &[u8], name: &[u8]) -> Option<usize> {
    for place in 0..text.len() {
        let Some(rest) = text.get(place..) else {
            return None;
        };
        if rest.starts_with(name) && !is_joined(text.get(..place), rest.get(name.len()..)) {
            return Some(place);
        }
    }
    None
}

// Returns whether the text before a word, or the text after it, makes it part of another word.
fn is_joined(before: Option<&[u8]>, after: Option<&[u8]>) -> bool {
    let last = match before {
        Some(before) => before.last(),
        None => None,
    };
    let first = match after {
        Some(after) => after.first(),
        None => None,
    };
    is_of_word(last) || is_of_word(first)
}

fn is_of_word(byte: Option<&u8>) -> bool {
    match byte {
        Some(byte) => byte.is_ascii_alphanumeric() || *byte == b'-' || *byte == b'_',
        None => false,
    }
}

/// Returns the number of the line that this place is in.
pub(crate) fn line_at(text: &[u8], place: usize) -> usize {
    let mut line = 1usize;
    for byte in text.get(..place).unwrap_or(text) {
        if *byte == b'\n' {
            line = line.saturating_add(1);
        }
    }
    line
}

/// Returns the part of the text from the header of this host's table to the next header, if it has
/// such a header.
pub(crate) fn part_of<'t>(text: &'t str, host: &str) -> Option<Part<'t>> {
    let mut begun = None;
    let mut place = 0usize;
    for line in text.split('\n') {
        match header_in(line) {
            Some(name) if name == host => begun = Some(place),
            Some(_) if begun.is_some() => return cut(text, begun?, place),
            _ => {},
        }
        place = place.saturating_add(line.len()).saturating_add(1);
    }
    cut(text, begun?, text.len())
}

fn cut<'t>(text: &'t str, begun: usize, end: usize) -> Option<Part<'t>> {
    let text_of_part = str::from_utf8(text.as_bytes().get(begun..end)?).ok()?;
    Some(Part {
        text: text_of_part,
        line: line_at(text.as_bytes(), begun),
    })
}

/// Returns the number of the line in which this host's table has this key; of its header, or of its
/// name, if there is no such line.
pub(crate) fn line_of(text: &str, host: &str, key: &str) -> usize {
    let bytes = text.as_bytes();
    let Some(part) = part_of(text, host) else {
        return line_at(bytes, place_in(bytes, host.as_bytes()).unwrap_or(0));
    };
    let mut line = part.line;
    for text in part.text.split('\n') {
        if key_in(text) == Some(key) {
            return line;
        }
        line = line.saturating_add(1);
    }
    part.line
}

// Returns the name in the header of a table.
fn header_in(line: &str) -> Option<&str> {
    let rest = line.trim().strip_prefix('[')?;
    let (name, _) = rest.split_once(']')?;
    Some(unquoted(name.trim()))
}

// Returns the key before an equals sign.
fn key_in(line: &str) -> Option<&str> {
    let (key, _) = line.split_once('=')?;
    Some(unquoted(key.trim()))
}

fn unquoted(name: &str) -> &str {
    match name.strip_prefix('"') {
        Some(rest) => rest.strip_suffix('"').unwrap_or(name),
        None => name,
    }
}
