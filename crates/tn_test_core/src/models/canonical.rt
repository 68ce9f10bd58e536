//! Canonical input (POSIX.1-2017, XBD 11): the list of all keys is cut into pieces, which are read backwards.

use std::alloc::Global;
use tn_codes::Func;
use tn_discipline::{Entry, Role, Settings, Sig, Text};

pub fn closes(role: Role) -> bool {
    matches!(role, Role::Nl | Role::Eol(_) | Role::Eol2(_) | Role::Eof)
}

/// Returns the role of a key, after it is mapped.
pub fn role_of(settings: &Settings, key: u8) -> Role {
    match key {
        13 if settings.flags.igncr => Role::Ignored,
        13 if settings.flags.icrnl => Role::Nl,
        10 if settings.flags.inlcr => mapped_role(settings, 13),
        _ => mapped_role(settings, key),
    }
}

fn mapped_role(settings: &Settings, byte: u8) -> Role {
    match settings.chars.holder(byte) {
        _ if byte == 10 => Role::Nl,
        Some(Func::Forw1) => Role::Eol(byte),
        Some(Func::Forw2) => Role::Eol2(byte),
        Some(Func::Eof) => Role::Eof,
        Some(Func::Ec) => Role::Erase,
        Some(Func::El) => Role::Kill,
        Some(Func::Ip) if settings.flags.isig => Role::Signal(Sig::Int),
        Some(Func::Abort) if settings.flags.isig => Role::Signal(Sig::Quit),
        Some(Func::Susp) if settings.flags.isig => Role::Signal(Sig::Tstp),
        _ => Role::Ordinary(byte),
    }
}

/// The keys that find room: the half-typed line never counts more bytes than this.
fn admitted(alloc: Global, most: usize, roles: &[Role]) -> Vec<Role> {
    let mut keys = Vec::new(alloc);
    let mut count = 0usize;
    for role in roles {
        match role {
            Role::Ordinary(_) if count >= most => continue,
            Role::Ordinary(_) => count = count.saturating_add(1),
            Role::Erase => count = count.saturating_sub(1),
            Role::Signal(_) | Role::Ignored => {},
            _ => count = 0,
        }
        let _refused = keys.push(*role);
    }
    keys
}

// Returns the bytes that are kept of a piece: it is read from its right end, with a count of the
// outstanding erasures.
fn kept(alloc: Global, piece: &[Role]) -> Vec<u8> {
    let mut bytes = Vec::new(alloc);
    let mut outstanding = 0usize;
    for role in piece.iter().rev() {
        match role {
            Role::Erase => outstanding = outstanding.saturating_add(1),
            Role::Ordinary(byte) if outstanding == 0 => {
                let _refused = bytes.push(*byte);
            },
            Role::Ordinary(_) => outstanding = outstanding.saturating_sub(1),
            Role::Kill => break,
            _ => {},
        }
    }
    bytes.reverse();
    bytes
}

/// The half-typed line: what is kept of the keys after the last one that closed a line.
pub fn half(alloc: Global, most: usize, roles: &[Role]) -> Vec<u8> {
    let last = roles.rsplit(|role| closes(*role)).next().unwrap_or(&[]);
    kept(alloc, &admitted(alloc, most, last))
}

/// The entries of these keys.
pub fn entries(alloc: Global, most: usize, roles: &[Role]) -> Vec<Entry> {
    let mut entries = Vec::new(alloc);
    for piece in roles.split_inclusive(|role| closes(*role)) {
        put_signals(piece, &mut entries);
        if let Some(last) = piece.last() {
            put_line(
                *last,
                kept(alloc, &admitted(alloc, most, piece)),
                &mut entries,
            );
        }
    }
    entries
}

fn put_signals(piece: &[Role], entries: &mut Vec<Entry>) {
    for role in piece {
        if let Role::Signal(sig) = role {
            let _refused = entries.push(Entry::Signal(*sig));
        }
    }
}

// The line that this key closes, if it does.
fn put_line(last: Role, mut bytes: Vec<u8>, entries: &mut Vec<Entry>) {
    let closing = match last {
        Role::Nl => Some(10),
        Role::Eol(byte) | Role::Eol2(byte) => Some(byte),
        Role::Eof => None,
        _ => return,
    };
    let _refused = bytes.extend(closing);
    let _refused = entries.push(if bytes.is_empty() {
        Entry::Eof
    } else {
        Entry::Text(Text::from(bytes))
    });
}
