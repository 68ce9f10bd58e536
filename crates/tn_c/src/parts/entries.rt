//! The numbers of entries, and of the effects of keys.

ghost use Rattle.std.specs.Prelude.{◌≡◌, Some};
ghost use Rattle.tn_c.specs.parts.Entries.{sig_number, entry_number, kind_number, effect_number, entry_given};
ghost use Rattle.tn_c.specs.parts.Entries.{text_of, wiped_entry};

use tn_discipline::{Effect, Entry, Sig};

pub(crate) fn sig_number(sig: Sig) -> u32
    ensures { result ≡ sig_number sig }
{
    match sig {
        Sig::Int => 3,
        Sig::Quit => 4,
        Sig::Tstp => 5,
    }
}

pub(crate) fn entry_number(entry: &Entry) -> u32
    ensures { result ≡ entry_number entry.now }
{
    match entry {
        Entry::Text(_) => 1,
        Entry::Eof => 2,
        Entry::Signal(sig) => sig_number(*sig),
    }
}

/// Returns the number of an entry's kind, or 0 if there is none.
pub(crate) fn kind_number(entry: &Option<Entry>) -> u32
    ensures { result ≡ kind_number entry.now }
{
    match entry {
        None => 0,
        Some(entry) => entry_number(entry),
    }
}

pub(crate) fn effect_number(effect: &Effect) -> u32
    ensures { result ≡ effect_number effect.now }
{
    match effect {
        Effect::Nothing => 0,
        Effect::Gives(entry) => entry_number(entry),
        Effect::Kept => 6,
        Effect::Erased => 7,
        Effect::ErasedAhead => 8,
        Effect::Killed(_) => 9,
        Effect::Dropped => 10,
    }
}

/// Returns the entry that an effect gives.
pub(crate) fn entry_given(effect: Effect) -> Option<Entry>
    ensures { result ≡ entry_given effect }
{
    match effect {
        Effect::Gives(entry) => Some(entry),
        _ => None,
    }
}

/// Returns an entry whose text is made of zeros, in the memory of the given one.
pub(crate) fn wiped(entry: Option<Entry>) -> Option<Entry>
    ensures { result ≡ wiped_entry entry }
{
    match entry {
        Some(Entry::Text(text)) => {
            let mut bytes: Vec<u8> = text.into();
            bytes.fill(0);
            Some(Entry::Text(bytes.into()))
        },
        other => other,
    }
}

/// Returns the bytes of an entry if it is a text.
pub(crate) fn entry_text(entry: &Entry) -> &[u8]
    ensures { result.now ≡ text_of (Some entry.now) }
{
    match entry {
        Entry::Text(text) => text.as_slice(),
        _ => &[],
    }
}

/// Returns the bytes of an entry that is a text.
pub(crate) fn text_of(entry: &Option<Entry>) -> &[u8]
    ensures { result.now ≡ text_of entry.now }
{
    match entry {
        Some(Entry::Text(text)) => text.as_slice(),
        _ => &[],
    }
}
