//! Prints entries as lines of text.

ghost use Rattle.std.specs.Prelude.{◌≡◌, ◌+◌, ◌*◌, ◌/◌, ◌%◌, ◌<◌, ◌≤◌, ◌++◌, [], ◌∷◌, OnOk, codes, length};
ghost use Rattle.std.specs.Prelude.{slice_index, vec_len, vec_capacity};
ghost use Rattle.hex.specs.Hex.{encode_lower, lower_digits};
ghost use Rattle.tn_discipline.specs.{declared.reads.Entry.TheVariants.{Text, Signal}, Editing.with_byte};
ghost use Rattle.tn_discipline.specs.Entries.{line_of};
ghost use Rattle.tn_cli.specs.Printed.{printed_entry, signal_line};

use std::alloc::AllocError;
use std::mem;
use tn_discipline::{Entry, Sig};

/// The two digits of each byte, one byte after another.
const PAIRS: [u8; 512] = *b"000102030405060708090a0b0c0d0e0f101112131415161718191a1b1c1d1e1f\
    202122232425262728292a2b2c2d2e2f303132333435363738393a3b3c3d3e3f\
    404142434445464748494a4b4c4d4e4f505152535455565758595a5b5c5d5e5f\
    606162636465666768696a6b6c6d6e6f707172737475767778797a7b7c7d7e7f\
    808182838485868788898a8b8c8d8e8f909192939495969798999a9b9c9d9e9f\
    a0a1a2a3a4a5a6a7a8a9aaabacadaeafb0b1b2b3b4b5b6b7b8b9babbbcbdbebf\
    c0c1c2c3c4c5c6c7c8c9cacbcccdcecfd0d1d2d3d4d5d6d7d8d9dadbdcdddedf\
    e0e1e2e3e4e5e6e7e8e9eaebecedeeeff0f1f2f3f4f5f6f7f8f9fafbfcfdfeff";

/// Appends the line of an entry, with its line feed.
pub(crate) fn print_entry(entry: &Entry, out: &mut Vec<u8>) -> Result<(), AllocError>
    ensures { OnOk result (out.new.items ≡ out.old.items ++ printed_entry entry.now) }
{
    match entry {
        Entry::Text(text) => {
            out.extend_from_slice(b"text ")?;
            print_digits(text.as_slice(), out)
        },
        Entry::Eof => out.extend_from_slice(b"eof\n"),
        Entry::Signal(sig) => out.extend_from_slice(line_of_signal(*sig)),
    }
}

/// Appends the line of the entry that these bytes give, closed by this byte or by none, if there is
/// room.
pub(crate) fn put_line(held: &[u8], last: Option<u8>, out: &mut Vec<u8>)
    requires { vec_len out.old + (2 * length held.now + 8) ≤ vec_capacity out.old }
    ensures items { out.new.items ≡
        out.old.items ++ printed_entry (line_of (with_byte held.now last)) }
    ensures capacity { vec_capacity out.old ≤ vec_capacity out.new }
{
    match last {
        Some(byte) => put_text(held, byte, out),
        None => put_held(held, out),
    }
}

// Appends the line of an entry that is closed by no byte, if there is room.
fn put_held(held: &[u8], out: &mut Vec<u8>)
    requires { vec_len out.old + (2 * length held.now + 8) ≤ vec_capacity out.old }
    ensures items { out.new.items ≡ out.old.items ++ printed_entry (line_of held.now) }
    ensures capacity { vec_capacity out.old ≤ vec_capacity out.new }
{
    if held.is_empty() {
        put_bytes(b"eof\n", out);
        return;
    }
    let front = held.len() - 1;
    put_text(&held[..front], held[front], out);
}

/// Appends the line of a signal, if there is room.
pub(crate) fn put_signal(sig: Sig, out: &mut Vec<u8>)
    requires { vec_len out.old + 12 ≤ vec_capacity out.old }
    ensures items { out.new.items ≡ out.old.items ++ printed_entry (Signal sig) }
    ensures capacity { vec_capacity out.old ≤ vec_capacity out.new }
{
    put_bytes(line_of_signal(sig), out);
}

// Appends bytes if there is room for them.
fn put_bytes(bytes: &[u8], out: &mut Vec<u8>)
    requires { vec_len out.old + length bytes.now ≤ vec_capacity out.old }
    ensures items { out.new.items ≡ out.old.items ++ bytes.now }
    ensures capacity { vec_capacity out.old ≤ vec_capacity out.new }
{
    let _room = out.extend_from_slice(bytes);
}

// Appends the line of a text that is these bytes and one more after them.
fn put_text(bytes: &[u8], last: u8, out: &mut Vec<u8>)
    requires { vec_len out.old + (2 * length bytes.now + 8) ≤ vec_capacity out.old }
    ensures items { out.new.items ≡ out.old.items ++ printed_entry (Text (bytes.now ++ last ∷ [])) }
    ensures capacity { vec_capacity out.old ≤ vec_capacity out.new }
{
    let alloc = *out.allocator();
    let whole = mem::replace(out, Vec::new(alloc));
    *out = with_text(whole, bytes, last);
}

// Appends the line of a text of these bytes and one more, to a vector that is owned and has room.
fn with_text(out: Vec<u8>, bytes: &[u8], last: u8) -> Vec<u8>
    requires { vec_len out + (2 * length bytes.now + 8) ≤ vec_capacity out }
    ensures items { result.items ≡ out.items ++ printed_entry (Text (bytes.now ++ last ∷ [])) }
    ensures capacity { vec_capacity out ≤ vec_capacity result }
{
    let mut out = out;
    let _room = out.extend_from_slice(b"text ");
    let mut out = with_digits(out, bytes);
    let (high, low) = pair(last);
    out.push_reserved(high);
    out.push_reserved(low);
    out.push_reserved(b'\n');
    out
}

/// Appends bytes in hexadecimal, and a line feed.
pub(crate) fn print_digits(bytes: &[u8], out: &mut Vec<u8>) -> Result<(), AllocError>
    ensures { OnOk result
        (out.new.items ≡ out.old.items ++ (encode_lower bytes.now ++ codes "\n")) }
{
    out.reserve(2 * bytes.len() + 1)?;
    put_digits(bytes, out);
    out.push_reserved(b'\n');
    Ok(())
}

// Appends bytes in hexadecimal if there is room for them.
fn put_digits(bytes: &[u8], out: &mut Vec<u8>)
    requires { vec_len out.old + 2 * length bytes.now ≤ vec_capacity out.old }
    ensures items { out.new.items ≡ out.old.items ++ encode_lower bytes.now }
    ensures len { vec_len out.new ≡ vec_len out.old + 2 * length bytes.now }
    ensures capacity { vec_capacity out.new ≡ vec_capacity out.old }
{
    let alloc = *out.allocator();
    let whole = mem::replace(out, Vec::new(alloc));
    *out = with_digits(whole, bytes);
}

// Appends bytes in hexadecimal to a vector that the loop owns, so that its length is in a register,
// and not in memory.
fn with_digits(out: Vec<u8>, bytes: &[u8]) -> Vec<u8>
    requires { vec_len out + 2 * length bytes.now ≤ vec_capacity out }
    ensures items { result.items ≡ out.items ++ encode_lower bytes.now }
    ensures len { vec_len result ≡ vec_len out + 2 * length bytes.now }
    ensures capacity { vec_capacity result ≡ vec_capacity out }
{
    let mut out = out;
    for byte in bytes {
        let (high, low) = pair(*byte);
        out.push_reserved(high);
        out.push_reserved(low);
    }
    out
}

// Returns the two digits of a byte. They are read before either is written, so that both can go at
// once.
fn pair(byte: u8) -> (u8, u8)
    ensures high { result.0 ≡ slice_index lower_digits (byte / 16) }
    ensures low { result.1 ≡ slice_index lower_digits (byte % 16) }
{
    let at = 2 * byte as usize;
    (PAIRS[at], PAIRS[at + 1])
}

fn line_of_signal(sig: Sig) -> &'static [u8]
    ensures { result.now ≡ signal_line sig }
{
    match sig {
        Sig::Int => b"signal int\n",
        Sig::Quit => b"signal quit\n",
        Sig::Tstp => b"signal tstp\n",
    }
}
