//! Bytes are written one write after another, as far as a writer takes them.

ghost use Rattle.std.specs.{Prelude.{◌≡◌, ◌≤◌, ◌==◌, [], take, length, IsTrue}, Io.KnownBytes.Appends};
ghost use Rattle.tn_cores.specs.streams.{Sending.StaysOpen, Writing.{Tells, Writes}};

use crate::streams::{Drain, is_interrupted};

/// Writes these bytes, or the first of them if a write fails, and returns how many it wrote. A
/// write that takes none has failed; one that a signal interrupts is made again.
pub fn write_front<W: Drain>(writer: &mut W, bytes: &[u8]) -> usize
    ensures bound { result ≤ length bytes.now }
    ensures writes { Appends (W.contents writer.old) (W.contents writer.new) (take result bytes.now) }
    ensures tells { Tells (result == length bytes.now) (W.told writer.old) (W.told writer.new) }
    ensures none { bytes.now ≡ [] → result ≡ 0 }
    ensures going { StaysOpen (W.sending writer.old) (W.sending writer.new) }
    ensures silent { bytes.now ≡ [] → W.sending writer.new ≡ W.sending writer.old }
{
    let mut at = 0;
    for _write in 0..u64::MAX {
        if at >= bytes.len() {
            return at;
        }
        match writer.write_some(&bytes[at..]) {
            Ok(0) => return at,
            Ok(n) => at += n,
            Err(error) if is_interrupted(&error) => continue,
            Err(_) => return at,
        }
    }
    at
}

/// Writes these bytes one write after another, and returns true. If a write fails (see
/// `write_front`), it stops and returns false: the first of them are written.
pub fn write_all<W: Drain>(writer: &mut W, bytes: &[u8]) -> bool
    ensures writes { Writes result (W.contents writer.old) (W.contents writer.new) bytes.now }
    ensures tells { Tells result (W.told writer.old) (W.told writer.new) }
    ensures none { bytes.now ≡ [] → IsTrue result }
{
    write_front(writer, bytes) == bytes.len()
}
