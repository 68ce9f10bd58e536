//! Reads an input to its end, and writes all of an output.

ghost use Rattle.std.specs.Prelude.{◌≡◌, ◌+◌, ◌-◌, ◌<◌, ◌≤◌, ◌≢◌, ℕ, List, length, vec_len, is_ok, IfOk};
ghost use Rattle.std.specs.Prelude.{IfErr, IfSome, OnOk, OnErr, IsErrOf, Ok, Err, take, drop};
ghost use Rattle.std.specs.Io.KnownBytes.{Consumes, IsAtEnd, Appends, Keeps};
ghost use Rattle.tn_cores.specs.streams.Telling.{AccountsFor, HasFailed, HasMade};
ghost use Rattle.tn_cli.specs.Streams.{AppendsPrefix, IsReadFault, KeepsPiece, max_input, max_reads};
ghost use Rattle.tn_cli.specs.Streams.{max_writes};

use crate::fault::CliFault;
use std::alloc::Global;
use tn_cores::streams::{Drain, Source, is_interrupted};

/// The most bytes of an input.
const MAX_BYTES: usize = 1_048_576;

/// The most reads of an input.
const MAX_READS: u32 = 2_097_152;

/// The number of bytes for which one read asks.
pub(crate) const PIECE_BYTES: usize = 32_768;

/// Reads to the end of the input. An input that is too long is reported as such even when out of memory.
pub(crate) fn read_whole<R: Source>(alloc: Global, reader: &mut R) -> Result<Vec<u8>, CliFault>
    ensures whole { IfOk result (λ input.
        Consumes (R.remaining reader.old) (R.remaining reader.new) input.items) }
    ensures end { OnOk result (IsAtEnd (R.remaining reader.new)) }
    ensures fits { IfOk result (λ input. length input.items ≤ max_input) }

    ensures too_long { IsErrOf result CliFault.TooLong →
        IfSome (R.remaining reader.old) (λ input. max_input < length input) }
    ensures memory { IsErrOf result CliFault.Memory →
        IfSome (R.remaining reader.old) (λ input. length input ≤ max_input) }
    ensures fault { IfErr result IsReadFault }
    ensures read { IsErrOf result CliFault.Read →
        HasFailed max_reads (R.told reader.old) (R.told reader.new) }
{
    let mut input = Vec::new(alloc);
    let mut total = 0;
    let mut piece = [0; PIECE_BYTES];
    for _read in 0..MAX_READS {
        let count = match reader.read_some(&mut piece) {
            Ok(count) => count,
            Err(error) if is_interrupted(&error) => continue,
            Err(_) => return Err(CliFault::Read),
        };
        if count == 0 {
            return if_whole(input, total);
        }
        if count > MAX_BYTES - total {
            return Err(CliFault::TooLong);
        }
        keep(&mut input, total, &piece[..count]);
        total += count;
    }
    Err(CliFault::Read)
}

// Keeps the next piece of an input, after this number of bytes. Once memory has run out, fewer
// bytes are kept than were read, and no later piece is kept.
fn keep(input: &mut Vec<u8>, count: usize, piece: &[u8])
    requires within { vec_len input.now ≤ count }
    requires some { 0 < length piece.now }
    ensures { KeepsPiece count piece.now input.old.items input.new.items }
{
    if input.len() == count {
        if input.extend_from_slice(piece).is_err() {
            input.clear();
        }
    }
}

// Returns the input, if all bytes that were read are kept.
fn if_whole(input: Vec<u8>, count: usize) -> Result<Vec<u8>, CliFault>
    ensures whole { IfOk result (λ whole. whole ≡ input) }
    ensures ok { OnOk result (vec_len input ≡ count) }
    ensures fault { IfErr result (λ fault. fault ≡ CliFault.Memory) }
{
    if input.len() == count {
        Ok(input)
    } else {
        Err(CliFault::Memory)
    }
}

/// Writes all of the output. After a fault, a prefix of it was written.
pub(crate) fn write_whole<W: Drain>(writer: &mut W, output: &[u8]) -> Result<(), CliFault>
    ensures ok { OnOk result (Appends (W.contents writer.old) (W.contents writer.new) output.now) }
    ensures err { OnErr result
        (AppendsPrefix (W.contents writer.old) (W.contents writer.new) output.now) }
    ensures fault { IfErr result (λ fault. fault ≡ CliFault.Write) }
    ensures failed { OnErr result (HasFailed max_writes (W.told writer.old) (W.told writer.new)) }
    ensures accounts { AccountsFor max_writes (is_ok result)
        (W.told writer.old) (W.told writer.new) }
{
    match write_within(writer, output, u64::MAX) {
        Ok(_left) => Ok(()),
        Err(fault) => Err(fault),
    }
}

/// Writes all of an output in at most this number of writes, and returns how many are left.
pub(crate) fn write_within<W: Drain>(
    writer: &mut W,
    output: &[u8],
    most: u64,
) -> Result<u64, CliFault>
    ensures ok { OnOk result (Appends (W.contents writer.old) (W.contents writer.new) output.now) }
    ensures left { IfOk result (λ left. left ≤ most) }
    ensures made { IfOk result
        (λ left. HasMade (most - left) (W.told writer.old) (W.told writer.new)) }
    ensures err { OnErr result
        (AppendsPrefix (W.contents writer.old) (W.contents writer.new) output.now) }
    ensures fault { IfErr result (λ fault. fault ≡ CliFault.Write) }
    ensures failed { OnErr result (HasFailed most (W.told writer.old) (W.told writer.new)) }
    ensures accounts { AccountsFor most (is_ok result) (W.told writer.old) (W.told writer.new) }
{
    let mut written = 0;
    for write in 0..most {
        if written == output.len() {
            return Ok(most - write);
        }
        match writer.write_some(&output[written..]) {
            Ok(0) => return Err(CliFault::Write),
            Ok(count) => written += count,
            Err(error) if is_interrupted(&error) => continue,
            Err(_) => return Err(CliFault::Write),
        }
    }
    Err(CliFault::Write)
}
