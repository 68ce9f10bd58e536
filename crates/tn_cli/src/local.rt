//! `tn local`: reads keys, and prints entries.

ghost use Rattle.std.specs.Prelude.{◌≡◌, ◌≤◌, [], vec_len, vec_capacity, IfErr, OnOk, OnErr};
ghost use Rattle.tn_cli.specs.{Ends.{EndsByCalls, EndsLocal}, Streams.max_writes};
ghost use Rattle.tn_cli.specs.Typing.{LeadsTo, PrintsKeys, PrintsKeysPrefix, max_printed};
ghost use Rattle.tn_cores.specs.streams.Telling.{HasFailed};

use crate::fault::CliFault;
use crate::streams::{read_whole, write_within};
use crate::typing::Typing;
use std::alloc::Global;
use tn_cores::streams::{Drain, Source};

/// Reads all keys, types them at one line with standard settings, and writes the entries that they
/// give, one a line. Nothing is written before the input has ended.
///
/// # Errors
///
/// After any error but `Write` nothing was written.
///
/// - `Read`: a read failed, or the input did not end within 2,097,152 reads.
/// - `TooLong`: the input is longer than 1,048,576 bytes.
/// - `Write`: a write failed, or took none of its bytes; a beginning was written.
/// - `Memory`: there is no memory.
pub fn run_local<R: Source, W: Drain>(
    alloc: Global,
    reader: &mut R,
    writer: &mut W,
) -> Result<(), CliFault>
    ensures ends { EndsLocal result (R.remaining reader.old)
        (W.contents writer.old) (W.contents writer.new) }
    ensures calls { EndsByCalls result (R.told reader.old) (R.told reader.new)
        (W.told writer.old) (W.told writer.new) }
{
    let keys = read_whole(alloc, reader)?;
    let typing = Typing::new(alloc)?;
    write_entries(typing, &keys, writer)
}

/// Types the keys, and writes the entries that they give as they come. No memory is wanted.
pub(crate) fn write_entries<W: Drain>(
    typing: Typing,
    keys: &[u8],
    writer: &mut W,
) -> Result<(), CliFault>
    requires new { LeadsTo [] [] typing }
    requires empty { typing.printed.items ≡ [] }
    requires len { vec_len typing.printed ≡ 0 }
    requires room { max_printed ≤ vec_capacity typing.printed }
    ensures ok { OnOk result (PrintsKeys keys.now (W.contents writer.old) (W.contents writer.new)) }
    ensures err { OnErr result
        (PrintsKeysPrefix keys.now (W.contents writer.old) (W.contents writer.new)) }
    ensures fault { IfErr result (λ fault. fault ≡ CliFault.Write) }
    ensures failed { OnErr result (HasFailed max_writes (W.told writer.old) (W.told writer.new)) }
{
    let mut typing = typing;
    let mut typed = 0;
    let mut left = u64::MAX;
    while typed < keys.len() {
        typed += typing.fill(&keys[typed..]);
        left = write_within(writer, typing.printed(), left)?;
        typing.clear();
    }
    Ok(())
}
