//! `tn replay`: reads a client's byte stream, and prints entries.

ghost use Rattle.std.specs.Prelude.{◌≡◌, IfOk};
ghost use Rattle.tn_cli.specs.{Ends.{EndsByCalls, EndsReplay}, Replay.{AreKeysOf, key_of}};

use crate::fault::CliFault;
use crate::local::write_entries;
use crate::streams::read_whole;
use crate::typing::Typing;
use std::alloc::{AllocError, Global};
use tn_cores::streams::{Drain, Source};
use tn_nvt::{Decoder, Item, Params, Refused, Sink};

/// Reads a client's byte stream to its end, types its data bytes and new lines as keys at one line
/// with standard settings, and writes the entries that they give, one a line. Commands, option
/// messages and subnegotiations are skipped. Nothing is written before the input has ended.
///
/// # Errors
///
/// After any error but `Write` nothing was written.
///
/// - `Read`: a read failed, or the input did not end within 2,097,152 reads.
/// - `TooLong`: the input is longer than 1,048,576 bytes.
/// - `Write`: a write failed, or took none of its bytes; a beginning was written.
/// - `Memory`: there is no memory.
pub fn run_replay<R: Source, W: Drain>(
    alloc: Global,
    reader: &mut R,
    writer: &mut W,
) -> Result<(), CliFault>
    ensures ends { EndsReplay result (R.remaining reader.old)
        (W.contents writer.old) (W.contents writer.new) }
    ensures calls { EndsByCalls result (R.told reader.old) (R.told reader.new)
        (W.told writer.old) (W.told writer.new) }
{
    let stream = read_whole(alloc, reader)?;
    let keys = keys_of_stream(alloc, &stream)?;
    let typing = Typing::new(alloc)?;
    write_entries(typing, &keys, writer)
}

// Returns the keys of a stream.
fn keys_of_stream(alloc: Global, stream: &[u8]) -> Result<Vec<u8>, AllocError>
    ensures { IfOk result (λ keys. AreKeysOf stream.now keys.items) }
{
    let mut gathered = Gathered {
        keys: Vec::with_capacity(alloc, stream.len())?,
    };
    let mut decoder = Decoder::new(alloc);
    match decoder.feed_to(stream, &mut gathered) {
        Ok(()) => Ok(gathered.keys),
        Err(_) => Err(AllocError),
    }
}

/// The keys of what was read of a stream.
#[derive(Drop)]
pub(crate) struct Gathered {
    keys: Vec<u8>,
}

impl Sink for Gathered {
    ghost use Rattle.tn_cli.specs.Replay.{GathersItems, GathersSome};

    ghost takes = { GathersItems };

    ghost gives_up = { GathersSome };

    fn run(&mut self, bytes: &[u8]) -> Result<(), Refused> {
        match self.keys.extend_from_slice(bytes) {
            Ok(()) => Ok(()),
            Err(_) => Err(Refused),
        }
    }

    fn item(&mut self, item: Item) -> Result<(), Refused> {
        match key_of_item(&item) {
            Some(key) => match self.keys.extend_from_slice(&[key]) {
                Ok(()) => Ok(()),
                Err(_) => Err(Refused),
            },
            None => Ok(()),
        }
    }

    fn sub(&mut self, _option: u8, _params: &mut Params) -> Result<(), Refused> {
        Ok(())
    }
}

// Returns the key that an item stands for, if it stands for one.
fn key_of_item(item: &Item) -> Option<u8>
    ensures { result ≡ key_of item.now }
{
    match item {
        Item::Byte(byte) => Some(*byte),
        Item::Newline => Some(b'\n'),
        Item::Cmd(_) | Item::Neg(..) | Item::Sub(..) => None,
    }
}
