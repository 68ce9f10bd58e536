//! Streams into a decoder, in pieces.

use crate::measure::{Bench, Done, Stuck, Workload, repeated};
use std::alloc::Global;
use std::io::Write;
use std::time::Clock;
use tn_nvt::{Decoder, Item, Params, Refused, Sink};

/// The number of bytes of a piece.
const PIECE: usize = 4_096;

/// A line of 62 characters and its end.
const LINE: &[u8; 64] = b"the quick brown fox jumps over the lazy dog, and all is as was\r\n";

/// A byte 255, a return, an option message, a command, a size and some text.
pub(crate) const MIX: &[u8; 32] =
    b"ab\xff\xffcd\r\0ef\xff\xfb\x01gh\xff\xf1ij\xff\xfa\x1f\0\x50\0\x18\xff\xf0kl\r\n";

/// Counts the items that it gets, and wraps, since a sum that does not costs four instructions a
/// call in place of one. A subnegotiation's parameters are not copied, as libtelnet does not copy them.
#[derive(Drop)]
struct Counter {
    wholes: u64,
}

impl Sink for Counter {
    ghost takes = { λ _ _ _. Unit {0} };

    ghost gives_up = { λ _ _ _. Unit {0} };

    fn run(&mut self, _bytes: &[u8]) -> Result<(), Refused> {
        self.wholes = self.wholes.wrapping_add(1);
        Ok(())
    }

    fn item(&mut self, _item: Item) -> Result<(), Refused> {
        self.wholes = self.wholes.wrapping_add(1);
        Ok(())
    }

    fn sub(&mut self, _option: u8, _params: &mut Params) -> Result<(), Refused> {
        self.wholes = self.wholes.wrapping_add(1);
        Ok(())
    }
}

#[derive(Drop)]
struct Decoding {
    decoder: Decoder,
    stream: Vec<u8>,
}

impl Workload for Decoding {
    fn once(&mut self) -> Result<Done, Stuck> {
        let mut counter = Counter { wholes: 0 };
        for piece in self.stream.as_slice().chunks(PIECE) {
            if self.decoder.feed_to(piece, &mut counter).is_err() {
                return Err(Stuck);
            }
        }
        Ok(Done {
            bytes: self.stream.len() as u64,
            wholes: counter.wholes,
        })
    }
}

fn decode<H: Clock, W: Write>(
    alloc: Global,
    bench: &mut Bench<'_, H, W>,
    name: &str,
    bytes: &[u8],
    times: u32,
) -> Result<(), Stuck> {
    let stream = repeated(alloc, bytes, times)?;
    let decoder = Decoder::new(alloc);
    bench.tell(name, Decoding { decoder, stream })
}

pub(crate) fn run<H: Clock, W: Write>(
    alloc: Global,
    bench: &mut Bench<'_, H, W>,
) -> Result<(), Stuck> {
    decode(alloc, bench, "decoding plain text", b"x", 65_536)?;
    decode(alloc, bench, "decoding lines of 64", LINE, 1_024)?;
    decode(alloc, bench, "decoding a mix of escapes", MIX, 2_048)
}
