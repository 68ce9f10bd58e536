//! The calls of a decoder: a stream to items.

ghost use Rattle.std.specs.Prelude.{◌≡◌, true, None};
ghost use Rattle.tn_c.specs.parts.{Bytes.Gives, Calling.{Looks, Does}, Items.parameters_of};
ghost use Rattle.tn_c.specs.parts.DecoderCalls.{IsFresh, FeedCall, TakeCall, TakeRunCall};
ghost use Rattle.tn_c.specs.Holding.{HoldsDecoder, CallsDecoder, Starts, NoPointer};

use crate::calls::call_held;
use crate::handle::Handle;
use crate::held::Held;
use crate::parts::{Code, HeldDecoder, ItemSeen};
use std::alloc::Global;

/// Puts a decoder into the handle that has read nothing.
#[unsafe(no_mangle)]
pub extern "C" fn tn_decoder_start(alloc: Global, handle: &mut Handle) -> u32
    ensures { Starts handle.old.held handle.new.held result true (λ held. HoldsDecoder held IsFresh) }
{
    if handle.is_started(alloc) {
        return Code::Started.number();
    }
    let decoder = HeldDecoder::start(alloc);
    handle.hold(alloc, Held::Decoder(decoder)).number()
}

/// Gives up what the handle holds, if it holds something, and all of its memory.
#[unsafe(no_mangle)]
pub extern "C" fn tn_decoder_free(alloc: Global, handle: &mut Handle)
    ensures { handle.new.held ≡ None }
{
    handle.free(alloc);
}

/// Reads a piece, cut anywhere: the items that it completes wait after those that wait already.
#[unsafe(no_mangle)]
pub extern "C" fn tn_decoder_feed(alloc: Global, handle: &mut Handle, bytes: &[u8]) -> u32
    ensures { CallsDecoder handle.old.held handle.new.held result NoPointer
        (FeedCall bytes.now) }
{
    call_held!(handle, alloc, Decoder, decoder => decoder.feed(bytes))
}

/// Takes the first item that waits, if there is one.
#[unsafe(no_mangle)]
pub extern "C" fn tn_decoder_take(alloc: Global, handle: &mut Handle, item: &mut ItemSeen) -> u32
    ensures { CallsDecoder handle.old.held handle.new.held result (item.new ≡ item.old)
        (Does (TakeCall item.new)) }
{
    call_held!(handle, alloc, Decoder, decoder => { decoder.take(item); Code::Done })
}

/// Moves the first bytes of data that wait, as many as stand together and fit, and sets `count` to
/// their number.
#[unsafe(no_mangle)]
pub extern "C" fn tn_decoder_take_run(
    alloc: Global,
    handle: &mut Handle,
    buf: &mut [u8],
    count: &mut usize,
) -> u32
    ensures { CallsDecoder handle.old.held handle.new.held result
        ((buf.new ≡ buf.old) × (count.new ≡ count.old))
        (Does (TakeRunCall buf.old buf.new count.new)) }
{
    call_held!(handle, alloc, Decoder, decoder => { decoder.take_run(buf, count); Code::Done })
}

/// Copies the first parameters of the item that was taken last, as many as fit, and sets `count` to
/// the number of all of them.
#[unsafe(no_mangle)]
pub extern "C" fn tn_decoder_parameters(
    alloc: Global,
    handle: &mut Handle,
    buf: &mut [u8],
    count: &mut usize,
) -> u32
    ensures { CallsDecoder handle.old.held handle.new.held result
        ((buf.new ≡ buf.old) × (count.new ≡ count.old))
        (Looks (λ decoder. Gives (parameters_of decoder.item) buf.old buf.new count.new)) }
{
    call_held!(handle, alloc, Decoder, decoder => { decoder.parameters(buf, count); Code::Done })
}
