//! The calls of a server end.

ghost use Rattle.std.specs.Prelude.{◌≡◌, ◌||◌, None, length, slice_get};
ghost use Rattle.tn_discipline.specs.{Limits.is_limit, Characters.standard_characters};
ghost use Rattle.tn_option.specs.Options.{state_of};
ghost use Rattle.tn_pty.specs.Terminal.{first_signal};
ghost use Rattle.tn_server.specs.{Calls.{LeadsTo, call_fault}, Events.{History, echo_set}, Screen.size};
ghost use Rattle.tn_server.specs.{Lines.{half, waiting}, Terms.{mode, asked_mask, options}};
ghost use Rattle.tn_c.specs.{parts.Bytes.Gives, Holding.{HoldsServer, CallsServer, Starts, NoPointer}};
ghost use Rattle.tn_c.specs.parts.{Calling.{Looks, Does, OfFunction, GivesChar}, Changes.ChangesCall};
ghost use Rattle.tn_c.specs.parts.{Entries.{kind_number, signal_number, text_of}, Terminals.flags_given};
ghost use Rattle.tn_c.specs.parts.Readings.{char_given, editing_given, side_given, state_number};
ghost use Rattle.tn_c.specs.parts.ServerCalls.{PullCall, WishCall, SetCharCall, SetMaskCall, SetOctetsCall};
ghost use Rattle.tn_c.specs.parts.ServerCalls.{IsOpened, Acts, FeedCall, TakeCall, ForgetCall, WriteCall};
ghost use Rattle.tn_c.specs.parts.ServerCalls.{FeedSomeCall, SayCall, GivesPending, SentCall, ReadCall};
ghost use Rattle.tn_c.specs.parts.ServerCalls.{IsServerChar, OnOwned, SayOwnCall, SayOwnSubCall};
ghost use Rattle.tn_c.specs.parts.{Items.parameters_of, OwnOptions.{OwnCall, TakeOwnCall}};

use crate::calls::call_held;
use crate::handle::Handle;
use crate::held::Held;
use crate::parts::{Code, HeldServer, ItemSeen, TerminalFlags};
use std::alloc::Global;
use tn_discipline::{Chars, Limit, Settings};
use tn_server::Opening;

/// Puts a server end into the handle, over a terminal with these flags and the standard special
/// characters, whose lines have at most `limit` bytes, 255 to 4,095. Its opening messages wait to
/// be read.
#[unsafe(no_mangle)]
pub extern "C" fn tn_server_start(
    alloc: Global,
    handle: &mut Handle,
    flags: &TerminalFlags,
    limit: u16,
) -> u32
    ensures { Starts handle.old.held handle.new.held result (is_limit limit)
        (λ held. HoldsServer held (IsOpened Opening.Keys (record {
          settings = record { flags = flags_given flags.now; chars = standard_characters };
          limit = limit;
        }))) }
{
    start(alloc, Opening::Keys, handle, flags, limit)
}

/// Puts a server end for clients that edit lines themselves into the handle, over a terminal with
/// these flags and the standard special characters, whose lines have at most `limit` bytes, 255 to
/// 4,095. Its opening messages, DO LINEMODE and DO NAWS, wait to be read.
#[unsafe(no_mangle)]
pub extern "C" fn tn_server_start_lines(
    alloc: Global,
    handle: &mut Handle,
    flags: &TerminalFlags,
    limit: u16,
) -> u32
    ensures { Starts handle.old.held handle.new.held result (is_limit limit)
        (λ held. HoldsServer held (IsOpened Opening.Lines (record {
          settings = record { flags = flags_given flags.now; chars = standard_characters };
          limit = limit;
        }))) }
{
    start(alloc, Opening::Lines, handle, flags, limit)
}

// Puts a server end into the handle that opens so.
fn start(
    alloc: Global,
    opening: Opening,
    handle: &mut Handle,
    flags: &TerminalFlags,
    limit: u16,
) -> u32
    ensures { Starts handle.old.held handle.new.held result (is_limit limit)
        (λ held. HoldsServer held (IsOpened opening (record {
          settings = record { flags = flags_given flags.now; chars = standard_characters };
          limit = limit;
        }))) }
{
    if handle.is_started(alloc) {
        return Code::Started.number();
    }
    let Some(limit) = Limit::new(limit) else {
        return Code::NoLimit.number();
    };
    let settings = Settings {
        flags: flags.flags(),
        chars: Chars::standard(),
    };
    let Ok(server) = HeldServer::start(alloc, opening, settings, limit) else {
        return Code::Memory.number();
    };
    handle.hold(alloc, Held::Server(server)).number()
}

/// Gives up what the handle holds, if it holds something, and all of its memory.
#[unsafe(no_mangle)]
pub extern "C" fn tn_server_free(alloc: Global, handle: &mut Handle)
    ensures { handle.new.held ≡ None }
{
    handle.free(alloc);
}

/// Takes a piece of the client's stream, cut anywhere; the replies wait to be read.
#[unsafe(no_mangle)]
pub extern "C" fn tn_server_feed(alloc: Global, handle: &mut Handle, bytes: &[u8]) -> u32
    ensures { CallsServer handle.old.held handle.new.held result NoPointer
        (FeedCall bytes.now) }
{
    call_held!(handle, alloc, Server, server => server.feed(bytes))
}

/// Takes the first bytes of the client's stream, as many as cannot make more entries than may wait,
/// and sets `taken` to their number: none while more than 511 entries wait.
#[unsafe(no_mangle)]
pub extern "C" fn tn_server_feed_some(
    alloc: Global,
    handle: &mut Handle,
    bytes: &[u8],
    taken: &mut usize,
) -> u32
    ensures { CallsServer handle.old.held handle.new.held result (taken.new ≡ taken.old)
        (FeedSomeCall bytes.now taken.old taken.new) }
{
    call_held!(handle, alloc, Server, server => server.feed_some(bytes, taken))
}

/// Takes the first entry that waits, and sets `kind` to the number of its kind.
#[unsafe(no_mangle)]
pub extern "C" fn tn_server_take(alloc: Global, handle: &mut Handle, kind: &mut u32) -> u32
    ensures { CallsServer handle.old.held handle.new.held result (kind.new ≡ kind.old)
        (TakeCall kind.old kind.new) }
{
    call_held!(handle, alloc, Server, server => server.take(kind))
}

/// Copies the first bytes of the text that was taken last, as many as fit, and sets `count` to the
/// number of all of them.
#[unsafe(no_mangle)]
pub extern "C" fn tn_server_text(
    alloc: Global,
    handle: &mut Handle,
    buf: &mut [u8],
    count: &mut usize,
) -> u32
    ensures { CallsServer handle.old.held handle.new.held result
        ((buf.new ≡ buf.old) × (count.new ≡ count.old))
        (Looks (λ server. Gives (text_of server.entry) buf.old buf.new count.new)) }
{
    call_held!(handle, alloc, Server, server => { server.text(buf, count); Code::Done })
}

/// Wipes the text of the entry that was taken last: its bytes are 0 from then on.
#[unsafe(no_mangle)]
pub extern "C" fn tn_server_forget(alloc: Global, handle: &mut Handle) -> u32
    ensures { CallsServer handle.old.held handle.new.held result NoPointer
        (Does ForgetCall) }
{
    call_held!(handle, alloc, Server, server => { server.forget(); Code::Done })
}

/// Writes the first bytes of a job's output to the terminal's screen, as many as fit, and sets
/// `count` to their number.
#[unsafe(no_mangle)]
pub extern "C" fn tn_server_write(
    alloc: Global,
    handle: &mut Handle,
    bytes: &[u8],
    count: &mut usize,
) -> u32
    ensures { CallsServer handle.old.held handle.new.held result (count.new ≡ count.old)
        (Does (WriteCall bytes.now count.new)) }
{
    call_held!(handle, alloc, Server, server => { server.write(bytes, count); Code::Done })
}

/// Spells the first symbols of the screen, at most `max` of them, to be read, and sets `count` to
/// their number.
#[unsafe(no_mangle)]
pub extern "C" fn tn_server_pull(
    alloc: Global,
    handle: &mut Handle,
    max: usize,
    count: &mut usize,
) -> u32
    ensures { CallsServer handle.old.held handle.new.held result (count.new ≡ count.old)
        (PullCall max count.old count.new) }
{
    call_held!(handle, alloc, Server, server => server.pull(max, count))
}

/// Writes the first bytes of a job's output, as many as fit, sets `count` to their number, and
/// spells all that waits on the screen.
#[unsafe(no_mangle)]
pub extern "C" fn tn_server_say(
    alloc: Global,
    handle: &mut Handle,
    bytes: &[u8],
    count: &mut usize,
) -> u32
    ensures { CallsServer handle.old.held handle.new.held result (count.new ≡ count.old)
        (SayCall bytes.now count.new) }
{
    call_held!(handle, alloc, Server, server => server.say(bytes, count))
}

/// Requests that the client, or the server, edit lines, and sets `sent` to whether a MODE is sent
/// for it.
#[unsafe(no_mangle)]
pub extern "C" fn tn_server_wish(
    alloc: Global,
    handle: &mut Handle,
    local: bool,
    sent: &mut bool,
) -> u32
    ensures { CallsServer handle.old.held handle.new.held result (sent.new ≡ sent.old)
        (WishCall (editing_given local) sent.old sent.new) }
{
    call_held!(handle, alloc, Server, server => server.wish_for(local, sent))
}

/// Changes the special character of the function with this number; the triple for a client with
/// LINEMODE waits to be read.
#[unsafe(no_mangle)]
pub extern "C" fn tn_server_set_char(
    alloc: Global,
    handle: &mut Handle,
    function: u8,
    value: u16,
) -> u32
    ensures { CallsServer handle.old.held handle.new.held result NoPointer
        (OfFunction function (SetCharCall (char_given value))) }
{
    call_held!(handle, alloc, Server, server => server.set_function(function, value))
}

/// Sets or clears the terminal's flag ECHO; the message for the option ECHO waits to be read, if
/// one is due.
#[unsafe(no_mangle)]
pub extern "C" fn tn_server_set_echo(alloc: Global, handle: &mut Handle, on: bool) -> u32
    ensures { CallsServer handle.old.held handle.new.held result NoPointer
        (Acts (echo_set on) call_fault) }
{
    call_held!(handle, alloc, Server, server => server.set_echo(on))
}

/// Asks the client to send the bytes that it holds at each character of the mask of these octets.
#[unsafe(no_mangle)]
pub extern "C" fn tn_server_set_mask(alloc: Global, handle: &mut Handle, octets: &[u8]) -> u32
    ensures { CallsServer handle.old.held handle.new.held result NoPointer
        (SetOctetsCall octets.now) }
{
    call_held!(handle, alloc, Server, server => server.set_octets(octets))
}

/// Asks the client to send the bytes that it holds at no character any more.
#[unsafe(no_mangle)]
pub extern "C" fn tn_server_clear_mask(alloc: Global, handle: &mut Handle) -> u32
    ensures { CallsServer handle.old.held handle.new.held result NoPointer
        (SetMaskCall None) }
{
    call_held!(handle, alloc, Server, server => server.set_mask(None))
}

/// Owns an option, before anything came: its option messages and subnegotiations wait from then on,
/// and the end gets none of them.
#[unsafe(no_mangle)]
pub extern "C" fn tn_server_own(alloc: Global, handle: &mut Handle, option: u8) -> u32
    ensures { CallsServer handle.old.held handle.new.held result NoPointer
        (λ answer. OnOwned (OwnCall option answer)) }
{
    call_held!(handle, alloc, Server, server => server.own(option))
}

/// Takes the first item of owned options that waits, if there is one.
#[unsafe(no_mangle)]
pub extern "C" fn tn_server_take_own(alloc: Global, handle: &mut Handle, item: &mut ItemSeen) -> u32
    ensures { CallsServer handle.old.held handle.new.held result (item.new ≡ item.old)
        (Does (OnOwned (TakeOwnCall item.new))) }
{
    call_held!(handle, alloc, Server, server => { server.take_own(item); Code::Done })
}

/// Copies the first parameters of the item of owned options that was taken last, as many as fit,
/// and sets `count` to the number of all of them.
#[unsafe(no_mangle)]
pub extern "C" fn tn_server_own_parameters(
    alloc: Global,
    handle: &mut Handle,
    buf: &mut [u8],
    count: &mut usize,
) -> u32
    ensures { CallsServer handle.old.held handle.new.held result
        ((buf.new ≡ buf.old) × (count.new ≡ count.old))
        (Looks (λ server. Gives (parameters_of server.owned.item) buf.old buf.new count.new)) }
{
    call_held!(
        handle, alloc, Server,
        server => { server.owned.parameters(buf, count); Code::Done }
    )
}

/// Sends an option message of an owned option, whose verb has this byte.
#[unsafe(no_mangle)]
pub extern "C" fn tn_server_say_own(alloc: Global, handle: &mut Handle, option: u8, word: u8) -> u32
    ensures { CallsServer handle.old.held handle.new.held result NoPointer
        (SayOwnCall option word) }
{
    call_held!(handle, alloc, Server, server => server.say_own(option, word))
}

/// Sends a subnegotiation of an owned option, of at most 512 parameters.
#[unsafe(no_mangle)]
pub extern "C" fn tn_server_say_own_sub(
    alloc: Global,
    handle: &mut Handle,
    option: u8,
    parameters: &[u8],
) -> u32
    ensures { CallsServer handle.old.held handle.new.held result NoPointer
        (SayOwnSubCall option parameters.now) }
{
    call_held!(handle, alloc, Server, server => server.say_own_sub(option, parameters))
}

/// Sets `count` to the number of bytes that wait to be read.
#[unsafe(no_mangle)]
pub extern "C" fn tn_server_pending(alloc: Global, handle: &mut Handle, count: &mut usize) -> u32
    ensures { CallsServer handle.old.held handle.new.held result (count.new ≡ count.old)
        (Looks (λ server. count.new ≡ length server.pending.items)) }
{
    call_held!(handle, alloc, Server, server => { *count = server.pending.len(); Code::Done })
}

/// Moves the first bytes that are to be sent, as many as fit, and sets `count` to their number; the
/// others stay.
#[unsafe(no_mangle)]
pub extern "C" fn tn_server_read(
    alloc: Global,
    handle: &mut Handle,
    buf: &mut [u8],
    count: &mut usize,
) -> u32
    ensures { CallsServer handle.old.held handle.new.held result
        ((buf.new ≡ buf.old) × (count.new ≡ count.old))
        (Does (ReadCall buf.old buf.new count.new)) }
{
    call_held!(handle, alloc, Server, server => { server.read(buf, count); Code::Done })
}

/// Sets `bytes` to the place of the bytes that are to be sent, and `count` to their number.
#[unsafe(no_mangle)]
pub extern "C" fn tn_server_peek(
    alloc: Global,
    handle: &mut Handle,
    bytes: &mut *const u8,
    count: &mut usize,
) -> u32
    ensures { CallsServer handle.old.held handle.new.held result
        ((bytes.new ≡ bytes.old) × (count.new ≡ count.old))
        (Looks (GivesPending bytes.new count.new)) }
{
    call_held!(handle, alloc, Server, server => { server.peek(bytes, count); Code::Done })
}

/// Drops the first of the bytes that are to be sent, at most `count` of them: they were sent.
#[unsafe(no_mangle)]
pub extern "C" fn tn_server_sent(alloc: Global, handle: &mut Handle, count: usize) -> u32
    ensures { CallsServer handle.old.held handle.new.held result NoPointer
        (Does (SentCall count)) }
{
    call_held!(handle, alloc, Server, server => { server.sent(count); Code::Done })
}

/// Sets `kind` to the number of the kind of an entry that waits, counted from the first, which is
/// 0.
#[unsafe(no_mangle)]
pub extern "C" fn tn_server_waiting(
    alloc: Global,
    handle: &mut Handle,
    index: usize,
    kind: &mut u32,
) -> u32
    ensures { CallsServer handle.old.held handle.new.held result (kind.new ≡ kind.old)
        (Looks (λ server. (h : History) → LeadsTo h server.end →
        kind.new ≡ kind_number (slice_get (waiting h) index))) }
{
    call_held!(handle, alloc, Server, server => { *kind = server.waiting_kind(index); Code::Done })
}

/// Copies the first bytes of the text of an entry that waits, as many as fit, and sets `count` to
/// the number of all of them.
#[unsafe(no_mangle)]
pub extern "C" fn tn_server_waiting_text(
    alloc: Global,
    handle: &mut Handle,
    index: usize,
    buf: &mut [u8],
    count: &mut usize,
) -> u32
    ensures { CallsServer handle.old.held handle.new.held result
        ((buf.new ≡ buf.old) × (count.new ≡ count.old))
        (Looks (λ server. (h : History) → LeadsTo h server.end →
        Gives (text_of (slice_get (waiting h) index)) buf.old buf.new count.new)) }
{
    call_held!(
        handle, alloc, Server,
        server => { server.waiting_text(index, buf, count); Code::Done }
    )
}

/// Sets `kind` to the number of the first signal among the entries that wait.
#[unsafe(no_mangle)]
pub extern "C" fn tn_server_signal_waiting(
    alloc: Global,
    handle: &mut Handle,
    kind: &mut u32,
) -> u32
    ensures { CallsServer handle.old.held handle.new.held result (kind.new ≡ kind.old)
        (Looks (λ server. (h : History) → LeadsTo h server.end →
        kind.new ≡ signal_number (first_signal (waiting h)))) }
{
    call_held!(handle, alloc, Server, server => { *kind = server.signal_waiting(); Code::Done })
}

/// Sets `bits` to the bits of `tn_change` for all that differs from the last such call, or from the
/// start.
#[unsafe(no_mangle)]
pub extern "C" fn tn_server_changes(alloc: Global, handle: &mut Handle, bits: &mut u32) -> u32
    ensures { CallsServer handle.old.held handle.new.held result (bits.new ≡ bits.old)
        (Does (ChangesCall bits.new)) }
{
    call_held!(handle, alloc, Server, server => { server.changes(bits); Code::Done })
}

/// Sets `width` and `height` to the window's size in characters; 0 is unspecified.
#[unsafe(no_mangle)]
pub extern "C" fn tn_server_size(
    alloc: Global,
    handle: &mut Handle,
    width: &mut u16,
    height: &mut u16,
) -> u32
    ensures { CallsServer handle.old.held handle.new.held result
        ((width.new ≡ width.old) × (height.new ≡ height.old))
        (Looks (λ server. (h : History) → LeadsTo h server.end → (width.new, height.new) ≡ size h)) }
{
    call_held!(handle, alloc, Server, server => { server.size(width, height); Code::Done })
}

/// Sets `mask` to the mask of the MODE that the client acknowledged last.
#[unsafe(no_mangle)]
pub extern "C" fn tn_server_mode(alloc: Global, handle: &mut Handle, mask: &mut u8) -> u32
    ensures { CallsServer handle.old.held handle.new.held result (mask.new ≡ mask.old)
        (Looks (λ server. (h : History) → LeadsTo h server.end → mask.new ≡ mode h)) }
{
    call_held!(handle, alloc, Server, server => { *mask = server.end.mode(); Code::Done })
}

/// Sets `mask` to the mask that the client was asked for last.
#[unsafe(no_mangle)]
pub extern "C" fn tn_server_asked(alloc: Global, handle: &mut Handle, mask: &mut u8) -> u32
    ensures { CallsServer handle.old.held handle.new.held result (mask.new ≡ mask.old)
        (Looks (λ server. (h : History) → LeadsTo h server.end → mask.new ≡ asked_mask h)) }
{
    call_held!(handle, alloc, Server, server => { *mask = server.end.asked(); Code::Done })
}

/// Copies the first bytes of the half-typed line, as many as fit, and sets `count` to the number of
/// all of them.
#[unsafe(no_mangle)]
pub extern "C" fn tn_server_half(
    alloc: Global,
    handle: &mut Handle,
    buf: &mut [u8],
    count: &mut usize,
) -> u32
    ensures { CallsServer handle.old.held handle.new.held result
        ((buf.new ≡ buf.old) × (count.new ≡ count.old))
        (Looks (λ server. (h : History) → LeadsTo h server.end → Gives (half h) buf.old buf.new count.new)) }
{
    call_held!(handle, alloc, Server, server => { server.half(buf, count); Code::Done })
}

/// Sets `value` to the special character of the function with this number, or to 256 if it is
/// disabled.
#[unsafe(no_mangle)]
pub extern "C" fn tn_server_char(
    alloc: Global,
    handle: &mut Handle,
    function: u8,
    value: &mut u16,
) -> u32
    ensures { CallsServer handle.old.held handle.new.held result (value.new ≡ value.old)
        (GivesChar function value.old value.new IsServerChar) }
{
    call_held!(handle, alloc, Server, server => server.function_char(function, value))
}

/// Sets `state` to the number of an option's state, at our side or at theirs.
#[unsafe(no_mangle)]
pub extern "C" fn tn_server_option(
    alloc: Global,
    handle: &mut Handle,
    ours: bool,
    option: u8,
    state: &mut u32,
) -> u32
    ensures { CallsServer handle.old.held handle.new.held result (state.new ≡ state.old)
        (Looks (λ server. (h : History) → LeadsTo h server.end →
        state.new ≡ state_number (state_of (options h) (side_given ours) option))) }
{
    call_held!(
        handle, alloc, Server,
        server => { *state = server.option(ours, option); Code::Done }
    )
}

/// Sets `failed` to whether a feed failed.
#[unsafe(no_mangle)]
pub extern "C" fn tn_server_failed(alloc: Global, handle: &mut Handle, failed: &mut bool) -> u32
    ensures { CallsServer handle.old.held handle.new.held result (failed.new ≡ failed.old)
        (Looks (λ server. failed.new ≡ (server.end.failed || server.owned.failed))) }
{
    call_held!(handle, alloc, Server, server => { *failed = server.failed(); Code::Done })
}
