//! The calls of a client end.

ghost use Rattle.std.specs.Prelude.{◌≡◌, ◌||◌, None, length};
ghost use Rattle.tn_discipline.specs.Limits.{is_limit};
ghost use Rattle.tn_c.specs.parts.{Calling.{Looks, Does, OfFunction, GivesChar}, Readings.char_given};
ghost use Rattle.tn_c.specs.parts.ClientCalls.{IsOpened, KeyCall, FeedCall, ResizeCall, ProposeCall};
ghost use Rattle.tn_c.specs.parts.ClientCalls.{NewLineCall, SendNumberCall, ReadCall, ScreenCall, GivesMode};
ghost use Rattle.tn_c.specs.parts.ClientCalls.{GivesHalf, GivesAhead, GivesCounts, GivesOption, IsClientChar};
ghost use Rattle.tn_c.specs.parts.ClientCalls.{OnOwned, SayOwnCall, SayOwnSubCall};
ghost use Rattle.tn_c.specs.parts.{Bytes.Gives, Items.parameters_of, OwnOptions.{OwnCall, TakeOwnCall}};
ghost use Rattle.tn_c.specs.Holding.{HoldsClient, CallsClient, Starts, NoPointer};

use crate::calls::call_held;
use crate::handle::Handle;
use crate::held::Held;
use crate::parts::{Code, HeldClient, ItemSeen};
use std::alloc::Global;
use tn_discipline::Limit;

/// Puts a client end into the handle, whose window has this size in characters, 0 for a dimension
/// that is not known, and whose lines have at most `limit` bytes, 255 to 4,095.
#[unsafe(no_mangle)]
pub extern "C" fn tn_client_start(
    alloc: Global,
    handle: &mut Handle,
    width: u16,
    height: u16,
    limit: u16,
) -> u32
    ensures { Starts handle.old.held handle.new.held result (is_limit limit)
        (λ held. HoldsClient held (IsOpened width height limit)) }
{
    if handle.is_started(alloc) {
        return Code::Started.number();
    }
    let Some(limit) = Limit::new(limit) else {
        return Code::NoLimit.number();
    };
    let Ok(client) = HeldClient::start(alloc, width, height, limit) else {
        return Code::Memory.number();
    };
    handle.hold(alloc, Held::Client(client)).number()
}

/// Gives up what the handle holds, if it holds something, and all of its memory.
#[unsafe(no_mangle)]
pub extern "C" fn tn_client_free(alloc: Global, handle: &mut Handle)
    ensures { handle.new.held ≡ None }
{
    handle.free(alloc);
}

/// Types a key: the bytes that it sends wait to be read, and its echo waits to be shown.
#[unsafe(no_mangle)]
pub extern "C" fn tn_client_key(alloc: Global, handle: &mut Handle, key: u8) -> u32
    ensures { CallsClient handle.old.held handle.new.held result NoPointer
        (KeyCall key) }
{
    call_held!(handle, alloc, Client, client => client.key(key))
}

/// Enters a new line: the key LF, which goes to the server as CR LF, also if keys go one at a time.
#[unsafe(no_mangle)]
pub extern "C" fn tn_client_new_line(alloc: Global, handle: &mut Handle) -> u32
    ensures { CallsClient handle.old.held handle.new.held result NoPointer
        NewLineCall }
{
    call_held!(handle, alloc, Client, client => client.new_line())
}

/// Takes a piece of the server's stream, cut anywhere: replies wait to be read, text waits to be
/// shown.
#[unsafe(no_mangle)]
pub extern "C" fn tn_client_feed(alloc: Global, handle: &mut Handle, bytes: &[u8]) -> u32
    ensures { CallsClient handle.old.held handle.new.held result NoPointer
        (FeedCall bytes.now) }
{
    call_held!(handle, alloc, Client, client => client.feed(bytes))
}

/// Takes a new size of the window, which is to be sent if NAWS is on and the size changed.
#[unsafe(no_mangle)]
pub extern "C" fn tn_client_resize(
    alloc: Global,
    handle: &mut Handle,
    width: u16,
    height: u16,
) -> u32
    ensures { CallsClient handle.old.held handle.new.held result NoPointer
        (ResizeCall width height) }
{
    call_held!(handle, alloc, Client, client => client.resize(width, height))
}

/// Proposes a special character for the function with this number to the server.
#[unsafe(no_mangle)]
pub extern "C" fn tn_client_propose(
    alloc: Global,
    handle: &mut Handle,
    function: u8,
    value: u16,
) -> u32
    ensures { CallsClient handle.old.held handle.new.held result NoPointer
        (OfFunction function (ProposeCall (char_given value))) }
{
    call_held!(handle, alloc, Client, client => client.propose_function(function, value))
}

/// Sends the command with this number, before the bytes of a line that are held, which stay as they
/// are.
#[unsafe(no_mangle)]
pub extern "C" fn tn_client_send(alloc: Global, handle: &mut Handle, command: u32) -> u32
    ensures { CallsClient handle.old.held handle.new.held result NoPointer
        (SendNumberCall command) }
{
    call_held!(handle, alloc, Client, client => client.send_command(command))
}

/// Owns an option, before anything came: its option messages and subnegotiations wait from then on,
/// and the end gets none of them.
#[unsafe(no_mangle)]
pub extern "C" fn tn_client_own(alloc: Global, handle: &mut Handle, option: u8) -> u32
    ensures { CallsClient handle.old.held handle.new.held result NoPointer
        (λ answer. OnOwned (OwnCall option answer)) }
{
    call_held!(handle, alloc, Client, client => client.own(option))
}

/// Takes the first item of owned options that waits, if there is one.
#[unsafe(no_mangle)]
pub extern "C" fn tn_client_take_own(alloc: Global, handle: &mut Handle, item: &mut ItemSeen) -> u32
    ensures { CallsClient handle.old.held handle.new.held result (item.new ≡ item.old)
        (Does (OnOwned (TakeOwnCall item.new))) }
{
    call_held!(handle, alloc, Client, client => { client.take_own(item); Code::Done })
}

/// Copies the first parameters of the item of owned options that was taken last, as many as fit,
/// and sets `count` to the number of all of them.
#[unsafe(no_mangle)]
pub extern "C" fn tn_client_own_parameters(
    alloc: Global,
    handle: &mut Handle,
    buf: &mut [u8],
    count: &mut usize,
) -> u32
    ensures { CallsClient handle.old.held handle.new.held result
        ((buf.new ≡ buf.old) × (count.new ≡ count.old))
        (Looks (λ client. Gives (parameters_of client.owned.item) buf.old buf.new count.new)) }
{
    call_held!(
        handle, alloc, Client,
        client => { client.owned.parameters(buf, count); Code::Done }
    )
}

/// Sends an option message of an owned option, whose verb has this byte.
#[unsafe(no_mangle)]
pub extern "C" fn tn_client_say_own(alloc: Global, handle: &mut Handle, option: u8, word: u8) -> u32
    ensures { CallsClient handle.old.held handle.new.held result NoPointer
        (SayOwnCall option word) }
{
    call_held!(handle, alloc, Client, client => client.say_own(option, word))
}

/// Sends a subnegotiation of an owned option, of at most 512 parameters.
#[unsafe(no_mangle)]
pub extern "C" fn tn_client_say_own_sub(
    alloc: Global,
    handle: &mut Handle,
    option: u8,
    parameters: &[u8],
) -> u32
    ensures { CallsClient handle.old.held handle.new.held result NoPointer
        (SayOwnSubCall option parameters.now) }
{
    call_held!(handle, alloc, Client, client => client.say_own_sub(option, parameters))
}

/// Sets `count` to the number of bytes that wait to be sent.
#[unsafe(no_mangle)]
pub extern "C" fn tn_client_pending(alloc: Global, handle: &mut Handle, count: &mut usize) -> u32
    ensures { CallsClient handle.old.held handle.new.held result (count.new ≡ count.old)
        (Looks (λ client. count.new ≡ length client.pending.items)) }
{
    call_held!(handle, alloc, Client, client => { *count = client.pending.len(); Code::Done })
}

/// Moves the first bytes that are to be sent, as many as fit, and sets `count` to their number; the
/// others stay.
#[unsafe(no_mangle)]
pub extern "C" fn tn_client_read(
    alloc: Global,
    handle: &mut Handle,
    buf: &mut [u8],
    count: &mut usize,
) -> u32
    ensures { CallsClient handle.old.held handle.new.held result
        ((buf.new ≡ buf.old) × (count.new ≡ count.old))
        (Does (ReadCall buf.old buf.new count.new)) }
{
    call_held!(handle, alloc, Client, client => { client.read(buf, count); Code::Done })
}

/// Sets `count` to the number of bytes that wait to be shown.
#[unsafe(no_mangle)]
pub extern "C" fn tn_client_screen_pending(
    alloc: Global,
    handle: &mut Handle,
    count: &mut usize,
) -> u32
    ensures { CallsClient handle.old.held handle.new.held result (count.new ≡ count.old)
        (Looks (λ client. count.new ≡ length client.shown.items)) }
{
    call_held!(handle, alloc, Client, client => { *count = client.shown.len(); Code::Done })
}

/// Moves the first bytes that are to be shown, as many as fit, and sets `count` to their number;
/// the others stay.
#[unsafe(no_mangle)]
pub extern "C" fn tn_client_screen(
    alloc: Global,
    handle: &mut Handle,
    buf: &mut [u8],
    count: &mut usize,
) -> u32
    ensures { CallsClient handle.old.held handle.new.held result
        ((buf.new ≡ buf.old) × (count.new ≡ count.old))
        (Does (ScreenCall buf.old buf.new count.new)) }
{
    call_held!(handle, alloc, Client, client => { client.screen(buf, count); Code::Done })
}

/// Sets `mask` to the mask in force: EDIT (1) and TRAPSIG (2).
#[unsafe(no_mangle)]
pub extern "C" fn tn_client_mode(alloc: Global, handle: &mut Handle, mask: &mut u8) -> u32
    ensures { CallsClient handle.old.held handle.new.held result (mask.new ≡ mask.old)
        (Looks (GivesMode mask.new)) }
{
    call_held!(handle, alloc, Client, client => { *mask = client.end.mode(); Code::Done })
}

/// Copies the first bytes of the half-typed line that the client holds, as many as fit, and sets
/// `count` to the number of all of them.
#[unsafe(no_mangle)]
pub extern "C" fn tn_client_half(
    alloc: Global,
    handle: &mut Handle,
    buf: &mut [u8],
    count: &mut usize,
) -> u32
    ensures { CallsClient handle.old.held handle.new.held result
        ((buf.new ≡ buf.old) × (count.new ≡ count.old))
        (Looks (GivesHalf buf.old buf.new count.new)) }
{
    call_held!(handle, alloc, Client, client => { client.half(buf, count); Code::Done })
}

/// Sets `count` to the number of bytes of the half-typed line that were sent before those that are
/// held.
#[unsafe(no_mangle)]
pub extern "C" fn tn_client_ahead(alloc: Global, handle: &mut Handle, count: &mut u16) -> u32
    ensures { CallsClient handle.old.held handle.new.held result (count.new ≡ count.old)
        (Looks (GivesAhead count.new)) }
{
    call_held!(handle, alloc, Client, client => { *count = client.end.ahead(); Code::Done })
}

/// Sets `trapped` and `plain` to the length of a half-typed line that the server edits, if its ISIG
/// is set and if it is clear.
#[unsafe(no_mangle)]
pub extern "C" fn tn_client_counts(
    alloc: Global,
    handle: &mut Handle,
    trapped: &mut u16,
    plain: &mut u16,
) -> u32
    ensures { CallsClient handle.old.held handle.new.held result
        ((trapped.new ≡ trapped.old) × (plain.new ≡ plain.old))
        (Looks (GivesCounts trapped.new plain.new)) }
{
    call_held!(handle, alloc, Client, client => { client.counts(trapped, plain); Code::Done })
}

/// Sets `value` to the special character of the function with this number, or to 256 if it is
/// disabled.
#[unsafe(no_mangle)]
pub extern "C" fn tn_client_char(
    alloc: Global,
    handle: &mut Handle,
    function: u8,
    value: &mut u16,
) -> u32
    ensures { CallsClient handle.old.held handle.new.held result (value.new ≡ value.old)
        (GivesChar function value.old value.new IsClientChar) }
{
    call_held!(handle, alloc, Client, client => client.function_char(function, value))
}

/// Sets `state` to the number of an option's state, at our side or at theirs.
#[unsafe(no_mangle)]
pub extern "C" fn tn_client_option(
    alloc: Global,
    handle: &mut Handle,
    ours: bool,
    option: u8,
    state: &mut u32,
) -> u32
    ensures { CallsClient handle.old.held handle.new.held result (state.new ≡ state.old)
        (Looks (GivesOption ours option state.new)) }
{
    call_held!(
        handle, alloc, Client,
        client => { *state = client.option(ours, option); Code::Done }
    )
}

/// Sets `failed` to whether a feed failed.
#[unsafe(no_mangle)]
pub extern "C" fn tn_client_failed(alloc: Global, handle: &mut Handle, failed: &mut bool) -> u32
    ensures { CallsClient handle.old.held handle.new.held result (failed.new ≡ failed.old)
        (Looks (λ client. failed.new ≡ (client.end.failed || client.owned.failed))) }
{
    call_held!(handle, alloc, Client, client => { *failed = client.failed(); Code::Done })
}
