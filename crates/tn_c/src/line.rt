//! The calls of a line: keys to entries.

ghost use Rattle.std.specs.Prelude.{◌≡◌, None};
ghost use Rattle.tn_discipline.specs.Limits.{is_limit};
ghost use Rattle.tn_c.specs.parts.{Bytes.Gives, Entries.text_of, Readings.char_given, Terminals.flags_given};
ghost use Rattle.tn_c.specs.parts.{Calling.{Looks, LooksBy, Does, OfFunction, GivesChar}, Echoes.GivesEcho};
ghost use Rattle.tn_c.specs.parts.LineCalls.{IsLineChar, IsEmpty, KeyCall, HalfGiven, SetFlagsCall};
ghost use Rattle.tn_c.specs.{parts.LineCalls.SetCharCall, Holding.{HoldsLine, CallsLine, Starts, NoPointer}};

use crate::calls::call_held;
use crate::handle::Handle;
use crate::held::Held;
use crate::parts::{Code, HeldLine, TerminalFlags};
use std::alloc::Global;
use tn_discipline::Limit;

/// Puts an empty line into the handle, under these flags and the standard special characters, of at most
/// `limit` bytes, 255 to 4,095.
#[unsafe(no_mangle)]
pub extern "C" fn tn_line_start(
    alloc: Global,
    handle: &mut Handle,
    flags: &TerminalFlags,
    limit: u16,
) -> u32
    ensures { Starts handle.old.held handle.new.held result (is_limit limit)
        (λ held. HoldsLine held (IsEmpty (flags_given flags.now) limit)) }
{
    if handle.is_started(alloc) {
        return Code::Started.number();
    }
    let Some(limit) = Limit::new(limit) else {
        return Code::NoLimit.number();
    };
    let Ok(line) = HeldLine::start(alloc, flags.flags(), limit) else {
        return Code::Memory.number();
    };
    handle.hold(alloc, Held::Line(line)).number()
}

/// Gives up what the handle holds, if it holds something, and all of its memory.
#[unsafe(no_mangle)]
pub extern "C" fn tn_line_free(alloc: Global, handle: &mut Handle)
    ensures { handle.new.held ≡ None }
{
    handle.free(alloc);
}

/// Types a key, and sets `effect` to the number of its effect.
#[unsafe(no_mangle)]
pub extern "C" fn tn_line_key(alloc: Global, handle: &mut Handle, key: u8, effect: &mut u32) -> u32
    ensures { CallsLine handle.old.held handle.new.held result (effect.new ≡ effect.old)
        (KeyCall key effect.old effect.new) }
{
    call_held!(handle, alloc, Line, line => line.key(key, effect))
}

/// Copies the first bytes of the text that the last key gave, as many as fit, and sets `count` to
/// the number of all of them.
#[unsafe(no_mangle)]
pub extern "C" fn tn_line_text(
    alloc: Global,
    handle: &mut Handle,
    buf: &mut [u8],
    count: &mut usize,
) -> u32
    ensures { CallsLine handle.old.held handle.new.held result ((buf.new ≡ buf.old) × (count.new ≡ count.old))
        (Looks (λ line. Gives (text_of line.entry) buf.old buf.new count.new)) }
{
    call_held!(handle, alloc, Line, line => { line.text(buf, count); Code::Done })
}

/// Copies the bytes that a terminal shows of the last key, as many as fit, and sets `count` to the
/// number of all of them.
#[unsafe(no_mangle)]
pub extern "C" fn tn_line_echo(
    alloc: Global,
    handle: &mut Handle,
    buf: &mut [u8],
    count: &mut usize,
) -> u32
    ensures { CallsLine handle.old.held handle.new.held result ((buf.new ≡ buf.old) × (count.new ≡ count.old))
        (LooksBy (λ line. GivesEcho line.echo
        (record { old_buf = buf.old; new_buf = buf.new; old_count = count.old; new_count = count.new }))) }
{
    call_held!(handle, alloc, Line, line => line.echo(alloc, buf, count))
}

/// Copies the first bytes of the half-typed line, as many as fit, and sets `count` to the number of
/// all of them.
#[unsafe(no_mangle)]
pub extern "C" fn tn_line_half(
    alloc: Global,
    handle: &mut Handle,
    buf: &mut [u8],
    count: &mut usize,
) -> u32
    ensures { CallsLine handle.old.held handle.new.held result ((buf.new ≡ buf.old) × (count.new ≡ count.old))
        (Looks (HalfGiven buf.old buf.new count.new)) }
{
    call_held!(handle, alloc, Line, line => { line.half(buf, count); Code::Done })
}

/// Sets the flags of the line; the half-typed line stays.
#[unsafe(no_mangle)]
pub extern "C" fn tn_line_set_flags(
    alloc: Global,
    handle: &mut Handle,
    flags: &TerminalFlags,
) -> u32
    ensures { CallsLine handle.old.held handle.new.held result NoPointer
        (Does (SetFlagsCall (flags_given flags.now))) }
{
    call_held!(handle, alloc, Line, line => { line.set_flags(flags.flags()); Code::Done })
}

/// Changes the special character of the function with this number, or disables it; the half-typed
/// line stays.
#[unsafe(no_mangle)]
pub extern "C" fn tn_line_set_char(
    alloc: Global,
    handle: &mut Handle,
    function: u8,
    value: u16,
) -> u32
    ensures { CallsLine handle.old.held handle.new.held result NoPointer
        (OfFunction function (SetCharCall (char_given value))) }
{
    call_held!(handle, alloc, Line, line => line.set_function(function, value))
}

/// Sets `value` to the special character of the function with this number, or to 256 if it is
/// disabled.
#[unsafe(no_mangle)]
pub extern "C" fn tn_line_char(
    alloc: Global,
    handle: &mut Handle,
    function: u8,
    value: &mut u16,
) -> u32
    ensures { CallsLine handle.old.held handle.new.held result (value.new ≡ value.old)
        (GivesChar function value.old value.new IsLineChar) }
{
    call_held!(handle, alloc, Line, line => line.function_char(function, value))
}
