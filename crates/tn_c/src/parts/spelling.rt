//! Spells items to a caller's buffer, as much of a spelling as fits, and sets `count` to the length
//! of the whole spelling.

ghost use Rattle.std.specs.Prelude.{◌≡◌};
ghost use Rattle.tn_nvt.specs.declared.items.Item.TheVariants as item;
ghost use Rattle.tn_c.specs.parts.Spelled.{Spells, SpellsCommand, SpellsWord, SpellsSub};

use crate::parts::bytes::give;
use crate::parts::codes::Code;
use std::alloc::Global;
use tn_codes::{Command, Verb};
use tn_nvt::{MAX_PARAMETERS, put_byte, put_cmd, put_neg, put_newline, put_sub};

/// Spells a byte of data, as much as fits, and sets `count` to the length of the whole spelling.
pub fn spell_byte(alloc: Global, byte: u8, buf: &mut [u8], count: &mut usize) -> Code
    ensures { Spells (item.Byte byte)
        (record { old_buf = buf.old; new_buf = buf.new; old_count = count.old; new_count = count.new })
        result }
{
    let mut out = Vec::new(alloc);
    match put_byte(byte, &mut out) {
        Ok(()) => {
            *count = give(out.as_slice(), buf);
            Code::Done
        },
        Err(_) => Code::Memory,
    }
}

/// Spells the end of a line, as much as fits, and sets `count` to the length of the whole spelling.
pub fn spell_newline(alloc: Global, buf: &mut [u8], count: &mut usize) -> Code
    ensures { Spells item.Newline
        (record { old_buf = buf.old; new_buf = buf.new; old_count = count.old; new_count = count.new })
        result }
{
    let mut out = Vec::new(alloc);
    match put_newline(&mut out) {
        Ok(()) => {
            *count = give(out.as_slice(), buf);
            Code::Done
        },
        Err(_) => Code::Memory,
    }
}

// Spells a command.
fn spell_known(alloc: Global, command: Command, buf: &mut [u8], count: &mut usize) -> Code
    ensures { Spells (item.Cmd command)
        (record { old_buf = buf.old; new_buf = buf.new; old_count = count.old; new_count = count.new })
        result }
{
    let mut out = Vec::new(alloc);
    match put_cmd(command, &mut out) {
        Ok(()) => {
            *count = give(out.as_slice(), buf);
            Code::Done
        },
        Err(_) => Code::Memory,
    }
}

/// Spells the command with this byte after IAC, as much as fits, and sets `count` to the length of
/// the whole spelling. It returns `NoCommand` if there is no such command.
pub fn spell_command(alloc: Global, byte: u8, buf: &mut [u8], count: &mut usize) -> Code
    ensures { SpellsCommand byte
        (record { old_buf = buf.old; new_buf = buf.new; old_count = count.old; new_count = count.new })
        result }
{
    match Command::from_code(byte) {
        Some(command) => spell_known(alloc, command, buf, count),
        None => Code::NoCommand,
    }
}

// Spells an option message.
fn spell_verb(alloc: Global, verb: Verb, option: u8, buf: &mut [u8], count: &mut usize) -> Code
    ensures { Spells (item.Neg verb option)
        (record { old_buf = buf.old; new_buf = buf.new; old_count = count.old; new_count = count.new })
        result }
{
    let mut out = Vec::new(alloc);
    match put_neg(verb, option, &mut out) {
        Ok(()) => {
            *count = give(out.as_slice(), buf);
            Code::Done
        },
        Err(_) => Code::Memory,
    }
}

/// Spells the option message whose verb has this byte after IAC, as much as fits, and sets `count`
/// to the length of the whole spelling. It returns `NoCommand` if there is no such verb.
pub fn spell_word(alloc: Global, byte: u8, option: u8, buf: &mut [u8], count: &mut usize) -> Code
    ensures { SpellsWord byte option
        (record { old_buf = buf.old; new_buf = buf.new; old_count = count.old; new_count = count.new })
        result }
{
    match Verb::from_code(byte) {
        Some(verb) => spell_verb(alloc, verb, option, buf, count),
        None => Code::NoCommand,
    }
}

/// Spells a subnegotiation of at most 512 parameters, as much as fits, and sets `count` to the
/// length of the whole spelling.
pub fn spell_sub(
    alloc: Global,
    option: u8,
    parameters: &[u8],
    buf: &mut [u8],
    count: &mut usize,
) -> Code
    ensures { SpellsSub option parameters.now
        (record { old_buf = buf.old; new_buf = buf.new; old_count = count.old; new_count = count.new })
        result }
{
    if parameters.len() > MAX_PARAMETERS {
        return Code::TooLong;
    }
    let mut out = Vec::new(alloc);
    match put_sub(option, parameters, &mut out) {
        Ok(()) => {
            *count = give(out.as_slice(), buf);
            Code::Done
        },
        Err(_) => Code::Memory,
    }
}
