//! The calls that spell items, which need no handle.

ghost use Rattle.tn_nvt.specs.declared.items.Item.TheVariants as item;
ghost use Rattle.tn_c.specs.parts.{Codes.Answers, Spelled.{Spells, SpellsCommand, SpellsWord, SpellsSub}};

use crate::parts::{spell_byte, spell_command, spell_newline, spell_sub, spell_word};
use std::alloc::Global;

/// Spells a byte of data, as much as fits, and sets `count` to the length of the whole spelling.
#[unsafe(no_mangle)]
pub extern "C" fn tn_put_byte(alloc: Global, byte: u8, buf: &mut [u8], count: &mut usize) -> u32
    ensures { Answers result (Spells (item.Byte byte)
        (record { old_buf = buf.old; new_buf = buf.new; old_count = count.old; new_count = count.new })) }
{
    spell_byte(alloc, byte, buf, count).number()
}

/// Spells the end of a line, as much as fits, and sets `count` to the length of the whole spelling.
#[unsafe(no_mangle)]
pub extern "C" fn tn_put_newline(alloc: Global, buf: &mut [u8], count: &mut usize) -> u32
    ensures { Answers result (Spells item.Newline
        (record { old_buf = buf.old; new_buf = buf.new; old_count = count.old; new_count = count.new })) }
{
    spell_newline(alloc, buf, count).number()
}

/// Spells the command with this byte, as much as fits, and sets `count` to the length of the whole
/// spelling.
#[unsafe(no_mangle)]
pub extern "C" fn tn_put_command(
    alloc: Global,
    command: u8,
    buf: &mut [u8],
    count: &mut usize,
) -> u32
    ensures { Answers result (SpellsCommand command
        (record { old_buf = buf.old; new_buf = buf.new; old_count = count.old; new_count = count.new })) }
{
    spell_command(alloc, command, buf, count).number()
}

/// Spells the option message whose verb has this byte, as much as fits, and sets `count` to the
/// length of the whole spelling.
#[unsafe(no_mangle)]
pub extern "C" fn tn_put_option(
    alloc: Global,
    word: u8,
    option: u8,
    buf: &mut [u8],
    count: &mut usize,
) -> u32
    ensures { Answers result (SpellsWord word option
        (record { old_buf = buf.old; new_buf = buf.new; old_count = count.old; new_count = count.new })) }
{
    spell_word(alloc, word, option, buf, count).number()
}

/// Spells a subnegotiation, as much as fits, and sets `count` to the length of the whole spelling.
#[unsafe(no_mangle)]
pub extern "C" fn tn_put_sub(
    alloc: Global,
    option: u8,
    parameters: &[u8],
    buf: &mut [u8],
    count: &mut usize,
) -> u32
    ensures { Answers result (SpellsSub option parameters.now
        (record { old_buf = buf.old; new_buf = buf.new; old_count = count.old; new_count = count.new })) }
{
    spell_sub(alloc, option, parameters, buf, count).number()
}
