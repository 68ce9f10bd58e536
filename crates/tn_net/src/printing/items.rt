//! Appends the text of an item.

ghost use Rattle.std.specs.Prelude.{◌≡◌, ◌++◌, OnOk, codes};
ghost use Rattle.tn_codes.specs.PayloadOf.{payload_of};
ghost use Rattle.tn_net.specs.printing.{Names.verb_name, Texts.{item_text, option_text, parameters_words}};

use crate::printing::data::push_data;
use crate::printing::names::{name_of_command, name_of_option, name_of_verb};
use crate::printing::payloads::push_parameters;
use crate::printing::words::push_named;
use std::alloc::{AllocError, Global};
use tn_codes::{Command, Verb};
use tn_nvt::Item;

pub(crate) fn push_item(alloc: Global, item: &Item, out: &mut Vec<u8>) -> Result<(), AllocError>
    ensures { OnOk result (out.new.items ≡ out.old.items ++ item_text item.now) }
{
    match item {
        Item::Byte(byte) => push_data(&[], &[*byte], out),
        Item::Newline => out.extend_from_slice(b"newline"),
        Item::Cmd(command) => push_command(*command, out),
        Item::Neg(verb, option) => push_option_word(*verb, *option, out),
        Item::Sub(option, params) => push_sub(alloc, *option, params.as_slice(), out),
    }
}

fn push_command(command: Command, out: &mut Vec<u8>) -> Result<(), AllocError>
    ensures { OnOk result (out.new.items ≡ out.old.items ++ item_text (Item.Cmd command)) }
{
    out.extend_from_slice(b"IAC ")?;
    out.extend_from_slice(name_of_command(command))
}

fn push_option_word(verb: Verb, option: u8, out: &mut Vec<u8>) -> Result<(), AllocError>
    ensures { OnOk result (out.new.items ≡ out.old.items ++ item_text (Item.Neg verb option)) }
{
    out.extend_from_slice(b"IAC ")?;
    out.extend_from_slice(name_of_verb(verb))?;
    out.extend_from_slice(b" ")?;
    push_named(name_of_option(option), option, out)
}

fn push_sub(alloc: Global, option: u8, params: &[u8], out: &mut Vec<u8>) -> Result<(), AllocError>
    ensures { OnOk result (out.new.items ≡ out.old.items ++ item_text (Item.Sub option params.now)) }
{
    out.extend_from_slice(b"IAC SB ")?;
    push_named(name_of_option(option), option, out)?;
    push_parameters(alloc, option, params, out)
}
