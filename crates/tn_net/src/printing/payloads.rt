//! Appends the meaning of a subnegotiation's parameters.

ghost use Rattle.std.specs.Prelude.{◌≡◌, ◌++◌, OnOk, None, codes, decimal, flat_map};
ghost use Rattle.tn_codes.specs.PayloadOf.{payload_of};
ghost use Rattle.tn_net.specs.printing.Texts.{mode_words, high_bits_word, character_word, character_words};
ghost use Rattle.tn_net.specs.printing.Texts.{modifier_text, triple_text, triples_words, payload_words};
ghost use Rattle.tn_net.specs.printing.Texts.{parameters_words};

use crate::printing::names::{name_of_func, name_of_level};
use crate::printing::words::{hex_digits, push_bit, push_decimal, push_hex, push_named};
use std::alloc::{AllocError, Global};
use tn_codes::{
    ACK, EDIT, LEVEL_BITS, MODE_ACK, Mask, Payload, PayloadFault, TRAPSIG, Triple, read_payload,
};

/// The bits of the mask of MODE that no end keeps (RFC 1184, section 2.2).
const SOFT_TAB: u8 = 8;

const LIT_ECHO: u8 = 16;

/// The bits that have no names.
const HIGH_BITS: u8 = 224;

/// The bits of a modifier that flush (RFC 1184, section 2.4).
const FLUSH_OUT: u8 = 32;

const FLUSH_IN: u8 = 64;

/// Appends the meaning of these parameters, or else their digits, each after a space.
pub(crate) fn push_parameters(
    alloc: Global,
    option: u8,
    params: &[u8],
    out: &mut Vec<u8>,
) -> Result<(), AllocError>
    ensures { OnOk result
        (out.new.items ≡ out.old.items ++ parameters_words params.now (payload_of option params.now)) }
{
    match read_payload(alloc, option, params) {
        Ok(payload) => push_payload(&payload, out),
        Err(PayloadFault::Memory) => Err(AllocError),
        Err(_) => push_unread(alloc, params, out),
    }
}

fn push_unread(alloc: Global, params: &[u8], out: &mut Vec<u8>) -> Result<(), AllocError>
    ensures { OnOk result (out.new.items ≡ out.old.items ++ parameters_words params.now None) }
{
    if params.is_empty() {
        return Ok(());
    }
    out.extend_from_slice(b" ")?;
    push_hex(alloc, params, out)
}

fn push_payload(payload: &Payload, out: &mut Vec<u8>) -> Result<(), AllocError>
    ensures { OnOk result (out.new.items ≡ out.old.items ++ payload_words payload.now) }
{
    match payload {
        Payload::Naws { width, height } => push_size(*width, *height, out),
        Payload::Mode(mask) => push_mode(*mask, out),
        Payload::ForwardOn(mask) => push_mask(*mask, out),
        Payload::ForwardOff => out.extend_from_slice(b" DONT FORWARDMASK"),
        Payload::ForwardYes => out.extend_from_slice(b" WILL FORWARDMASK"),
        Payload::ForwardNo => out.extend_from_slice(b" WONT FORWARDMASK"),
        Payload::Slc(triples) => push_triples(triples.as_slice(), out),
    }
}

fn push_size(width: u16, height: u16, out: &mut Vec<u8>) -> Result<(), AllocError>
    ensures { OnOk result
        (out.new.items ≡ out.old.items ++ (codes " " ++ decimal width ++ codes " " ++ decimal height)) }
{
    out.extend_from_slice(b" ")?;
    push_decimal(width, out)?;
    out.extend_from_slice(b" ")?;
    push_decimal(height, out)
}

fn push_mode(mask: u8, out: &mut Vec<u8>) -> Result<(), AllocError>
    ensures { OnOk result (out.new.items ≡ out.old.items ++ (codes " MODE" ++ mode_words mask)) }
{
    if mask == 0 {
        return out.extend_from_slice(b" MODE 0");
    }
    out.extend_from_slice(b" MODE")?;
    push_bit(mask, EDIT, b" EDIT", out)?;
    push_bit(mask, TRAPSIG, b" TRAPSIG", out)?;
    push_bit(mask, MODE_ACK, b" MODE_ACK", out)?;
    push_bit(mask, SOFT_TAB, b" SOFT_TAB", out)?;
    push_bit(mask, LIT_ECHO, b" LIT_ECHO", out)?;
    push_high_bits(mask & HIGH_BITS, out)
}

fn push_high_bits(bits: u8, out: &mut Vec<u8>) -> Result<(), AllocError>
    ensures { OnOk result (out.new.items ≡ out.old.items ++ high_bits_word bits) }
{
    if bits == 0 {
        return Ok(());
    }
    let [high, low] = hex_digits(bits);
    out.extend_from_slice(&[b' ', high, low])
}

fn push_mask(mask: Mask, out: &mut Vec<u8>) -> Result<(), AllocError>
    ensures { OnOk result
        (out.new.items ≡ out.old.items ++ (codes " DO FORWARDMASK" ++ character_words mask 256)) }
{
    out.extend_from_slice(b" DO FORWARDMASK")?;
    push_characters(mask, out)
}

fn push_characters(mask: Mask, out: &mut Vec<u8>) -> Result<(), AllocError>
    ensures { OnOk result (out.new.items ≡ out.old.items ++ character_words mask 256) }
{
    for character in 0..256u16 {
        push_character(mask, character as u8, out)?;
    }
    Ok(())
}

fn push_character(mask: Mask, character: u8, out: &mut Vec<u8>) -> Result<(), AllocError>
    ensures { OnOk result (out.new.items ≡ out.old.items ++ character_word mask character) }
{
    if !mask.has(character) {
        return Ok(());
    }
    let [high, low] = hex_digits(character);
    out.extend_from_slice(&[b' ', high, low])
}

fn push_triples(triples: &[Triple], out: &mut Vec<u8>) -> Result<(), AllocError>
    ensures { OnOk result (out.new.items ≡ out.old.items ++ (codes " SLC" ++ triples_words triples.now)) }
{
    out.extend_from_slice(b" SLC")?;
    let [first, others @ ..] = triples else {
        return Ok(());
    };
    out.extend_from_slice(b" ")?;
    push_triple(*first, out)?;
    push_others(others, out)
}

// Appends triples that others stand before.
fn push_others(triples: &[Triple], out: &mut Vec<u8>) -> Result<(), AllocError>
    ensures { OnOk result (out.new.items ≡
        out.old.items ++ flat_map (λ other. codes ", " ++ triple_text other) triples.now) }
{
    for triple in triples {
        out.extend_from_slice(b", ")?;
        push_triple(*triple, out)?;
    }
    Ok(())
}

fn push_triple(triple: Triple, out: &mut Vec<u8>) -> Result<(), AllocError>
    ensures { OnOk result (out.new.items ≡ out.old.items ++ triple_text triple) }
{
    push_named(name_of_func(triple.func), triple.func, out)?;
    out.extend_from_slice(b" ")?;
    push_modifier(triple.flags, out)?;
    let [high, low] = hex_digits(triple.value);
    out.extend_from_slice(&[b' ', high, low])
}

fn push_modifier(flags: u8, out: &mut Vec<u8>) -> Result<(), AllocError>
    ensures { OnOk result (out.new.items ≡ out.old.items ++ modifier_text flags) }
{
    out.extend_from_slice(name_of_level(flags & LEVEL_BITS))?;
    push_bit(flags, ACK, b"|ACK", out)?;
    push_bit(flags, FLUSH_IN, b"|FLUSHIN", out)?;
    push_bit(flags, FLUSH_OUT, b"|FLUSHOUT", out)
}
