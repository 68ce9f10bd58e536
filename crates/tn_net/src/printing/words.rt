//! Appends names, numbers and bytes as text.

ghost use Rattle.std.specs.Prelude.{◌≡◌, [], ◌∷◌, ◌++◌, OnOk, decimal};
ghost use Rattle.hex.specs.Hex.{encode_lower};
ghost use Rattle.tn_net.specs.printing.Texts.{name_or_number, bit_word};

use itoa::Buffer;
use std::alloc::{AllocError, Global};

const HEX_DIGITS: [u8; 16] = *b"0123456789abcdef";

pub(crate) fn push_decimal(number: u16, out: &mut Vec<u8>) -> Result<(), AllocError>
    ensures { OnOk result (out.new.items ≡ out.old.items ++ decimal number) }
{
    let mut buffer = Buffer::new();
    out.extend_from_slice(buffer.format(number).as_bytes())
}

/// Appends the name, or the number if there is none.
pub(crate) fn push_named(name: &[u8], number: u8, out: &mut Vec<u8>) -> Result<(), AllocError>
    ensures { OnOk result (out.new.items ≡ out.old.items ++ name_or_number name.now number) }
{
    if name.is_empty() {
        return push_decimal(u16::from(number), out);
    }
    out.extend_from_slice(name)
}

/// Appends the word if this bit is set.
pub(crate) fn push_bit(bits: u8, bit: u8, word: &[u8], out: &mut Vec<u8>) -> Result<(), AllocError>
    ensures { OnOk result (out.new.items ≡ out.old.items ++ bit_word bits bit word.now) }
{
    if bits & bit == 0 {
        return Ok(());
    }
    out.extend_from_slice(word)
}

/// Returns a byte as two digits.
pub(crate) fn hex_digits(byte: u8) -> [u8; 2]
    ensures { result ≡ encode_lower (byte ∷ []) }
{
    [
        HEX_DIGITS[usize::from(byte / 16)],
        HEX_DIGITS[usize::from(byte % 16)],
    ]
}

pub(crate) fn push_hex(alloc: Global, bytes: &[u8], out: &mut Vec<u8>) -> Result<(), AllocError>
    ensures { OnOk result (out.new.items ≡ out.old.items ++ encode_lower bytes.now) }
{
    let digits = hex::encode(alloc, bytes)?;
    out.extend_from_slice(digits.as_bytes())
}
