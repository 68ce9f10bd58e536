//! Appends data as text.

ghost use Rattle.std.specs.{Prelude.{◌≡◌, ◌++◌, OnOk}, List.flat_map};
ghost use Rattle.tn_net.specs.printing.Texts.{byte_text, data_text};

use crate::printing::words::hex_digits;
use std::alloc::AllocError;

fn push_byte(byte: u8, out: &mut Vec<u8>) -> Result<(), AllocError>
    ensures { OnOk result (out.new.items ≡ out.old.items ++ byte_text byte) }
{
    match byte {
        b'"' | b'\\' => out.extend_from_slice(&[b'\\', byte]),
        b' '..=b'~' => {
            out.push(byte)?;
            Ok(())
        },
        _ => {
            let [high, low] = hex_digits(byte);
            out.extend_from_slice(&[b'\\', b'x', high, low])
        },
    }
}

fn push_bytes(bytes: &[u8], out: &mut Vec<u8>) -> Result<(), AllocError>
    ensures { OnOk result (out.new.items ≡ out.old.items ++ flat_map byte_text bytes.now) }
{
    for byte in bytes {
        push_byte(*byte, out)?;
    }
    Ok(())
}

/// Appends the text of data, which are in two parts.
pub(crate) fn push_data(first: &[u8], second: &[u8], out: &mut Vec<u8>) -> Result<(), AllocError>
    ensures { OnOk result (out.new.items ≡ out.old.items ++ data_text (first.now ++ second.now)) }
{
    out.extend_from_slice(b"data \"")?;
    push_bytes(first, out)?;
    push_bytes(second, out)?;
    out.extend_from_slice(b"\"")
}
