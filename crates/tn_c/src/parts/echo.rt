//! The echo of a key, as bytes.

ghost use Rattle.std.specs.Prelude.{◌≡◌, ◌++◌, IfOk, OnOk};
ghost use Rattle.tn_c.specs.parts.Echoes.{symbol_bytes, echo_bytes};

use std::alloc::{AllocError, Global};
use tn_discipline::Symbol;

// Appends the bytes that a symbol shows, if there is one.
fn show(symbol: Option<Symbol>, out: &mut Vec<u8>) -> Result<(), AllocError>
    ensures { OnOk result (out.new.items ≡ out.old.items ++ symbol_bytes symbol) }
{
    match symbol {
        None => Ok(()),
        Some(Symbol::Byte(byte)) => out.extend_from_slice(&[byte]),
        Some(Symbol::Newline) => out.extend_from_slice(b"\r\n"),
    }
}

/// Returns the bytes of the symbols of a key.
pub(crate) fn shown_bytes(alloc: Global, echo: [Option<Symbol>; 3]) -> Result<Vec<u8>, AllocError>
    ensures { IfOk result (λ bytes. bytes.items ≡ echo_bytes echo) }
{
    let [first, second, third] = echo;
    let mut out = Vec::new(alloc);
    show(first, &mut out)?;
    show(second, &mut out)?;
    show(third, &mut out)?;
    Ok(out)
}
