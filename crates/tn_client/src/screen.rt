//! Writes the bytes of a client end's screen.

ghost use Rattle.std.specs.Prelude.{◌≡◌, ◌+◌, ◌≤◌, ◌++◌, ◌∷◌, [], length, vec_len, vec_capacity, OnOk, OnErr};
ghost use Rattle.std.specs.List.{flat_map};
ghost use Rattle.tn_nvt.specs.Room.{LacksRoom};
ghost use Rattle.tn_client.specs.Screen.{on_screen, new_line, echoed_raw};

use std::alloc::AllocError;
use tn_discipline::Symbol;

const NEW_LINE: [u8; 2] = [b'\r', b'\n'];

/// Shows a new line.
pub(crate) fn show_new_line(screen: &mut Vec<u8>) -> Result<(), AllocError>
    ensures ok { OnOk result (screen.new.items ≡ screen.old.items ++ new_line) }
    ensures err { OnErr result (screen.new.items ≡ screen.old.items) }
    ensures full { OnErr result (LacksRoom screen.old (length new_line)) }
{
    screen.extend_from_slice(&NEW_LINE)
}

/// Shows a byte as it is.
pub(crate) fn show_byte(byte: u8, screen: &mut Vec<u8>) -> Result<(), AllocError>
    ensures ok { OnOk result (screen.new.items ≡ screen.old.items ++ byte ∷ []) }
    ensures err { OnErr result (screen.new.items ≡ screen.old.items) }
    ensures full { OnErr result (LacksRoom screen.old 1) }
{
    screen.extend_from_slice(&[byte])
}

/// Echoes a key that is sent at once.
pub(crate) fn echo_raw(key: u8, screen: &mut Vec<u8>) -> Result<(), AllocError>
    ensures ok { OnOk result (screen.new.items ≡ screen.old.items ++ echoed_raw key) }
    ensures err { OnErr result (screen.new.items ≡ screen.old.items) }
    ensures full { OnErr result (LacksRoom screen.old (length (echoed_raw key))) }
{
    if key == b'\n' || key == b'\r' {
        return show_new_line(screen);
    }
    show_byte(key, screen)
}

/// Shows those of the symbols that are there, for which there is room.
pub(crate) fn show_all(symbols: &[Option<Symbol>], screen: &mut Vec<u8>)
    requires { vec_len screen.old + length (flat_map on_screen symbols.now) ≤ vec_capacity screen.old }
    ensures { screen.new.items ≡ screen.old.items ++ flat_map on_screen symbols.now }
{
    for symbol in symbols {
        show(*symbol, screen);
    }
}

fn show(symbol: Option<Symbol>, screen: &mut Vec<u8>)
    requires { vec_len screen.old + length (on_screen symbol) ≤ vec_capacity screen.old }
    ensures items { screen.new.items ≡ screen.old.items ++ on_screen symbol }
    ensures len { vec_len screen.new ≡ vec_len screen.old + length (on_screen symbol) }
    ensures capacity { vec_capacity screen.new ≡ vec_capacity screen.old }
{
    match symbol {
        None => {},
        Some(Symbol::Byte(byte)) => screen.push_reserved(byte),
        Some(Symbol::Newline) => {
            screen.push_reserved(b'\r');
            screen.push_reserved(b'\n');
        },
    }
}
