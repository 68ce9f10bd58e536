//! The echo: the symbols that a terminal shows for typed keys.

ghost use Rattle.std.specs.Prelude.{◌≡◌};
ghost use Rattle.tn_discipline.specs.{Echo.{echo_at, one_shown}, Keys.role_of_key};

use crate::half_line::Effect;
use crate::keys::{Role, role_of};
use crate::termios::{Flags, Settings};

/// A symbol that a terminal shows: a byte, or a new line.
#[derive(Clone, Copy, PartialEq, Eq)]
pub enum Symbol {
    Byte(u8),
    Newline,
}

/// BEL, which is shown for a byte that the line has no room for.
pub const BELL: u8 = 7;

const BACKSPACE: u8 = 8;

const SPACE: u8 = b' ';

fn one_if(shown: bool, symbol: Symbol) -> [Option<Symbol>; 3]
    ensures { result ≡ one_shown shown symbol }
{
    [shown.then_some(symbol), None, None]
}

/// Returns the symbols that a terminal shows of a key that had this effect, in order (XBD 11.2.5).
/// The places that are not needed are the last ones.
pub fn echo_of(effect: &Effect, key: u8, settings: &Settings) -> [Option<Symbol>; 3]
    ensures { result ≡ echo_at settings.now.flags (role_of_key settings.now key) effect.now }
{
    echo_of_role(effect, role_of(settings, key), &settings.flags)
}

/// Returns the symbols that a terminal shows of a key of this role that had this effect, in order
/// (XBD 11.2.5). It is `echo_of` for a role that was looked up before.
pub fn echo_of_role(effect: &Effect, role: Role, flags: &Flags) -> [Option<Symbol>; 3]
    ensures { result ≡ echo_at flags.now role effect.now }
{
    match (role, effect) {
        (Role::Ordinary(_), Effect::Dropped) => one_if(flags.echo, Symbol::Byte(BELL)),
        (Role::Ordinary(byte) | Role::Eol(byte) | Role::Eol2(byte), _) => one_if(
            flags.echo,
            Symbol::Byte(byte),
        ),
        (Role::Nl, _) => one_if(flags.echo || flags.echonl, Symbol::Newline),
        (Role::Kill, _) => one_if(flags.echo && flags.echok, Symbol::Newline),
        (Role::Erase, Effect::Erased | Effect::ErasedAhead) if flags.echo && flags.echoe => {
            let back = Some(Symbol::Byte(BACKSPACE));
            [back, Some(Symbol::Byte(SPACE)), back]
        }
        (Role::Erase | Role::Ignored | Role::Eof | Role::Signal(_), _) => [None, None, None],
    }
}
