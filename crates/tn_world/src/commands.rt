//! The key that a command of the user stands for.

ghost use Rattle.std.specs.Prelude.{◌≡◌};
ghost use Rattle.tn_world.specs.Commands.{key_if, interrupt_key, key_for};

use tn_client::UserCommand;
use tn_codes::Func;
use tn_discipline::{Role, Settings, Sig, role_of};

// Returns this key, if its role is to interrupt.
fn key_if(role: Role, key: u8) -> Option<u8>
    ensures { result ≡ key_if role key }
{
    match role {
        Role::Signal(Sig::Int) => Some(key),
        _ => None,
    }
}

// Returns the key that interrupts at a terminal with these settings, if there is one.
fn interrupt_key(settings: &Settings) -> Option<u8>
    ensures { result ≡ interrupt_key settings.now }
{
    match settings.chars.get(Func::Ip) {
        None => None,
        Some(key) => key_if(role_of(settings, key), key),
    }
}

/// Returns the key that the command stands for at a terminal with these settings, if there is one.
pub(crate) fn key_for(command: UserCommand, settings: &Settings) -> Option<u8>
    ensures { result ≡ key_for command settings.now }
{
    match command {
        UserCommand::Brk | UserCommand::Ip => interrupt_key(settings),
        UserCommand::Ayt | UserCommand::Nop => None,
    }
}
