//! The numbers of the facts that an end reports of itself.

ghost use Rattle.std.specs.Prelude.{◌≡◌, ◌≢◌, ◌↔◌, ◌⊎◌, Some};
ghost use Rattle.tn_client.specs.declared.commands.UserCommand.{UserCommand};
ghost use Rattle.tn_codes.specs.{Codes.func_code, declared.codes.Func.Func};
ghost use Rattle.tn_discipline.specs.Characters.{AreAllowed, slot};
ghost use Rattle.tn_c.specs.parts.Readings.{char_number, char_given, command_number, editing_given};
ghost use Rattle.tn_c.specs.parts.Readings.{side_given, state_number};
ghost use Rattle.tn_c.specs.declared.parts.codes.Code.TheVariants as code;

use crate::parts::codes::Code;
use tn_client::UserCommand;
use tn_codes::Func;
use tn_discipline::Chars;
use tn_option::{QState, Side};
use tn_server::Editing;

/// The number of no character, which no byte has.
const NO_CHAR: u16 = 256;

/// Returns the number as which C sees a special character.
pub(crate) fn char_number(value: Option<u8>) -> u16
    ensures { result ≡ char_number value }
{
    match value {
        None => NO_CHAR,
        Some(byte) => u16::from(byte),
    }
}

/// Returns the special character that C gives: none by a number that no byte has.
pub(crate) fn char_given(value: u16) -> Option<u8>
    ensures { result ≡ char_given value }
{
    if value < NO_CHAR {
        Some(value as u8)
    } else {
        None
    }
}

/// Sets `value` to the number of the special character of the function with this number; 256 if it
/// is disabled.
pub(crate) fn give_char(chars: &Chars, function: u8, value: &mut u16) -> Code
    ensures codes { (result ≡ code.Done) ⊎ (result ≡ code.NoFunction) }
    ensures value { (func : Func) → func_code func ≡ function →
        value.new ≡ char_number (slot chars.now func) }
    ensures allowed { result ≡ code.Done → AreAllowed chars.now }
    ensures no_function { (result ≡ code.NoFunction) ↔ ((func : Func) → func_code func ≢ function) }
    ensures err { result ≡ code.NoFunction → value.new ≡ value.old }
{
    match Func::from_code(function) {
        Some(func) => {
            *value = char_number(chars.get(func));
            Code::Done
        },
        None => Code::NoFunction,
    }
}

/// Returns the command with the number that C gives, if a user sends one.
pub(crate) fn command_given(number: u32) -> Option<UserCommand>
    ensures { (command : UserCommand) → (result ≡ Some command) ↔ (command_number command ≡ number) }
{
    match number {
        241 => Some(UserCommand::Nop),
        243 => Some(UserCommand::Brk),
        244 => Some(UserCommand::Ip),
        246 => Some(UserCommand::Ayt),
        _ => None,
    }
}

pub(crate) fn state_number(state: QState) -> u32
    ensures { result ≡ state_number state }
{
    match state {
        QState::No => 0,
        QState::Yes => 1,
        QState::WantNoEmpty => 2,
        QState::WantNoOpposite => 3,
        QState::WantYesEmpty => 4,
        QState::WantYesOpposite => 5,
    }
}

/// Returns the side of an option that C gives: ours, or theirs.
pub(crate) fn side_given(ours: bool) -> Side
    ensures { result ≡ side_given ours }
{
    if ours { Side::Us } else { Side::Them }
}

/// Returns the side at which C requests that lines be edited: at the client, or at the server.
pub(crate) fn editing_given(local: bool) -> Editing
    ensures { result ≡ editing_given local }
{
    if local {
        Editing::Local
    } else {
        Editing::Remote
    }
}
