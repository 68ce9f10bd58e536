//! A user's request as a client end takes it.

ghost use Rattle.std.specs.Prelude.{◌≡◌};
ghost use Rattle.tn_cores.specs.client.Commands.{command_of};

use crate::streams::Control;
use tn_client::UserCommand;

/// Returns the command that is asked for, or none for a new line.
pub(crate) fn command_of(control: Control) -> Option<UserCommand>
    ensures { result ≡ command_of control }
{
    match control {
        Control::Brk => Some(UserCommand::Brk),
        Control::Ip => Some(UserCommand::Ip),
        Control::Ayt => Some(UserCommand::Ayt),
        Control::NewLine => None,
    }
}
