//! The commands that a user may send.

ghost use Rattle.std.specs.Prelude.{◌≡◌};
ghost use Rattle.tn_client.specs.Replies.{command_sent};

use tn_codes::Command;

/// A command that a user may send (RFC 854, "Standard representation of control functions"). No
/// command changes a line: a signal does not flush it.
#[derive(Clone, Copy, Debug, PartialEq, Eq)]
pub enum UserCommand {
    /// The key BREAK, for which some monitors and consoles wait. A terminal of `tn` takes it as
    /// `Ip`.
    Brk,
    /// Interrupts the process at the server, whether or not its terminal has a key for that.
    Ip,
    /// Asks whether the server is there.
    Ayt,
    /// No operation, which yet shows whether the connection stands.
    Nop,
}

impl UserCommand {
    /// Returns the command as it stands in a stream.
    pub fn command(self) -> Command
        ensures { result ≡ command_sent self }
    {
        match self {
            UserCommand::Brk => Command::Brk,
            UserCommand::Ip => Command::Ip,
            UserCommand::Ayt => Command::Ayt,
            UserCommand::Nop => Command::Nop,
        }
    }
}
