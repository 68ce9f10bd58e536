//! The options for which the sessions of one server were asked, for contracts.

use std::marker::Brand;

/// A server that is open, for contracts: what it was asked for, of each of its sessions and each connection
/// that gets none.
pub(crate) trait Asked<M> {
    ghost use Rattle.std.specs.declared.net.tcp.TcpStream.{TcpStream};
    ghost use Rattle.tn_serve.specs.declared.settings.SessionOptions.{SessionOptions};

    ghost options: { SessionOptions };

    // its service makes such jobs
    ghost made: { M → Type 0 };

    // the network was asked to send such a connection that there is no room
    ghost turned: { TcpStream → Type 0 };
}

impl<M> Asked<M> for Brand {
    ghost use Rattle.tn_serve.specs.Counted.{no_options};

    ghost options = { no_options };

    ghost made = { λ _. Unit {0} };

    ghost turned = { λ _. Unit {0} };
}
