//! The typed part of a client's bytes.

ghost use Rattle.std.specs.Prelude.{◌≡◌, []};
ghost use Rattle.tn_nvt.specs.Feeding.{LeadsTo};
ghost use Rattle.tn_net.specs.Presence.{TellsOfPiece, is_typed as typed_item, stands_for_key};

use std::alloc::Global;
use tn_codes::Command;
use tn_nvt::{Decoder, Item, Params, Refused, Sink};

/// A filter that reports of each piece of a client's stream whether something of it reaches the
/// terminal: data, and the commands that stand for keys there. Options, a size, NOP and AYT do not.
#[derive(Drop)]
pub(crate) struct TypedPieces {
    decoder: Decoder,
}

impl TypedPieces {
    /// Makes a filter that has got nothing yet.
    pub(crate) fn new(alloc: Global) -> TypedPieces
        ensures { LeadsTo [] [] result.decoder }
    {
        TypedPieces {
            decoder: Decoder::new(alloc),
        }
    }

    /// Returns whether something of the next piece is typed. Once memory ran out for the parameters
    /// of a subnegotiation, all is.
    pub(crate) fn has_typed(&mut self, piece: &[u8]) -> bool
        ensures { TellsOfPiece self.old.decoder piece.now result self.new.decoder }
    {
        let mut seen = Seen { typed: false };
        match self.decoder.feed_to(piece, &mut seen) {
            Ok(()) => seen.typed,
            Err(_) => true,
        }
    }
}

/// Whether something that is typed was seen.
#[derive(Drop)]
pub(crate) struct Seen {
    typed: bool,
}

impl Sink for Seen {
    ghost use Rattle.tn_net.specs.Presence.{LosesNone, Sees};

    ghost takes = { Sees };

    ghost gives_up = { LosesNone };

    fn run(&mut self, _bytes: &[u8]) -> Result<(), Refused> {
        self.typed = true;
        Ok(())
    }

    fn item(&mut self, item: Item) -> Result<(), Refused> {
        if is_typed(&item) {
            self.typed = true;
        }
        Ok(())
    }

    fn sub(&mut self, _option: u8, _params: &mut Params) -> Result<(), Refused> {
        Ok(())
    }
}

fn is_typed(item: &Item) -> bool
    ensures { result ≡ typed_item item.now }
{
    match item {
        Item::Byte(_) | Item::Newline => true,
        Item::Cmd(command) => is_key(*command),
        Item::Neg(_, _) | Item::Sub(_, _) => false,
    }
}

// Returns whether a command stands for a key at the terminal.
fn is_key(command: Command) -> bool
    ensures { result ≡ stands_for_key command }
{
    matches!(
        command,
        Command::Eof
            | Command::Susp
            | Command::Abort
            | Command::Brk
            | Command::Ip
            | Command::Ec
            | Command::El
    )
}
