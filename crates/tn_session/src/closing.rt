//! Finishes the writer once an end has sent all.

ghost use Rattle.std.specs.{Prelude.◌≡◌, Io.KnownBytes.Keeps};
ghost use Rattle.tn_session.specs.Closing.{Closes};

use tn_cores::streams::Finish;

/// Finishes the writer once, since no more comes from this end. It returns whether the writer was
/// finished, by this call or before.
pub(crate) fn finish_once<W: Finish>(writer: &mut W, closes: bool, closed: bool) -> bool
    ensures contents { Keeps (W.contents writer.old) (W.contents writer.new) }
    ensures told { W.told writer.new ≡ W.told writer.old }
    ensures closes { Closes closes closed result (W.sending writer.old) (W.sending writer.new) }
{
    if closes && !closed {
        writer.finish();
        return true;
    }
    closed
}
