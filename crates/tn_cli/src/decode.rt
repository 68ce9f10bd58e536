//! `tn decode`: reads one direction of a stream, and prints its items.

ghost use Rattle.std.specs.Prelude.{◌≡◌, [], true, IsTrue, false, IsFalse, IfOk, IfErr, OnOk, OnErr, IsErrOf};
ghost use Rattle.std.specs.Io.KnownBytes.{IsAtEnd};
ghost use Rattle.tn_cli.specs.Decode.{Decoded, DecodesSome, HasPrinted, PrintsLast, PrintsPiece, StopsPiece};
ghost use Rattle.tn_cli.specs.{Decode.{WritesLast, WritesPiece}, Ends.{EndsDecode, EndsDecodeByCalls}};
ghost use Rattle.tn_cli.specs.Streams.{IsPrintFault, max_pieces, max_writes};
ghost use Rattle.tn_cores.specs.streams.Telling.{AccountsFor, HasFailed};

use crate::fault::CliFault;
use crate::streams::{PIECE_BYTES, write_whole};
use crate::unprinted::{Unprinted, Watch};
use std::alloc::{AllocError, Global};
use tn_cores::streams::{Drain, Source, is_interrupted};
use tn_net::printing::{Lines, Prefix};
use tn_nvt::Decoder;

/// Reads one direction of a Telnet stream to its end, and writes a line for each item of it as soon
/// as the line is complete. Data that follow one another are joined and then cut. It returns the
/// parts that are not printed: those that are dropped, and the bytes that are left at the end.
///
/// # Errors
///
/// - `Read`: a read failed; all that was read before is printed.
/// - `Write`: a write failed, or took none of its bytes; a beginning of the lines was written.
/// - `Memory`: there is no memory; a beginning of the lines was written.
pub fn run_decode<R: Source, W: Drain>(
    alloc: Global,
    reader: &mut R,
    writer: &mut W,
) -> Result<Unprinted, CliFault>
    ensures ends { EndsDecode result (R.remaining reader.old) (R.remaining reader.new)
        (W.contents writer.old) (W.contents writer.new) }
    ensures calls { EndsDecodeByCalls result (R.told reader.old) (R.told reader.new)
        (W.told writer.old) (W.told writer.new) }
{
    let mut decoding = Decoding::new(alloc);
    let whole = print_pieces(&mut decoding, reader, writer)?;
    let unprinted = decoding.watch.unprinted();
    print_last(&mut decoding, writer)?;
    if whole {
        Ok(unprinted)
    } else {
        Err(CliFault::Read)
    }
}

/// A decoder, the lines of what it has read, and what of that is no item.
#[derive(Drop)]
pub(crate) struct Decoding {
    decoder: Decoder,
    lines: Lines,
    watch: Watch,
}

impl Decoding {
    fn new(alloc: Global) -> Decoding
        ensures { HasPrinted [] [] result }
    {
        Decoding {
            decoder: Decoder::new(alloc),
            lines: Lines::new(alloc, Prefix::Empty),
            watch: Watch::new(),
        }
    }

    // Reads one piece more, and returns the lines that it completes.
    fn read(&mut self, piece: &[u8]) -> Result<Vec<u8>, AllocError>
        ensures { IfOk result (λ text. PrintsPiece self.old piece.now text.items self.new) }
    {
        self.watch.read(piece);
        match self.decoder.feed_to(piece, &mut self.lines) {
            Ok(()) => Ok(self.lines.take_text()),
            Err(_) => Err(AllocError),
        }
    }

    // Ends the line of data that waits for more, and returns it.
    fn end(&mut self) -> Result<Vec<u8>, AllocError>
        ensures { IfOk result (λ text. PrintsLast self.old text.items) }
    {
        self.lines.end_data()?;
        Ok(self.lines.take_text())
    }
}

// Reads to the end, and writes the lines that each piece completes; returns whether the stream ended, and no
// read failed.
fn print_pieces<R: Source, W: Drain>(
    decoding: &mut Decoding,
    reader: &mut R,
    writer: &mut W,
) -> Result<bool, CliFault>
    requires { HasPrinted [] [] decoding.now }
    ensures ok { OnOk result (Decoded (R.remaining reader.old) (R.remaining reader.new)
        (W.contents writer.old) (W.contents writer.new) decoding.new) }
    ensures end { IfOk result (λ whole. IsTrue whole → IsAtEnd (R.remaining reader.new)) }
    ensures failed { IfOk result (λ whole. IsFalse whole →
        HasFailed max_pieces (R.told reader.old) (R.told reader.new)) }
    ensures err { OnErr result (DecodesSome (R.remaining reader.old) (R.remaining reader.new)
        (W.contents writer.old) (W.contents writer.new)) }
    ensures fault { IfErr result IsPrintFault }
    ensures accounts { OnOk result
        (AccountsFor max_writes true (W.told writer.old) (W.told writer.new)) }
    ensures refused { IsErrOf result CliFault.Write →
        AccountsFor max_writes false (W.told writer.old) (W.told writer.new) }
{
    let mut piece = [0; PIECE_BYTES];
    for _read in 0..u64::MAX {
        let count = match reader.read_some(&mut piece) {
            Ok(count) => count,
            Err(error) if is_interrupted(&error) => continue,
            Err(_) => return Ok(false),
        };
        if count == 0 {
            return Ok(true);
        }
        print_piece(decoding, &piece[..count], writer)?;
    }
    Ok(false)
}

fn print_piece<W: Drain>(
    decoding: &mut Decoding,
    piece: &[u8],
    writer: &mut W,
) -> Result<(), CliFault>
    ensures ok { OnOk result (WritesPiece decoding.old piece.now decoding.new
        (W.contents writer.old) (W.contents writer.new)) }
    ensures err { OnErr result (StopsPiece decoding.old piece.now
        (W.contents writer.old) (W.contents writer.new)) }
    ensures fault { IfErr result IsPrintFault }
    ensures accounts { OnOk result
        (AccountsFor max_writes true (W.told writer.old) (W.told writer.new)) }
    ensures refused { IsErrOf result CliFault.Write →
        AccountsFor max_writes false (W.told writer.old) (W.told writer.new) }
{
    let text = decoding.read(piece)?;
    write_whole(writer, &text)
}

fn print_last<W: Drain>(decoding: &mut Decoding, writer: &mut W) -> Result<(), CliFault>
    ensures ok { OnOk result
        (WritesLast decoding.old (W.contents writer.old) (W.contents writer.new)) }
    ensures err { OnErr result (StopsPiece decoding.old []
        (W.contents writer.old) (W.contents writer.new)) }
    ensures fault { IfErr result IsPrintFault }
    ensures refused { IsErrOf result CliFault.Write →
        AccountsFor max_writes false (W.told writer.old) (W.told writer.new) }
{
    let text = decoding.end()?;
    write_whole(writer, &text)
}
