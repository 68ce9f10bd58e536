//! `tn world`: reads a script, and prints what its commands give.

ghost use Rattle.std.specs.Prelude.{IfOk, map};
ghost use Rattle.tn_cli.specs.{Ends.{EndsByCalls, EndsWorld}, Scripts.lines_of, Typing.standard};
ghost use Rattle.tn_cli.specs.Playing as play;
ghost use Rattle.tn_world.specs.Opened.{IsOpened};

use crate::arguments::{USUAL_HEIGHT, USUAL_WIDTH};
use crate::fault::CliFault;
use crate::playing::{Stop, play_line};
use crate::scripts::parts;
use crate::streams::{read_whole, write_whole};
use std::alloc::{AllocError, Global};
use tn_cores::streams::{Drain, Source};
use tn_discipline::{Limit, Settings};
use tn_server::Opening;
use tn_world::World;

/// Reads a script of one command a line, runs it in a world that is opened with standard settings,
/// and writes what the commands print. Nothing is written before the input has ended.
///
/// # Errors
///
/// - `Script`, `World`: a line is no command, or its command is refused; the output of the lines
///   before it is written.
/// - `Read`: a read failed, or the input did not end within 2,097,152 reads.
/// - `TooLong`: the input is longer than 1,048,576 bytes.
/// - `Write`: a write failed, or took none of its bytes; a beginning was written.
/// - `Memory`: there is no memory.
pub fn run_world<R: Source, W: Drain>(
    alloc: Global,
    reader: &mut R,
    writer: &mut W,
) -> Result<(), CliFault>
    ensures ends { EndsWorld result (R.remaining reader.old)
        (W.contents writer.old) (W.contents writer.new) }
    ensures calls { EndsByCalls result (R.told reader.old) (R.told reader.new)
        (W.told writer.old) (W.told writer.new) }
{
    let script = read_whole(alloc, reader)?;
    let mut printed = Vec::new(alloc);
    let end = play_script(alloc, &script, &mut printed)?;
    write_whole(writer, &printed)?;
    match end {
        None => Ok(()),
        Some(fault) => Err(fault),
    }
}

// Runs the lines of a script and appends what they print, up to the line that ends it with a fault.
fn play_script(
    alloc: Global,
    script: &[u8],
    printed: &mut Vec<u8>,
) -> Result<Option<CliFault>, AllocError>
    ensures { IfOk result (λ end.
        play.AppendsPrint (play.EndsWith (lines_of script.now) end)
        printed.old.items printed.new.items) }
{
    let lines = parts(alloc, script, b'\n')?;
    play_lines(alloc, &lines, printed)
}

// Runs lines in a world that is opened for them.
fn play_lines(
    alloc: Global,
    lines: &[&[u8]],
    printed: &mut Vec<u8>,
) -> Result<Option<CliFault>, AllocError>
    ensures { IfOk result (λ end. play.AppendsPrint
        (play.EndsWith (map (λ line. line.now) lines.now) end)
        printed.old.items printed.new.items) }
{
    match World::open(
        alloc,
        Settings::standard(),
        USUAL_WIDTH,
        USUAL_HEIGHT,
        Limit::standard(),
    ) {
        Ok(mut world) => play_in(alloc, &mut world, lines, printed),
        Err(_) => Err(AllocError),
    }
}

// Runs lines in this world, up to the one that ends them with a fault.
fn play_in(
    alloc: Global,
    world: &mut World,
    lines: &[&[u8]],
    printed: &mut Vec<u8>,
) -> Result<Option<CliFault>, AllocError>
    requires { IsOpened Opening.Keys standard 80 24 world.old }
    ensures { IfOk result (λ end. play.AppendsPrint
        (play.EndsWith (map (λ line. line.now) lines.now) end)
        printed.old.items printed.new.items) }
{
    for (index, line) in lines.iter().enumerate() {
        match play_line(alloc, world, line, printed) {
            Ok(()) => {},
            Err(Stop::Bad) => return Ok(Some(CliFault::Script(index + 1))),
            Err(Stop::Refused) => return Ok(Some(CliFault::World(index + 1))),
            Err(Stop::Memory) => return Err(AllocError),
        }
    }
    Ok(None)
}
