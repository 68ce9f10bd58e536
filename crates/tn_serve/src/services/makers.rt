//! The jobs of one session that is joined to a service.

ghost use Rattle.std.specs.Prelude.{◌≡◌, Some};

use crate::services::cutting::{HearsCut, LineFormat};
use crate::services::joining::Gateway;
use crate::services::sending::{SendingLines, Way};
use crate::services::showing::Showing;
use std::alloc::{AllocError, Global};
use tn_cores::streams::Source;
use tn_session::{Finish, Maker};

/// Makes the jobs of one session that is joined to a service by a reader and a writer: the one that sends,
/// and then the one that shows.
#[derive(Drop)]
pub struct Gateways<R, W> {
    reader: Option<R>,
    writer: Option<W>,
    lines: LineFormat,
}

impl<R, W> Gateways<R, W> {
    /// Makes jobs that read the service's bytes by the reader, and write lines to it by the writer.
    pub fn new(reader: R, writer: W, lines: LineFormat) -> Gateways<R, W>
        ensures reader { result.reader ≡ Some reader }
        ensures writer { result.writer ≡ Some writer }
        ensures lines { result.lines ≡ lines }
    {
        Gateways {
            reader: Some(reader),
            writer: Some(writer),
            lines,
        }
    }
}

impl<R: Source + Drop, W: Finish + HearsCut + Drop> Maker for Gateways<R, W> {
    ghost use Rattle.std.specs.Prelude.{Some, ◌+◌};
    ghost use Rattle.tn_serve.specs.services.Joining.{GivesPart, GivesSide, count};

    type Job = Gateway<R, W>;

    ghost left = { λ maker. Some (count maker.writer + count maker.reader) };

    ghost gives = { λ old job new. GivesSide (count old.writer + count old.reader) job
        × GivesPart old.reader old.writer old.lines job };

    fn next(&mut self, _alloc: Global) -> Result<Option<Gateway<R, W>>, AllocError> {
        if let Some(writer) = self.writer.take() {
            return Ok(Some(Gateway::Sends(SendingLines {
                writer,
                lines: self.lines,
                way: Way::Open,
            })));
        }
        match self.reader.take() {
            Some(reader) => Ok(Some(Gateway::Shows(Showing {
                reader,
                waits: false,
            }))),
            None => Ok(None),
        }
    }
}
