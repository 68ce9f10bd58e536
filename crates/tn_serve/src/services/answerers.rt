//! The jobs of one session of `tn serve`.

ghost use Rattle.std.specs.Prelude.{◌≡◌, true, IsTrue};

use crate::services::answering::Answerer;
use std::alloc::{AllocError, Global};
use tn_session::Maker;

/// A maker of the jobs of one session: one in the foreground and, if it has ticks to make, one that
/// ticks in the background.
#[derive(Clone, Copy, Drop)]
pub struct Answerers {
    // Whether the foreground job is still to come.
    first: bool,
    // The number of ticks of the background job that is still to come, or 0 if none is.
    ticks: u16,
}

impl Answerers {
    /// Makes a maker whose background job ticks this number of times; there is no such job if it is
    /// 0.
    pub fn new(ticks: u16) -> Answerers
        ensures first { IsTrue result.first }
        ensures ticks { result.ticks ≡ ticks }
    {
        Answerers { first: true, ticks }
    }
}

impl Maker for Answerers {
    ghost use Rattle.std.specs.Prelude.{Some, ◌+◌};
    ghost use Rattle.tn_serve.specs.services.Answerers.{foreground, background, GivesJob};

    type Job = Answerer;

    ghost left = { λ maker. Some (foreground maker.first + background maker.ticks) };

    ghost gives = { λ old job new. GivesJob old job new };

    fn next(&mut self, _alloc: Global) -> Result<Option<Answerer>, AllocError> {
        if self.first {
            self.first = false;
            return Ok(Some(Answerer::new(0)));
        }
        if self.ticks == 0 {
            return Ok(None);
        }
        let left = self.ticks;
        self.ticks = 0;
        Ok(Some(Answerer::new(left)))
    }
}
