//! Reads a stream that comes in pieces.

ghost use Rattle.std.specs.Prelude.{◌≡◌, ◌≢◌, ◌↔◌, ◌-◌, [], vec_len, vec_capacity};
ghost use Rattle.std.specs.Prelude.{IsOk, IfOk, OnOk, IfErr, OnErr, IsErrOf};
ghost use Rattle.tn_nvt.specs.{Machine.{state_of_place, progress}, Feeding.{failed, LeadsTo, Feeds, IsLetGo}};
ghost use Rattle.tn_nvt.specs.{Sinks.{FeedsTo, StopsAtSink, StopsForMemory}, Stopping.Stops};
ghost use Rattle.tn_nvt.specs.declared.decoding.NvtFault.TheVariants.{Memory};
ghost use Rattle.tn_nvt.specs.declared.places.Place.TheVariants as here;

use crate::items::Item;
use crate::places::{Body, Place};
use crate::sinks::{Refused, Sink};
use std::alloc::{AllocError, Global};
use std::marker::Model;
use std::mem;
use thiserror::Error;

/// The reason why a piece was not read to its end.
#[derive(Clone, Copy, Debug, Error, PartialEq, Eq)]
pub enum NvtFault {
    #[error("out of memory")]
    Memory,
    #[error("the decoder has failed")]
    Failed,
    #[error("the sink is full")]
    Refused,
}

impl From<AllocError> for NvtFault {
    ghost from_gives = { λ _ fault. fault ≡ Memory };

    fn from(_error: AllocError) -> NvtFault {
        NvtFault::Memory
    }
}

impl From<Refused> for NvtFault {
    ghost use Rattle.tn_nvt.specs.declared.decoding.NvtFault.TheVariants as fault;

    ghost from_gives = { λ _ answer. answer ≡ fault.Refused };

    fn from(_refused: Refused) -> NvtFault {
        NvtFault::Refused
    }
}

/// A reader of a stream, which keeps the bytes of an item that is not complete yet.
#[derive(Drop)]
pub struct Decoder {
    place: Place,
    body: Body,
}

impl Model for Decoder {
    ghost use Rattle.tn_nvt.specs.{Feeding.DecoderState, Machine.{state_of_place, progress}};

    ghost Value = { DecoderState };

    ghost view = { λ decoder. state_of_place (progress decoder.place decoder.body) };
}

impl Decoder {
    /// Makes a decoder that has read nothing. It takes memory from `alloc` only for the parameters
    /// of subnegotiations.
    pub fn new(alloc: Global) -> Decoder
        ensures { LeadsTo [] [] result }
    {
        Decoder {
            place: Place::Outside,
            body: Body::new(alloc),
        }
    }

    /// Appends the items that the piece, cut anywhere, completes (RFC 854, RFC 855).
    ///
    /// # Errors
    ///
    /// - `Memory`: `out` or the parameters of a subnegotiation cannot grow. The decoder has failed
    ///   then, and `out` keeps the items that were complete before.
    /// - `Failed`: the decoder had failed before, and nothing changes.
    pub fn feed(&mut self, piece: &[u8], out: &mut Vec<Item>) -> Result<(), NvtFault>
        ensures ok { OnOk result (Feeds self.old piece.now out.old.items out.new.items self.new) }

        // Memory is needed only for an item in `out` and for a parameter, so for no byte of a
        // subnegotiation that is discarded.
        ensures stops { let room = vec_capacity out.new - vec_len out.new in
            IfErr result (Stops self.old piece.now out.old.items out.new.items room) }
        ensures lets_go { IsLetGo self.old piece.now → IsOk result }
        ensures fails { OnErr result (self.new ≡ failed) }

        // A decoder that has failed reads nothing more.
        ensures failed { self.old ≡ failed → IsErrOf result NvtFault.Failed }
    {
        let mut place = begin(&mut self.place)?;
        for byte in piece {
            let (next, given) = place.step(&mut self.body, *byte)?;
            given.append_to(&mut self.body, out)?;
            place = next;
        }
        self.place = place;
        Ok(())
    }

    /// Passes the items that the piece, cut anywhere, completes to the sink (RFC 854, RFC 855):
    /// plain bytes in runs as long as can be, all else item by item.
    ///
    /// # Errors
    ///
    /// After each error the decoder has failed.
    ///
    /// - `Refused`: the sink took no more.
    /// - `Memory`: the parameters of a subnegotiation cannot grow.
    /// - `Failed`: the decoder had failed before.
    pub fn feed_to<S: Sink>(&mut self, piece: &[u8], sink: &mut S) -> Result<(), NvtFault>
        ensures ok { OnOk result
            (FeedsTo S.takes self.old piece.now sink.old sink.new self.new) }
        ensures refused { IsErrOf result NvtFault.Refused →
            StopsAtSink S.takes S.gives_up self.old piece.now sink.old sink.new }

        // Memory is needed only for a parameter, so for no byte of a subnegotiation that is
        // discarded.
        ensures memory { IsErrOf result NvtFault.Memory →
            StopsForMemory S.takes self.old piece.now sink.old sink.new }
        ensures lets_go { IsLetGo self.old piece.now → ¬ IsErrOf result NvtFault.Memory }
        ensures fails { OnErr result (self.new ≡ failed) }

        // A decoder that has failed reads nothing more.
        ensures failed { IsErrOf result NvtFault.Failed ↔ (self.old ≡ failed) }
        ensures failed_hands { IsErrOf result NvtFault.Failed → sink.new ≡ sink.old }
    {
        let place = begin(&mut self.place)?;
        match place.hand_all(&mut self.body, piece, sink) {
            Ok(next) => {
                self.place = next;
                Ok(())
            },
            Err(fault) => Err(fault),
        }
    }
}

// Takes the place out of the decoder. Until a place is put back, the decoder has failed.
fn begin(place: &mut Place) -> Result<Place, NvtFault>
    ensures ok { IfOk result (λ stood. stood ≡ place.old) }
    ensures stands { IfOk result (λ stood. stood ≢ here.Failed) }
    ensures fault { IfErr result (λ fault. fault ≡ NvtFault.Failed) }
    ensures failed { IfErr result (λ _. place.old ≡ here.Failed) }
    ensures fails { place.new ≡ here.Failed }
{
    let here = mem::replace(place, Place::Failed);
    if matches!(here, Place::Failed) {
        return Err(NvtFault::Failed);
    }
    Ok(here)
}
