//! The way in which a world comes to rest.

ghost use Rattle.std.specs.Prelude.{◌≡◌, ◌↔◌, ◌≤◌, ℕ, IsTrue, IsFalse, List, OnOk, IfErr, length};
ghost use Rattle.tn_discipline.specs.Canon.{Canon};
ghost use Rattle.tn_world.specs.{Headline.{Follows, Headline, NothingInFlight}, Worlds.ShowsCause};
ghost use Rattle.tn_world.specs.Output.{IsOutput, OutputSettles, OutputStopsSettling};
ghost use Rattle.tn_world.specs.Settling.{IsRound, RefusesRound, Settles, StopsSettling, IsAtRest};

use crate::faults::WorldFault;
use crate::world::World;
use tn_linemode::laws::exchanges_end;

impl World {
    /// Delivers all that is in flight to the client and then all to the server, until nothing is in
    /// flight: in at most two rounds, after any events, if neither end was stopped.
    ///
    /// # Errors
    ///
    /// - `Server`, `Client` or `Memory`, as for `run`: a delivery was refused. The fault counts it
    ///   from 0, and those before it are done.
    pub fn settle(&mut self) -> Result<(), WorldFault>
        ensures settles { OnOk result (Settles self.old self.new) }
        ensures rest { OnOk result (IsAtRest self.old self.new) }
        ensures ends { IfErr result (λ fault. StopsSettling self.old fault.at fault.cause self.new) }
        ensures causes { IfErr result (λ fault. ShowsCause fault.cause self.new) }
        ensures follows { (canon : Canon) → Follows canon self.old → Follows canon self.new }
        ensures headline { (canon : Canon) → Follows canon self.old → Headline canon self.new }
        ensures output { OnOk result ((text : List ℕ) → IsOutput self.old text →
            IsFalse self.old.client.failed → OutputSettles self.old self.new text) }
        ensures output_before { IfErr result (λ fault. (text : List ℕ) → IsOutput self.old text →
            IsFalse self.old.client.failed → OutputStopsSettling self.old fault.cause self.new text) }
    {
        // No code is needed; the proof begins with what every world keeps.
        let _ = &self.shown;
        exchanges_end();
        if self.is_flight_empty() {
            return Ok(());
        }
        match self.round() {
            Ok(()) => {},
            Err(fault) => return Err(fault),
        }
        if self.is_flight_empty() {
            return Ok(());
        }
        match self.round() {
            Ok(()) => Ok(()),
            Err(fault) => Err(WorldFault {
                at: fault.at + 2,
                cause: fault.cause,
            }),
        }
    }

    // Returns whether nothing is in flight to either end.
    pub(crate) fn is_flight_empty(&self) -> bool
        ensures { IsTrue result ↔ NothingInFlight self.now }
    {
        self.to_server.is_empty() && self.to_client.is_empty()
    }

    // Delivers all that is in flight to the client, and then all that is in flight to the server.
    fn round(&mut self) -> Result<(), WorldFault>
        ensures done { OnOk result (IsRound self.old self.new) }
        ensures refused { IfErr result (λ fault. RefusesRound self.old fault.at fault.cause self.new) }
        ensures place { IfErr result (λ fault. fault.at ≤ 1) }
    {
        let count = bytes_in(&self.to_client);
        match self.reach_client(count) {
            Ok(()) => {},
            Err(cause) => return Err(WorldFault { at: 0, cause }),
        }
        let count = bytes_in(&self.to_server);
        match self.reach_server(count) {
            Ok(()) => Ok(()),
            Err(cause) => Err(WorldFault { at: 1, cause }),
        }
    }
}

fn bytes_in(flight: &Vec<u8>) -> usize
    ensures { result ≡ length flight.now.items }
{
    flight.as_slice().len()
}
