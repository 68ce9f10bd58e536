//! Both ends and the two streams between them.

ghost use Rattle.std.specs.Prelude.{◌≡◌, ◌↔◌, true, IsTrue, false, IsFalse, [], ◌++◌, IfOk, IfErr, OnOk};
ghost use Rattle.std.specs.Prelude.{OnErr, option_copied, slice_get};
ghost use Rattle.tn_discipline.specs.Characters.{standard_characters};
ghost use Rattle.tn_server.specs.declared.openings.Opening.TheVariants.{Keys};
ghost use Rattle.tn_world.specs.{Headline.{IsSettled, Follows}, Output.IsOutput, Worlds.canon_of};
ghost use Rattle.tn_world.specs.Opened.{IsOpened, IsOpenFault, with_new_lists};
ghost use Rattle.tn_world.specs.declared.events.ToWhom.TheVariants as to;

use crate::events::ToWhom;
use crate::faults::{Cause, WorldFault};
use std::alloc::Global;
use std::marker::Model;
use tn_client::ClientEnd;
use tn_discipline::{Entry, Limit, Settings};
use tn_server::{Opening, ServerEnd};

/// A server end, a client end, and the bytes on their way between them. Each event is one call of an
/// end or one delivery, so that every order of keys, output and network bytes is a list of events.
#[derive(Drop)]
pub struct World {
    pub(crate) alloc: Global,
    pub(crate) server: ServerEnd,
    pub(crate) client: ClientEnd,
    pub(crate) server_stopped: bool,
    pub(crate) client_stopped: bool,
    pub(crate) to_server: Vec<u8>,
    pub(crate) to_client: Vec<u8>,
    pub(crate) typed: Vec<u8>,
    pub(crate) taken: Vec<Entry>,
    pub(crate) shown: Vec<u8>,
    pub(crate) echoed: Vec<u8>,
}

impl Model for World {
    ghost use Rattle.tn_world.specs.Worlds as worlds;
    ghost use Rattle.tn_world.specs.Past.{HasPast};

    ghost Value = { worlds.World };

    ghost view = { λ w.
        record {
          server = w.server;
          client = w.client;
          server_stopped = w.server_stopped;
          client_stopped = w.client_stopped;
          to_server = w.to_server.items;
          to_client = w.to_client.items;
          typed = w.typed.items;
          taken = w.taken.items;
          shown = w.shown.items;
          echoed = w.echoed.items;
        } };

    ghost invariant = { λ w.
        HasPast (record {
          server = w.server;
          client = w.client;
          server_stopped = w.server_stopped;
          client_stopped = w.client_stopped;
          to_server = w.to_server.items;
          to_client = w.to_client.items;
          typed = w.typed.items;
          taken = w.taken.items;
          shown = w.shown.items;
          echoed = w.echoed.items;
        }) };
}

impl World {
    /// Opens a world: both ends are started, the client's window with this width and height in
    /// characters, lines at both with at most `limit` bytes, and the server's opening messages are
    /// in flight.
    ///
    /// # Errors
    ///
    /// - There is no memory; the fault is that of the end or of the world that lacks it.
    pub fn open(
        alloc: Global,
        settings: Settings,
        width: u16,
        height: u16,
        limit: Limit,
    ) -> Result<World, WorldFault>
        ensures opened { IfOk result (λ world.
            IsOpened Keys (record { settings = settings; limit = limit }) width height world) }
        ensures follows { IfOk result (λ world. settings.chars ≡ standard_characters →
            Follows (record { settings = settings; limit = limit }) world) }
        ensures fault { IfErr result (λ fault. IsOpenFault fault) }
        ensures output { IfOk result (λ world. IsOutput world []) }
    {
        World::open_with(alloc, Opening::Keys, settings, width, height, limit)
    }

    /// Opens a world as `open` does, and with its errors, whose server has this opening.
    pub fn open_with(
        alloc: Global,
        opening: Opening,
        settings: Settings,
        width: u16,
        height: u16,
        limit: Limit,
    ) -> Result<World, WorldFault>
        ensures opened { IfOk result (λ world.
            IsOpened opening (record { settings = settings; limit = limit }) width height world) }
        ensures follows { IfOk result (λ world. settings.chars ≡ standard_characters →
            Follows (record { settings = settings; limit = limit }) world) }
        ensures fault { IfErr result (λ fault. IsOpenFault fault) }
        ensures output { IfOk result (λ world. IsOutput world []) }
    {
        let mut to_client = Vec::new(alloc);
        let server = match ServerEnd::open(opening, alloc, settings, limit, &mut to_client) {
            Ok(server) => server,
            Err(fault) => return Err(refused(Cause::Server(fault))),
        };
        let client = match ClientEnd::start(alloc, width, height, limit) {
            Ok(client) => client,
            Err(fault) => return Err(refused(Cause::Client(fault))),
        };
        Ok(World {
            alloc,
            server,
            client,
            server_stopped: false,
            client_stopped: false,
            to_server: Vec::new(alloc),
            to_client,
            typed: Vec::new(alloc),
            taken: Vec::new(alloc),
            shown: Vec::new(alloc),
            echoed: Vec::new(alloc),
        })
    }

    /// Returns whether all is at rest: nothing is in flight and neither end was stopped, the ends
    /// agree, and no line is half typed. If it is, the lists of typed keys and taken entries are
    /// reset.
    pub fn mark(&mut self) -> bool
        ensures settled { IsTrue result ↔ IsSettled self.old }
        ensures reset { IsTrue result → self.new ≡ with_new_lists self.old }
        ensures else_same { IsFalse result → self.new ≡ self.old }
        ensures follows { IsTrue result → Follows (canon_of self.old) self.new }
    {
        if !self.is_settled() {
            return false;
        }
        self.typed.clear();
        self.taken.clear();
        true
    }

    /// Returns the keys that were typed since the last mark.
    pub fn typed(&self) -> &[u8]
        ensures { result.now ≡ self.now.typed }
    {
        self.typed.as_slice()
    }

    /// Returns the entries that jobs took since the last mark.
    pub fn taken(&self) -> &[Entry]
        ensures { result.now ≡ self.now.taken }
    {
        self.taken.as_slice()
    }

    /// Returns an entry that waits for a job, counted from the first, which is 0.
    pub fn waiting(&self, index: usize) -> Option<&Entry>
        ensures { option_copied result ≡ slice_get self.now.server.terminal.entries index }
    {
        self.server.waiting(index)
    }

    /// Returns the server's text on the client's screen.
    pub fn shown(&self) -> &[u8]
        ensures { result.now ≡ self.now.shown }
    {
        self.shown.as_slice()
    }

    /// Returns the bytes that the client echoed on its screen.
    pub fn echoed(&self) -> &[u8]
        ensures { result.now ≡ self.now.echoed }
    {
        self.echoed.as_slice()
    }

    /// Returns the bytes that are on their way to an end.
    pub fn in_flight(&self, whom: ToWhom) -> &[u8]
        ensures server { whom ≡ to.Server → result.now ≡ self.now.to_server }
        ensures client { whom ≡ to.Client → result.now ≡ self.now.to_client }
    {
        match whom {
            ToWhom::Server => self.to_server.as_slice(),
            ToWhom::Client => self.to_client.as_slice(),
        }
    }
}

fn refused(cause: Cause) -> WorldFault
    ensures { result ≡ record { at = 0; cause = cause } }
{
    WorldFault { at: 0, cause }
}
