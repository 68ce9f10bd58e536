//! The effect of each event.

ghost use Rattle.std.specs.Prelude.{◌≡◌, ◌≢◌, ◌<◌, ℕ, IsFalse, List, [], length, take, drop, IfOk, IfErr};
ghost use Rattle.std.specs.Prelude.{OnOk, OnErr};
ghost use Rattle.tn_discipline.specs.Canon.{Canon};
ghost use Rattle.tn_world.specs.Headline.{Headline, Follows, IsQuiet};
ghost use Rattle.tn_world.specs.Output.{IsOutput, OutputGrowsAll, OutputGrowsBefore};
ghost use Rattle.tn_world.specs.Worlds.{RunsEvent, Refuses, Runs, StopsWithin, ShowsCause};
ghost use Rattle.tn_world.specs.declared.events.Event.TheVariants as event;

use crate::commands::key_for;
use crate::events::Event;
use crate::faults::{Cause, WorldFault};
use crate::world::World;
use std::alloc::{AllocError, Global};
use std::mem;
use tn_client::UserCommand;
use tn_codes::{Func, Mask};
use tn_discipline::Text;
use tn_server::Editing;

impl World {
    /// Does these events, one after another, up to the first that is refused.
    ///
    /// # Errors
    ///
    /// The events before the refused one were done.
    ///
    /// - `Server`, `Client`: that end refuses the call, or the delivery, whose bytes have left the
    ///   flight. A call that is no delivery changes nothing.
    /// - `Memory`: the world itself cannot grow; the event changes nothing.
    pub fn run(&mut self, events: &[Event]) -> Result<(), WorldFault>
        ensures runs { OnOk result (Runs self.old events.now self.new) }
        ensures ends { IfErr result (λ fault. StopsWithin self.old events.now fault.at fault.cause self.new) }
        ensures causes { IfErr result (λ fault. ShowsCause fault.cause self.new) }
        ensures follows { (canon : Canon) → Follows canon self.old → IsQuiet self.old events.now →
            Follows canon self.new }
        ensures headline { (canon : Canon) → Follows canon self.old → IsQuiet self.old events.now →
            Headline canon self.new }
        ensures output { OnOk result ((text : List ℕ) → IsOutput self.old text →
            IsFalse self.old.client.failed → OutputGrowsAll self.old events.now self.new text) }
        ensures output_before { IfErr result (λ fault. (text : List ℕ) → IsOutput self.old text →
            IsFalse self.old.client.failed →
            OutputGrowsBefore self.old events.now fault.at fault.cause self.new text) }
    {
        // No code is needed; the proof of Output begins with what every world keeps.
        let _ = &self.shown;
        for (at, event) in events.iter().enumerate() {
            match self.happen(event) {
                Ok(()) => {},
                Err(cause) => return Err(WorldFault { at, cause }),
            }
        }
        Ok(())
    }

    fn happen(&mut self, event: &Event) -> Result<(), Cause>
        ensures ok { OnOk result (RunsEvent self.old event.now self.new) }
        ensures err { IfErr result (λ cause. Refuses self.old event.now cause self.new) }
    {
        match event {
            Event::Key(key) => self.key(*key),
            Event::NewLine => self.new_line(),
            Event::Send(command) => self.send(*command),
            Event::ToServer(count) => self.reach_server(*count),
            Event::ToClient(count) => self.reach_client(*count),
            Event::Write(bytes) => {
                self.write(bytes);
                Ok(())
            },
            Event::Pull(most) => self.pull(*most),
            Event::Take => self.take(),
            Event::Wish(editing) => self.wish(*editing),
            Event::Resize(width, height) => self.resize(*width, *height),
            Event::SetChar(func, value) => self.set_char(*func, *value),
            Event::Propose(func, value) => self.propose(*func, *value),
            Event::Echo(on) => self.echo(*on),
            Event::Mask(mask) => self.mask(*mask),
            Event::ServerStops => {
                self.server_stopped = true;
                Ok(())
            },
            Event::ClientStops => {
                self.client_stopped = true;
                Ok(())
            },
        }
    }

    fn key(&mut self, key: u8) -> Result<(), Cause>
        ensures ok { OnOk result (RunsEvent self.old (event.Key key) self.new) }
        ensures err { IfErr result (λ cause. Refuses self.old (event.Key key) cause self.new) }
    {
        if self.client_stopped {
            return Ok(());
        }
        self.typed.reserve(1)?;
        self.client.key(key, &mut self.to_server, &mut self.echoed)?;
        self.typed.push_reserved(key);
        Ok(())
    }

    fn new_line(&mut self) -> Result<(), Cause>
        ensures ok { OnOk result (RunsEvent self.old event.NewLine self.new) }
        ensures err { IfErr result (λ cause. Refuses self.old event.NewLine cause self.new) }
    {
        if self.client_stopped {
            return Ok(());
        }
        self.typed.reserve(1)?;
        self.client.new_line(&mut self.to_server, &mut self.echoed)?;
        self.typed.push_reserved(b'\n');
        Ok(())
    }

    fn send(&mut self, command: UserCommand) -> Result<(), Cause>
        ensures ok { OnOk result (RunsEvent self.old (event.Send command) self.new) }
        ensures err { IfErr result (λ cause. Refuses self.old (event.Send command) cause self.new) }
    {
        if self.client_stopped {
            return Ok(());
        }
        let Some(key) = key_for(command, &self.server.settings()) else {
            self.client.send(command, &mut self.to_server)?;
            return Ok(());
        };
        self.typed.reserve(1)?;
        self.client.send(command, &mut self.to_server)?;
        self.typed.push_reserved(key);
        Ok(())
    }

    pub(crate) fn reach_server(&mut self, count: usize) -> Result<(), Cause>
        ensures ok { OnOk result (RunsEvent self.old (event.ToServer count) self.new) }
        ensures err { IfErr result (λ cause. Refuses self.old (event.ToServer count) cause self.new) }
    {
        if self.server_stopped {
            return Ok(());
        }
        if count < self.to_server.len() {
            return self.part_reaches_server(count);
        }
        // All of it, which wants no memory.
        let fed = self
            .server
            .feed(self.to_server.as_slice(), &mut self.to_client);
        self.to_server.clear();
        match fed {
            Ok(()) => Ok(()),
            Err(fault) => Err(Cause::Server(fault)),
        }
    }

    fn part_reaches_server(&mut self, count: usize) -> Result<(), Cause>
        requires { IsFalse self.old.server_stopped }
        ensures ok { OnOk result (RunsEvent self.old (event.ToServer count) self.new) }
        ensures err { IfErr result (λ cause. Refuses self.old (event.ToServer count) cause self.new) }
    {
        let piece = take_front(self.alloc, &mut self.to_server, count)?;
        self.server.feed(&piece, &mut self.to_client)?;
        Ok(())
    }

    pub(crate) fn reach_client(&mut self, count: usize) -> Result<(), Cause>
        ensures ok { OnOk result (RunsEvent self.old (event.ToClient count) self.new) }
        ensures err { IfErr result (λ cause. Refuses self.old (event.ToClient count) cause self.new) }
    {
        if self.client_stopped {
            return Ok(());
        }
        if count < self.to_client.len() {
            return self.part_reaches_client(count);
        }
        // All of it, which wants no memory.
        let bytes = self.to_client.as_slice();
        let fed = self
            .client
            .feed(bytes, &mut self.to_server, &mut self.shown);
        self.to_client.clear();
        match fed {
            Ok(()) => Ok(()),
            Err(fault) => Err(Cause::Client(fault)),
        }
    }

    fn part_reaches_client(&mut self, count: usize) -> Result<(), Cause>
        requires { IsFalse self.old.client_stopped }
        ensures ok { OnOk result (RunsEvent self.old (event.ToClient count) self.new) }
        ensures err { IfErr result (λ cause. Refuses self.old (event.ToClient count) cause self.new) }
    {
        let piece = take_front(self.alloc, &mut self.to_client, count)?;
        self.client
            .feed(&piece, &mut self.to_server, &mut self.shown)?;
        Ok(())
    }

    fn write(&mut self, bytes: &Text)
        ensures { RunsEvent self.old (event.Write bytes.now) self.new }
    {
        if !self.server_stopped {
            let _count = self.server.write(bytes.as_slice());
        }
    }

    fn pull(&mut self, most: usize) -> Result<(), Cause>
        ensures ok { OnOk result (RunsEvent self.old (event.Pull most) self.new) }
        ensures err { IfErr result (λ cause. Refuses self.old (event.Pull most) cause self.new) }
    {
        if self.server_stopped {
            return Ok(());
        }
        self.server.pull(most, &mut self.to_client)?;
        Ok(())
    }

    fn take(&mut self) -> Result<(), Cause>
        ensures ok { OnOk result (RunsEvent self.old event.Take self.new) }
        ensures err { IfErr result (λ cause. Refuses self.old event.Take cause self.new) }
    {
        if self.none_waits() {
            return self.take_none();
        }
        self.take_first()
    }

    // Lets the job find no entry that waits, for which the server may have to send GA.
    fn take_none(&mut self) -> Result<(), Cause>
        requires { self.old.server.terminal.entries ≡ [] }
        ensures ok { OnOk result (RunsEvent self.old event.Take self.new) }
        ensures err { IfErr result (λ cause. Refuses self.old event.Take cause self.new) }
    {
        let _none = self.server.take(&mut self.to_client)?;
        Ok(())
    }

    // Lets the job take the first entry that waits.
    fn take_first(&mut self) -> Result<(), Cause>
        requires { self.old.server.terminal.entries ≢ [] }
        ensures ok { OnOk result (RunsEvent self.old event.Take self.new) }
        ensures err { IfErr result (λ cause. Refuses self.old event.Take cause self.new) }
    {
        self.taken.reserve(1)?;
        if let Some(entry) = self.server.take(&mut self.to_client)? {
            self.taken.push_reserved(entry);
        }
        Ok(())
    }

    fn wish(&mut self, editing: Editing) -> Result<(), Cause>
        ensures ok { OnOk result (RunsEvent self.old (event.Wish editing) self.new) }
        ensures err { IfErr result (λ cause. Refuses self.old (event.Wish editing) cause self.new) }
    {
        if self.server_stopped {
            return Ok(());
        }
        self.server.wish(editing, &mut self.to_client)?;
        Ok(())
    }

    fn set_char(&mut self, func: Func, value: Option<u8>) -> Result<(), Cause>
        ensures ok { OnOk result (RunsEvent self.old (event.SetChar func value) self.new) }
        ensures err { IfErr result (λ cause. Refuses self.old (event.SetChar func value) cause self.new) }
    {
        if self.server_stopped {
            return Ok(());
        }
        self.server.set_char(func, value, &mut self.to_client)?;
        Ok(())
    }

    fn echo(&mut self, on: bool) -> Result<(), Cause>
        ensures ok { OnOk result (RunsEvent self.old (event.Echo on) self.new) }
        ensures err { IfErr result (λ cause. Refuses self.old (event.Echo on) cause self.new) }
    {
        if self.server_stopped {
            return Ok(());
        }
        self.server.set_echo(on, &mut self.to_client)?;
        Ok(())
    }

    fn mask(&mut self, mask: Option<Mask>) -> Result<(), Cause>
        ensures ok { OnOk result (RunsEvent self.old (event.Mask mask) self.new) }
        ensures err { IfErr result (λ cause. Refuses self.old (event.Mask mask) cause self.new) }
    {
        if self.server_stopped {
            return Ok(());
        }
        self.server.set_mask(mask, &mut self.to_client)?;
        Ok(())
    }

    fn resize(&mut self, width: u16, height: u16) -> Result<(), Cause>
        ensures ok { OnOk result (RunsEvent self.old (event.Resize width height) self.new) }
        ensures err { IfErr result (λ cause. Refuses self.old (event.Resize width height) cause self.new) }
    {
        if self.client_stopped {
            return Ok(());
        }
        self.client.resize(width, height, &mut self.to_server)?;
        Ok(())
    }

    fn propose(&mut self, func: Func, value: Option<u8>) -> Result<(), Cause>
        ensures ok { OnOk result (RunsEvent self.old (event.Propose func value) self.new) }
        ensures err { IfErr result (λ cause. Refuses self.old (event.Propose func value) cause self.new) }
    {
        if self.client_stopped {
            return Ok(());
        }
        self.client.propose(func, value, &mut self.to_server)?;
        Ok(())
    }
}

// Takes the first bytes out of a flight, or all if there are fewer.
fn take_front(alloc: Global, flight: &mut Vec<u8>, count: usize) -> Result<Vec<u8>, AllocError>
    ensures piece { IfOk result (λ piece. piece.items ≡ take count flight.old.items) }
    ensures left { OnOk result (flight.new.items ≡ drop count flight.old.items) }
    ensures err { OnErr result (flight.new.items ≡ flight.old.items) }
    ensures some { OnErr result (count < length flight.old.items) }
{
    if count >= flight.len() {
        return Ok(mem::replace(flight, Vec::new(alloc)));
    }
    let left = flight.split_off(count)?;
    Ok(mem::replace(flight, left))
}
