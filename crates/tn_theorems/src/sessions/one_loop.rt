//! Both machines of two sessions, run by one loop: what one of them appends is on its way to the other, and
//! comes there in pieces of any length.
//!
//! ```
//! let mut joined = Joined::start(alloc, settings, limit, approach, table, 80, 24)?;
//! joined.happen(alloc, Event::Typed(keys))?;
//! joined.happen(alloc, Event::ToServer(512))?;
//! joined.happen(alloc, Event::Take)?; // the entries that the foreground job gets are put in `puts`
//! ```

ghost use Rattle.std.specs.{Prelude.{◌≡◌, ◌<◌, ◌++◌, OnErr, OnOk, IfOk, IfErr, length}, List.FoldsTo};
ghost use Rattle.tn_theorems.specs.sessions.OneLoop.{Happens, IsRefused, IsStart, ServesNone, ServesOne, StopsIn};
ghost use Rattle.tn_theorems.specs.sessions.OneLoop.{TellsNone, TellsOne, TakesFirst};
ghost use Rattle.tn_cores.specs.server.Run.{puts_of};

use std::alloc::{AllocError, Global};
use std::mem;
use tn_cores::client::{Core, Origin, Told};
use tn_cores::server::{MessageOutcome, Put, Term};
use tn_cores::streams::Control;
use tn_cores::{Message, SessionFault};
use tn_discipline::{Entry, Limit, Settings, Text};
use tn_jobs::{After, JobId, Table};
use tn_server::Approach;

/// The next event of the loop.
#[derive(Drop)]
pub enum LoopEvent {
    /// The user types these keys.
    Typed(Text),
    /// This number of the bytes that are on their way to the server come there, or all if there are
    /// fewer.
    ToServer(usize),
    /// This number of the bytes that are on their way to the client come there, or all if there are
    /// fewer.
    ToClient(usize),
    /// The user asks for a control function.
    Asked(Control),
    /// The foreground job asks for an entry.
    Take,
    /// A job wrote a text and does something next.
    Said {
        job: JobId,
        text: Text,
        after: After,
    },
}

/// The machine of a server's session and that of a client's, the bytes that are on their way
/// between them, the text that is shown to the user, and the entries that were put for the
/// foreground job, among which `None` is their end.
#[derive(Drop)]
pub struct Joined {
    pub term: Term,
    pub core: Core,
    pub to_server: Vec<u8>,
    pub to_client: Vec<u8>,
    pub shown: Vec<u8>,
    pub puts: Vec<Option<Entry>>,
}

// Takes the first bytes off, and returns them.
fn take_first(bytes: &mut Vec<u8>, count: usize) -> Result<Text, AllocError>
    ensures { IfOk result (λ first. TakesFirst bytes.old.items count first bytes.new.items) }
{
    let at = count.min(bytes.len());
    let rest = bytes.split_off(at)?;
    let first = mem::replace(bytes, rest);
    Ok(Text::from(first))
}

// Keeps what is put.
fn keep(puts: &mut Vec<Option<Entry>>, put: Put) -> Result<(), AllocError>
    ensures put { OnOk result (puts.new.items ≡ puts.old.items ++ puts_of put) }
    ensures refused { OnErr result (0 < length (puts_of put)) }
{
    match put {
        Put::Nothing => Ok(()),
        Put::Entry(entry) => {
            puts.push(Some(entry))?;
            Ok(())
        },
        Put::End => {
            puts.push(None)?;
            Ok(())
        },
    }
}

impl Joined {
    /// Starts both: a terminal with these settings, whose lines have at most `limit` bytes at both
    /// ends, edited at one side, with these jobs; and a client in a window of this size. The
    /// opening messages are on their way.
    ///
    /// # Errors
    ///
    /// - `Memory`: there is no memory for one of them.
    pub fn start(
        alloc: Global,
        settings: Settings,
        limit: Limit,
        approach: Approach,
        table: Table,
        width: u16,
        height: u16,
    ) -> Result<Joined, SessionFault>
        ensures start { IfOk result (λ joined.
            IsStart (record { settings = settings; limit = limit })
            approach table width height joined) }
        ensures fault { IfErr result (λ fault. fault ≡ SessionFault.Memory) }
    {
        let mut to_client = Vec::new(alloc);
        let Ok(term) = Term::start(alloc, settings, limit, approach, table, &mut to_client) else {
            return Err(SessionFault::Memory);
        };
        let Ok(core) = Core::start(alloc, width, height, limit) else {
            return Err(SessionFault::Memory);
        };
        Ok(Joined {
            term,
            core,
            to_server: Vec::new(alloc),
            to_client,
            shown: Vec::new(alloc),
            puts: Vec::new(alloc),
        })
    }

    // Lets the terminal handle a message.
    fn serve(&mut self, alloc: Global, message: Message) -> Result<(), AllocError>
        ensures serves { OnOk result (ServesOne self.old message self.new) }
        ensures refused { OnErr result (ServesNone self.old message) }
    {
        let mut out = Vec::new(alloc);
        let MessageOutcome { put, last, mark: _ } = self.term.handle(message, &mut out);
        self.to_client.extend_from_slice(&out)?;
        keep(&mut self.puts, put)?;
        keep(&mut self.puts, last)?;
        Ok(())
    }

    // Lets the core handle a message.
    fn tell(&mut self, alloc: Global, told: Told) -> Result<(), AllocError>
        ensures tells { OnOk result (TellsOne self.old told self.new) }
        ensures refused { OnErr result (TellsNone self.old told) }
    {
        let mut out = Vec::new(alloc);
        let mut text = Vec::new(alloc);
        self.core.handle(told, &mut out, &mut text);
        self.to_server.extend_from_slice(&out)?;
        self.shown.extend_from_slice(&text)?;
        Ok(())
    }

    fn to_server(&mut self, alloc: Global, count: usize) -> Result<(), AllocError>
        ensures { OnOk result (Happens self.old (LoopEvent.ToServer count) self.new) }
    {
        let piece = take_first(&mut self.to_server, count)?;
        self.serve(alloc, Message::Piece(piece))?;
        Ok(())
    }

    fn to_client(&mut self, alloc: Global, count: usize) -> Result<(), AllocError>
        ensures { OnOk result (Happens self.old (LoopEvent.ToClient count) self.new) }
    {
        let piece = take_first(&mut self.to_client, count)?;
        self.tell(
            alloc,
            Told {
                from: Origin::Net,
                message: Message::Piece(piece),
            },
        )?;
        Ok(())
    }

    /// Lets the next event happen.
    ///
    /// # Errors
    ///
    /// - `AllocError`: there is no memory; nothing more is known of either machine.
    pub fn happen(&mut self, alloc: Global, event: LoopEvent) -> Result<(), AllocError>
        ensures happens { OnOk result (Happens self.old event self.new) }
        ensures refused { OnErr result (IsRefused self.old event) }
    {
        match event {
            LoopEvent::Typed(keys) => self.tell(
                alloc,
                Told {
                    from: Origin::Keys,
                    message: Message::Piece(keys),
                },
            ),
            LoopEvent::Asked(control) => self.tell(
                alloc,
                Told {
                    from: Origin::Keys,
                    message: Message::Asked(control),
                },
            ),
            LoopEvent::ToServer(count) => self.to_server(alloc, count),
            LoopEvent::ToClient(count) => self.to_client(alloc, count),
            LoopEvent::Take => self.serve(alloc, Message::Take),
            LoopEvent::Said { job, text, after } => {
                self.serve(alloc, Message::Said { job, text, after })
            },
        }
    }

    /// Lets all these events happen, in order.
    ///
    /// # Errors
    ///
    /// - `AllocError`: there is no memory at one of the events; nothing more is known of either
    ///   machine.
    pub fn run(&mut self, alloc: Global, script: Vec<LoopEvent>) -> Result<(), AllocError>
        ensures happen { OnOk result (FoldsTo Happens self.old script.items self.new) }
        ensures refused { OnErr result (StopsIn self.old script.items) }
    {
        for event in script {
            self.happen(alloc, event)?;
        }
        Ok(())
    }
}
