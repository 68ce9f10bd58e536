//! `tn serve`: its own job, or a line service that each session is joined to.

ghost use Rattle.std.specs.Prelude.{◌≡◌, [], Some, IfOk, IfSome, IsErrOf, None, map, option_map, string_bytes};
ghost use Rattle.std.specs.Prelude.{vec_items};
ghost use Rattle.tn_serve.specs.{Causes.{FailsBy, place_at}, Ends.{IfAny, ServesUntil}};
ghost use Rattle.tn_net.specs.network.Asked.{Listens, at_place};
ghost use Rattle.tn_program.specs.Settings.{UnlessMemory, count_as, places_as, places_at};
ghost use Rattle.tn_session.specs.roster.Held.{IsLimit};

use crate::counting::Serves;
use crate::metrics::{Counting, Counts, Replacing};
use crate::publishing::Publisher;
use crate::settings::{answering_of, lines_of, note_level_of, note_style_of, serving_of};
use crate::watching::{AtFile, Lookout};
use log::{Log, Logged};
use std::alloc::{AllocError, Global};
use std::sync::{Arc, Wait};
use tn_net::network::Network;
use tn_serve::services::{
    Gateway, Greets, Heard, HearsCut, HearsTelnet, Joiner, LineFormat, ServiceReader,
    ServiceWriter, Told,
};
use tn_serve::{At, Call, Finished, Host, NoteWriter, Notes, ServeFault, Served, Service, serve};

/// Serves as was asked for, and writes notes to standard error: `is_journal` is whether systemd's
/// journal reads them. Each client is shown `banner` first. If it cannot listen, `causes` gets a
/// line.
pub(crate) fn serve_asked<H>(
    rt: H,
    alloc: Global,
    asked: &tn_cli::arguments::ServeWords,
    banner: Option<Arc<Vec<u8>, Global>>,
    is_journal: bool,
    causes: &mut Vec<u8>,
) -> Result<Served, ServeFault>
where
    H: Host + Network + Lookout + Replacing + Eprint,
    ensures all { IfOk result (ServesUntil (count_as asked.now.count)
        (IfAny (H.sees rt) (option_map string_bytes asked.now.until))) }
    ensures listened { UnlessMemory result (Listens (at_place (H.listens rt)) (H.shares rt) (H.accepts rt)
        (places_as asked.now) (λ (served : Served). served.accepted)
        (λ error ended. FailsBy error ended) result) }
    ensures counted { IfOk result (⟦<H as Serves>⟧.serves rt asked.now) }
    ensures limit { IsErrOf result ServeFault.Limit → ¬ IsLimit asked.now.sessions }
{
    let Some((sink, writer)) = NoteWriter::start(rt, alloc, note_style_of(asked, is_journal)) else {
        return Err(ServeFault::Memory);
    };
    let Ok(counts) = Counts::new(alloc) else {
        return Err(ServeFault::Memory);
    };
    let log = Logged::new(rt, note_level_of(asked), sink);
    let Some(publisher) = publishing(rt, alloc, asked, &writer, &counts, &log) else {
        return Err(ServeFault::Memory);
    };
    let log = Counting { log, counts, alloc };
    let served = serve_noted(rt, alloc, asked, banner, &log, causes);
    drop(log);
    if let Some(publisher) = publisher {
        publisher.finish(&rt);
    }
    writer.finish(&rt);
    served
}

// Starts the thread that writes the counts, if a file for them is named. It returns `None` if there
// is no memory or no thread.
fn publishing<H: Host + Replacing, L: Log>(
    rt: H,
    alloc: Global,
    asked: &tn_cli::arguments::ServeWords,
    writer: &NoteWriter,
    counts: &Arc<Counts, Global>,
    log: &L,
) -> Option<Option<Publisher>> {
    let Some(path) = &asked.metrics else {
        return Some(None);
    };
    let counts = Arc::try_clone(counts).ok()?;
    let dropped = writer.dropped().ok()?;
    let publisher = Publisher::start(rt, alloc, path.as_str(), counts, dropped, log)?;
    Some(Some(publisher))
}

// Serves as was asked for, with this log.
fn serve_noted<H, L>(
    rt: H,
    alloc: Global,
    asked: &tn_cli::arguments::ServeWords,
    banner: Option<Arc<Vec<u8>, Global>>,
    log: &L,
    causes: &mut Vec<u8>,
) -> Result<Served, ServeFault>
where
    H: Host + Network + Lookout,
    L: Log,
    ensures all { IfOk result (ServesUntil (count_as asked.now.count)
        (IfAny (H.sees rt) (option_map string_bytes asked.now.until))) }
    ensures listened { UnlessMemory result (Listens (at_place (H.listens rt)) (H.shares rt) (H.accepts rt)
        (places_as asked.now) (λ (served : Served). served.accepted)
        (λ error ended. FailsBy error ended) result) }
    ensures counted { IfOk result (⟦<H as Serves>⟧.serves rt asked.now) }
    ensures limit { IsErrOf result ServeFault.Limit → ¬ IsLimit asked.now.sessions }
{
    let serving = serving_of(asked);
    let until = until_of(rt, alloc, asked)?;
    let at = places_of(alloc, asked)?;
    let Some(to) = &asked.to else {
        let service = answering_of(asked);
        return serve(rt, alloc, &at, serving, until, service, log, causes);
    };
    let service = Joining {
        rt,
        host: String::from_str(alloc, to.host.as_str())?,
        port: to.port,
        patience: asked.dial,
        lines: lines_of(asked),
        banner,
    };
    serve(rt, alloc, &at, serving, until, service, log, causes)
}

// Returns the places at which to listen.
fn places_of(
    alloc: Global,
    asked: &tn_cli::arguments::ServeWords,
) -> Result<Vec<At<'_>>, AllocError>
    ensures { IfOk result (λ places. map place_at (vec_items places) ≡ places_as asked.now) }
{
    let tn_cli::arguments::Socket { port, handed } = asked.socket;
    match handed {
        Some(descriptor) => handed_place(alloc, port, descriptor),
        None => places_at(alloc, &asked.hosts, port),
    }
}

// Returns the place of the socket that is handed in.
fn handed_place<'a>(alloc: Global, port: u16, descriptor: u16) -> Result<Vec<At<'a>>, AllocError>
    ensures { IfOk result (λ places. map place_at (vec_items places)
        ≡ places_at [] port (Some descriptor)) }
{
    let mut places = Vec::new(alloc);
    places.push(At {
        host: "",
        port,
        handed: Some(descriptor),
    })?;
    Ok(places)
}

// Returns the places of these hosts.
fn places_at(alloc: Global, hosts: &[String], port: u16) -> Result<Vec<At<'_>>, AllocError>
    ensures { IfOk result (λ places. map place_at (vec_items places)
        ≡ places_at (map string_bytes hosts.now) port None) }
{
    let mut places = Vec::new(alloc);
    for host in hosts {
        places.push(At {
            host: host.as_str(),
            port,
            handed: None,
        })?;
    }
    Ok(places)
}

// Returns the file that ends the server, if one was named.
fn until_of<H: Copy + Lookout>(
    rt: H,
    alloc: Global,
    asked: &tn_cli::arguments::ServeWords,
) -> Result<Option<AtFile<H>>, AllocError>
    ensures rt { IfOk result (λ until. IfSome until (λ at. at.rt ≡ rt)) }
    ensures path { IfOk result (λ until. option_map (λ at. string_bytes at.path) until
        ≡ option_map string_bytes asked.now.until) }
{
    match &asked.until {
        Some(path) => {
            let path = String::from_str(alloc, path.as_str())?;
            Ok(Some(AtFile { rt, path }))
        },
        None => Ok(None),
    }
}

/// Joins each session to the line service at this host and port.
#[derive(Drop)]
pub struct Joining<H> {
    pub rt: H,
    pub host: String,
    pub port: u16,
    /// The number of seconds for which a session dials the service.
    pub patience: u32,
    /// The form in which lines go to the service.
    pub lines: LineFormat,
    /// The text that each client is shown first.
    pub banner: Option<Arc<Vec<u8>, Global>>,
}

/// A receiver that has the server note a line that may have been truncated, and a service that
/// speaks Telnet, and that holds the text that a client is shown first.
#[derive(Drop)]
pub struct Noting<H> {
    rt: H,
    notes: Notes,
    banner: Option<Arc<Vec<u8>, Global>>,
}

impl<H> Greets for Noting<H> {
    fn banner(&self) -> &[u8] {
        match &self.banner {
            Some(banner) => banner.as_slice(),
            None => b"",
        }
    }
}

impl<H: Wait> HearsCut for Noting<H> {
    fn hear_cut(&self, bytes: usize) {
        self.notes.note_cut(&self.rt, bytes);
    }
}

impl<H: Wait> HearsTelnet for Noting<H> {
    fn hear_telnet(&self) {
        self.notes.note_telnet(&self.rt);
    }
}

impl<H: Copy> Joining<H> {
    // Makes the receiver of the reports of a session's jobs.
    fn noting(&self, notes: Notes) -> Result<Noting<H>, AllocError> {
        let banner = match &self.banner {
            Some(banner) => Some(Arc::try_clone(banner)?),
            None => None,
        };
        Ok(Noting {
            rt: self.rt,
            notes,
            banner,
        })
    }
}

impl<H: Host + Network> Service for Joining<H> {
    ghost use Rattle.std.specs.Prelude.{string_bytes};
    ghost use Rattle.tn_program.specs.Settings.{JoinsAsAsked};

    type Job = Gateway<ServiceReader<H, Heard<H, Noting<H>>>, ServiceWriter<H, Told<H>, Noting<H>>>;

    type Jobs = Joiner<H, Noting<H>>;

    ghost makes = { λ j jobs. JoinsAsAsked j.rt (string_bytes j.host) j.port j.patience j.lines jobs };

    fn session(&mut self, alloc: Global, call: Call) -> Result<Joiner<H, Noting<H>>, AllocError> {
        let Call { hook, notes, .. } = call;
        let rt = self.rt;
        let host = String::from_str(alloc, self.host.as_str())?;
        let notes = (self.noting(notes.another()?)?, self.noting(notes)?);
        let (port, patience) = (self.port, self.patience);
        Ok(Joiner::new(rt, host, port, patience, self.lines, hook, notes))
    }

    fn ended(&mut self, _number: usize, _finished: &Finished) {}
}
