//! One session of a server over a connection.

ghost use Rattle.std.specs.Prelude.{◌≡◌, ◌≢◌, [], IfOk, IfErr, IfSome};
ghost use Rattle.tn_serve.specs.Servers.{IsPromised, RunsServer, RunsWriting, connection_of};
ghost use Rattle.tn_session.specs.{Facts.{job_facts, session_result}, Makers.begins, Session.IsRefusal};
ghost use Rattle.tn_net.specs.Logs.{logged};
ghost use Rattle.tn_cores.specs.server.Welcoming.{too_far_ahead};

use crate::conversed::{Conversed, Ran};
use crate::events::SaysEnd;
use crate::settings::SessionOptions;
use crate::sight::Sight;
use crate::traffic::{Counted, CountedWrites, Traffic};
use std::alloc::Global;
use std::net::TcpStream;
use std::snapshot::Snapshot;
use std::sync::Arc;
use std::thread;
use std::thread::{Promise, PromisedHandle};
use tn_cores::streams::Source;
use tn_discipline::Settings;
use tn_net::{Attended, Connection, Host, Logged, Standing, WriteLog};
use tn_server::Approach;
use tn_session::{Maker, Ports, Report, SessionFault, serve_session_with};

/// A session that is to run over a connection that was accepted.
#[derive(Drop)]
pub(crate) struct Session<H, M> {
    pub(crate) rt: H,
    pub(crate) alloc: Global,
    pub(crate) stream: TcpStream,
    pub(crate) options: SessionOptions,
    pub(crate) jobs: M,
    pub(crate) standing: Arc<Standing, Global>,
    pub(crate) traffic: Arc<Traffic, Global>,
}

impl<H, M> Session<H, M>
where
    H: Host,
    M: Maker + Drop + Send + 'static,
    M::Job: Send + 'static,
{
    /// Runs the session in a thread of its own, if one can be had, which at last sends that it has
    /// ended.
    pub(crate) fn start<E: SaysEnd + Drop + Send + 'static>(
        self,
        end: E,
    ) -> Option<PromisedHandle<Ran, SessionSays<M>>>
        ensures options { IfSome result (λ handle. handle.promise.options ≡ self.options) }
        ensures jobs { IfSome result (λ handle. handle.promise.jobs.value ≡ self.jobs) }
        ensures over { IfSome result (λ handle. handle.promise.stream.value ≡ self.stream) }
    {
        let rt = self.rt;
        let promise = SessionSays {
            jobs: Snapshot::of(&self.jobs),
            options: self.options,
            stream: Snapshot::of(&self.stream),
        };
        let work = move || -> Ran
            ensures { IsPromised (job_facts (begins M.Job.fresh M.gives self.jobs) M.Job.reacts M.Job.steps
                M.Job.refuses)
                (M.left self.jobs) self.options self.stream result }
        {
            let ran = self.run();
            end.say_end(&rt);
            ran
        };
        match thread::spawn_with(&rt, promise, work) {
            Ok(handle) => Some(handle),
            Err(_) => None,
        }
    }
}

/// The promise of the thread of a session, about what it gives back.
#[derive(Drop)]
pub(crate) struct SessionSays<M> {
    pub(crate) jobs: Snapshot<M>,
    pub(crate) options: SessionOptions,
    pub(crate) stream: Snapshot<TcpStream>,
}

impl<M: Maker> Promise<Ran> for SessionSays<M> {
    ghost use Rattle.tn_serve.specs.Servers.{IsPromised};
    ghost use Rattle.tn_session.specs.{Facts.job_facts, Makers.begins};

    ghost kept_by = { λ p ran.
        IsPromised (job_facts (begins M.Job.fresh M.gives p.jobs.value) M.Job.reacts M.Job.steps
        M.Job.refuses)
        (M.left p.jobs.value) p.options p.stream.value ran };
}

impl<H, M> Session<H, M>
where
    H: Host,
    M: Maker + Drop,
    M::Job: Send + 'static,
{
    fn run(self) -> Ran
        ensures fault { IfErr result.ended IsRefusal }
        ensures ran { IfOk result.ended (RunsServer
            (job_facts (begins M.Job.fresh M.gives self.jobs) M.Job.reacts M.Job.steps M.Job.refuses)
            (M.left self.jobs) self.options) }
        ensures in_reach { IfOk result.ended (λ conversed. conversed.report.ended ≢ too_far_ahead) }
        ensures over { IfOk result.ended (λ conversed. connection_of conversed ≡ self.stream) }
    {
        let Session {
            rt,
            alloc,
            stream,
            options,
            jobs,
            standing,
            traffic,
        } = self;
        let ended = converse(rt, alloc, stream, options, jobs, &standing, &traffic);
        Ran {
            ended,
            idle: standing.is_idle(),
            too_long: standing.is_too_long(),
        }
    }
}

// Runs a session over this connection. What passes over it is counted in `traffic`.
fn converse<H, M>(
    rt: H,
    alloc: Global,
    stream: TcpStream,
    options: SessionOptions,
    jobs: M,
    standing: &Arc<Standing, Global>,
    traffic: &Arc<Traffic, Global>,
) -> Result<Conversed, SessionFault>
where
    H: Host,
    M: Maker + Drop,
    M::Job: Send + 'static,
    ensures fault { IfErr result IsRefusal }
    ensures ran { IfOk result (RunsServer
        (job_facts (begins M.Job.fresh M.gives jobs) M.Job.reacts M.Job.steps M.Job.refuses)
        (M.left jobs) options) }
    ensures in_reach { IfOk result (λ conversed. conversed.report.ended ≢ too_far_ahead) }
    ensures over { IfOk result (λ conversed. connection_of conversed ≡ stream) }
{
    let connection = Snapshot::of(&stream);
    let Ok((stream, writer)) = Connection::split(stream) else {
        return Err(SessionFault::Start);
    };
    let reader = reader_of(rt, alloc, stream, options, standing, traffic)?;
    let mut writer = writer_of(writer, standing, traffic)?;
    let sight = Sight {
        standing: another(standing)?,
    };
    let (report, ports) = talk(rt, alloc, reader, &mut writer, options, jobs, sight)?;
    let log = close(rt, alloc, writer, standing);
    Ok(Conversed {
        report,
        ports,
        log,
        connection,
    })
}

// Makes the reading side of a connection, which ends it as `options` say.
fn reader_of<H: Host>(
    rt: H,
    alloc: Global,
    stream: TcpStream,
    options: SessionOptions,
    standing: &Arc<Standing, Global>,
    traffic: &Arc<Traffic, Global>,
) -> Result<Counted<Attended<H, TcpStream>>, SessionFault>
    ensures idle { IfOk result (λ reader. reader.side.idle ≡ options.idle) }
    ensures longest { IfOk result (λ reader. reader.side.longest ≡ options.longest) }
    ensures fault { IfErr result IsRefusal }
{
    let standing = another(standing)?;
    let traffic = another(traffic)?;
    match Attended::new(rt, alloc, stream, standing, options.idle, options.longest) {
        Ok(side) => Ok(Counted { side, traffic }),
        Err(_) => Err(SessionFault::Start),
    }
}

// Makes the writing side of a connection, to which nothing is written yet.
fn writer_of(
    writer: Connection<TcpStream>,
    standing: &Arc<Standing, Global>,
    traffic: &Arc<Traffic, Global>,
) -> Result<Logged<CountedWrites<Connection<TcpStream>>>, SessionFault>
    ensures new { IfOk result (λ writer. logged writer.log ≡ []) }
    ensures fault { IfErr result IsRefusal }
{
    let standing = another(standing)?;
    let traffic = another(traffic)?;
    let side = writer.with_standing(standing);
    Ok(Logged::new(CountedWrites { side, traffic }))
}

fn another<T>(shared: &Arc<T, Global>) -> Result<Arc<T, Global>, SessionFault>
    ensures fault { IfErr result IsRefusal }
{
    match Arc::try_clone(shared) {
        Ok(other) => Ok(other),
        Err(_) => Err(SessionFault::Memory),
    }
}

// Closes a connection whose session has ended. Returns the log of what was written to it.
fn close<H: Host>(
    rt: H,
    alloc: Global,
    writer: Logged<CountedWrites<Connection<TcpStream>>>,
    standing: &Arc<Standing, Global>,
) -> WriteLog
    ensures { result ≡ writer.log }
{
    let (writer, log) = writer.into_parts();
    if standing.is_ended_here() {
        linger(rt, alloc, writer.side.into_stream(), standing);
    }
    log
}

// Runs a session with this reader and this writer, and a terminal with standard settings.
fn talk<H, M>(
    rt: H,
    alloc: Global,
    reader: Counted<Attended<H, TcpStream>>,
    writer: &mut Logged<CountedWrites<Connection<TcpStream>>>,
    options: SessionOptions,
    jobs: M,
    sight: Sight,
) -> Result<(Report, Ports), SessionFault>
where
    H: Host,
    M: Maker + Drop,
    M::Job: Send + 'static,
    requires new { logged writer.old.log ≡ [] }
    requires idle { reader.side.idle ≡ options.idle }
    requires longest { reader.side.longest ≡ options.longest }
    ensures fault { IfErr result IsRefusal }
    ensures ran { IfOk result (λ r. RunsWriting
        (job_facts (begins M.Job.fresh M.gives jobs) M.Job.reacts M.Job.steps M.Job.refuses)
        (M.left jobs) options writer.new.log (session_result r.0 r.1)) }
    ensures in_reach { IfOk result (λ r. r.0.ended ≢ too_far_ahead) }
{
    let Ok(gate) = Arc::new(alloc, sight) else {
        return Err(SessionFault::Memory);
    };
    let settings = Settings::standard();
    let approach = Approach {
        opening: options.opening,
        editing: options.editing,
    };
    let limit = options.line_limit;
    serve_session_with(
        rt, alloc, reader, writer, settings, limit, approach, jobs, gate,
    )
}

// Reads the bytes that a peer still sends after it got the end of the stream, until it has closed
// or its time is over. If the connection were closed before that, the bytes that were sent last
// could be lost.
fn linger<H: Host>(rt: H, alloc: Global, stream: TcpStream, standing: &Arc<Standing, Global>) {
    let Ok(standing) = another(standing) else {
        return;
    };
    if let Ok(mut rest) = Attended::new(rt, alloc, stream, standing, 0, 0) {
        let mut unread = [0; 512];
        let _ = rest.read_some(&mut unread);
    }
}

/// Runs one session over a connection that was accepted, in threads of its own, until it has ended.
/// `jobs` makes its jobs. The result shows contracts all that was read from the connection and
/// written to it.
///
/// # Errors
///
/// - `Memory`: there is no memory for the session or a job.
/// - `Start`: a thread cannot be started, or `jobs` has no first job.
/// - `Channel`: the other end of a channel is gone.
pub fn serve_connection<H, M>(
    rt: H,
    alloc: Global,
    stream: TcpStream,
    options: SessionOptions,
    jobs: M,
) -> Result<Conversed, SessionFault>
where
    H: Host,
    M: Maker + Drop,
    M::Job: Send + 'static,
    ensures fault { IfErr result IsRefusal }
    ensures ran { IfOk result (RunsServer
        (job_facts (begins M.Job.fresh M.gives jobs) M.Job.reacts M.Job.steps M.Job.refuses)
        (M.left jobs) options) }
    ensures in_reach { IfOk result (λ conversed. conversed.report.ended ≢ too_far_ahead) }
    ensures over { IfOk result (λ conversed. connection_of conversed ≡ stream) }
{
    let (Ok(standing), Ok(traffic)) = (Standing::new(alloc), Traffic::new(alloc)) else {
        return Err(SessionFault::Memory);
    };
    let session = Session {
        rt,
        alloc,
        stream,
        options,
        jobs,
        standing,
        traffic,
    };
    session.run().ended
}
