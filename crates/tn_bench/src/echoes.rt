//! Keys and lines over a connection on this machine, with a wait for the echo and the answer of each.

use crate::measure::{Bench, Done, Stuck, Workload};
use std::alloc::Global;
use std::io::{Read, Write};
use std::net::{Ipv4Addr, Net, TcpListener, TcpStream};
use std::thread;
use std::time::Clock;
use tn_discipline::Limit;
use tn_serve::services::Answerers;
use tn_serve::{Host, SessionOptions, serve_connection};
use tn_server::{Editing, Opening};

/// The length of a server's opening messages.
const OPENING: usize = 15;

/// WONT LINEMODE, WONT NAWS, both SUPPRESS-GO-AHEAD, and DO ECHO.
const ANSWERS: &[u8; 15] = b"\xff\xfc\x22\xff\xfc\x1f\xff\xfd\x03\xff\xfb\x03\xff\xfd\x01";

/// The bytes that are sent at once, and the number of bytes that come back.
type Question = (&'static [u8], usize);

/// A byte that comes back.
const BYTE: &[Question; 1] = &[(b"x", 1)];

/// A key and its echo, and ERASE, which leaves the line as it was.
const KEYS: &[Question; 2] = &[(b"x", 1), (b"\x7f", 3)];

/// A line, its echo, and the job's answer, which is the line.
const LINE: &[Question; 1] = &[(b"x\r\0", 6)];

/// The program at the other end of a connection that answers.
#[derive(Clone, Copy)]
enum Who {
    /// A thread that sends back what arrives.
    Thread,
    /// A server's session, as `tn serve` runs it.
    Session,
}

/// Asks the questions in turn, and waits each time for what comes back.
#[derive(Drop)]
struct Asking {
    stream: TcpStream,
    questions: &'static [Question],
    turn: usize,
}

impl Workload for Asking {
    fn once(&mut self) -> Result<Done, Stuck> {
        let Some((sent, due)) = self.questions.get(self.turn) else {
            return Err(Stuck);
        };
        self.turn = (self.turn.saturating_add(1))
            .checked_rem(self.questions.len())
            .unwrap_or(0);
        let mut back = [0; 8];
        let due = (*due).min(8);
        self.stream.write_all(sent)?;
        self.stream.read_exact(&mut back[..due])?;
        Ok(Done {
            bytes: sent.len() as u64,
            wholes: 1,
        })
    }
}

// Sends back each byte that arrives, until the input ends.
fn send_back(mut stream: TcpStream) -> bool {
    let mut piece = [0; 512];
    for _ in 0..u64::MAX {
        let Ok(count) = stream.read(&mut piece) else {
            return false;
        };
        let Some(came) = piece.get(..count) else {
            return false;
        };
        if count == 0 {
            return true;
        }
        if stream.write_all(came).is_err() {
            return false;
        }
    }
    false
}

// Both ends of a connection.
fn connection<H>(rt: &H) -> Result<(TcpStream, TcpStream), Stuck>
where
    H: Net<Listener = TcpListener, Stream = TcpStream>,
{
    let listener = TcpListener::bind(rt, (Ipv4Addr::LOCALHOST, 0))?;
    let port = listener.local_addr()?.port();
    let stream = TcpStream::connect(rt, (Ipv4Addr::LOCALHOST, port))?;
    let (peer, _) = listener.accept()?;
    stream.set_nodelay(true)?;
    Ok((stream, peer))
}

fn ask_thread<H: Clock, W: Write>(
    alloc: Global,
    bench: &mut Bench<'_, H, W>,
    stream: TcpStream,
) -> Result<(), Stuck> {
    let mut load = Asking {
        stream,
        questions: BYTE,
        turn: 0,
    };
    bench.tell_middle(
        alloc,
        "a byte over loopback, sent back by a thread",
        &mut load,
    )
}

// Both ends agree that the server echoes; then keys and lines are typed.
fn ask_session<H: Clock, W: Write>(
    alloc: Global,
    bench: &mut Bench<'_, H, W>,
    mut stream: TcpStream,
) -> Result<(), Stuck> {
    let mut opening = [0; OPENING];
    stream.read_exact(&mut opening)?;
    stream.write_all(ANSWERS)?;
    let mut load = Asking {
        stream,
        questions: KEYS,
        turn: 0,
    };
    bench.tell_middle(alloc, "a key's echo over loopback", &mut load)?;
    load.questions = LINE;
    load.turn = 0;
    bench.tell_middle(alloc, "a line's echo and answer over loopback", &mut load)
}

fn answer<H: Host>(rt: H, alloc: Global, peer: TcpStream, who: Who) -> bool {
    match who {
        Who::Thread => send_back(peer),
        Who::Session => {
            let options = SessionOptions {
                line_limit: Limit::standard(),
                opening: Opening::Keys,
                editing: Editing::Remote,
                idle: 0,
                longest: 0,
            };
            serve_connection(rt, alloc, peer, options, Answerers::new(0)).is_ok()
        },
    }
}

// Measures bytes that a thread of this program sends back over a connection.
fn over<H, W: Write>(
    rt: H,
    alloc: Global,
    bench: &mut Bench<'_, H, W>,
    who: Who,
) -> Result<(), Stuck>
where
    H: Host + Clock + Net<Listener = TcpListener, Stream = TcpStream>,
{
    let (stream, peer) = connection(&rt)?;
    let thread = thread::spawn(&rt, move || -> bool { answer(rt, alloc, peer, who) })?;
    let told = match who {
        Who::Thread => ask_thread(alloc, bench, stream),
        Who::Session => ask_session(alloc, bench, stream),
    };
    thread.join(&rt);
    told
}

pub(crate) fn run<H, W: Write>(
    rt: H,
    alloc: Global,
    bench: &mut Bench<'_, H, W>,
) -> Result<(), Stuck>
where
    H: Host + Clock + Net<Listener = TcpListener, Stream = TcpStream>,
{
    over(rt, alloc, bench, Who::Thread)?;
    over(rt, alloc, bench, Who::Session)
}
