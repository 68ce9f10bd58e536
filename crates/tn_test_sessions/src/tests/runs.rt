//! One run of a session of each kind, with what the tests have alike.

use std::alloc::Global;
use std::sync::{Arc, Wait};
use std::thread::Threads;
use tn_cores::streams::{Drain, Source};
use tn_discipline::{Limit, Settings};
use tn_server::Editing;
use tn_session::{Finish, Gate, Maker, Report, SessionFault, client_session, serve_session};

/// Runs a server's session, and returns its report.
pub(super) fn serve<R, Rd, W, M, G>(
    rt: R,
    alloc: Global,
    reader: Rd,
    writer: &mut W,
    settings: Settings,
    editing: Editing,
    maker: M,
    gate: G,
) -> Result<Report, SessionFault>
where
    R: Threads + Wait + Copy + Send + 'static,
    Rd: Source + Drop + Send + 'static,
    W: Finish,
    M: Maker + Drop,
    M::Job: Send + 'static,
    G: Gate + Drop + Send + Sync + 'static,
{
    let Ok(gate) = Arc::new(alloc, gate) else {
        return Err(SessionFault::Memory);
    };
    let limit = Limit::standard();
    match serve_session(
        rt, alloc, reader, writer, settings, limit, editing, maker, gate,
    ) {
        Ok((report, _ports)) => Ok(report),
        Err(fault) => Err(fault),
    }
}

/// Runs a client's session in a window of 80 by 24, and returns its report.
pub(super) fn join<R, N, K, W, S, G>(
    rt: R,
    alloc: Global,
    net: N,
    keys: K,
    writer: &mut W,
    screen: &mut S,
    gate: G,
) -> Result<Report, SessionFault>
where
    R: Threads + Wait + Copy + Send + 'static,
    N: Source + Drop + Send + 'static,
    K: Source + Drop + Send + 'static,
    W: Finish,
    S: Drain,
    G: Gate + Drop + Send + Sync + 'static,
{
    let Ok(gate) = Arc::new(alloc, gate) else {
        return Err(SessionFault::Memory);
    };
    let limit = Limit::standard();
    match client_session(rt, alloc, net, keys, writer, screen, 80, 24, limit, gate) {
        Ok((report, _ports)) => Ok(report),
        Err(fault) => Err(fault),
    }
}
