//! The machine that sessions run on.

use crate::client_files::ClientFiles;
use log::Log;
use std::io::Print;
use std::sync::Wait;
use std::thread::Threads;
use std::time::Clock;

/// The capabilities that a session over a connection needs from its machine, besides the network:
/// threads and waits, the clock, standard output for a client's lines to its user at a terminal, a
/// log, and the files of a client.
pub trait Host: ClientFiles + Clock + Log + Print + Threads + Wait + Copy + Send + 'static {}

impl<H> Host for H
where
    H: ClientFiles + Clock + Log + Print + Threads + Wait + Copy + Send + 'static,
{}
