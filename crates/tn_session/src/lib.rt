//! Running sessions, and the channels between their threads: a server end, its jobs and its connection,
//! each in a thread of its own (`serve_session`); and a client end, its keys and its connection
//! (`client_session`).
//!
//! `workers` has what the threads do apart from waiting; `roster` numbers the sessions that run at once.
#![tactic(auto)]

pub use crate::workers::{
    AllRoles, EntryPass, EntryReceiver, EntrySender, Knows, Mail, MailPass, MailReceiver,
    MailSender, Sender, Stop, StopPass, View,
};
pub use client::client_session;
pub use parties::{ClientPorts, Maker, Ports, Report, Unwatched};
pub use roster::{Roster, RosterFault};
pub use session::{serve_session, serve_session_with};
pub use tn_cores::client::{Origin, Terms};
pub use tn_cores::queue::{Hand, InTurn};
pub use tn_cores::streams::Finish;
pub use tn_cores::{Ended, Gate, Message, Place, SessionFault, Typed};
pub use transcript::{Seal, Transcript};

mod client;
mod client_loop;
mod closing;
mod credit;
mod joining;
mod making;
mod parties;
pub mod roster;
mod session;
mod stops;
mod term;
mod threads;
mod transcript;
mod waiting;
pub mod workers;
