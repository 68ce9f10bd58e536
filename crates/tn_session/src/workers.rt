//! The work of a session's threads, without the waiting: those that read, and those of its jobs. A
//! trait (`Post`) has the calls that send and take. `tn_session` implements it over the channels,
//! so that nothing in this crate waits or starts a thread.
//!
//! Begin with `Post`, and with `MailSeat`, from which a thread sends.
//!
//! ```
//! let mut seat = MailSeat { to, pass };
//! run_desk(&post, alloc, &mut seat, &mut entries, id, job, &gate)?;
//! ```

pub use back::{Runner, run_back};
pub use channels::{
    AllRoles, CutBack, CutDesk, CutKeys, CutNet, Handles, Knows, MailPass, MailReceiver, MailSeat,
    MailSender, Sends, Union, View,
};
pub use credit::{
    Credit, CreditPass, CreditReceiver, CreditSeat, CreditSender, CreditTally, CutReader, Freely,
    Gives, StepCredits, TakesOne,
};
pub use desk::run_desk;
pub use entries::{EntryPass, EntryReceiver, EntrySeat, EntrySender};
pub use mail::{Mail, Sender};
pub use post::Post;
pub use reader::{ReaderPart, run_reader};
pub use stops::{Stop, StopPass, StopSeat};

mod back;
mod channels;
mod credit;
mod desk;
mod entries;
mod mail;
mod post;
mod reader;
mod stops;
