//! The channel of entries, of which `None` is the end.

use tn_cores::queue::{QueuePass, QueueReceiver, QueueSender};
use tn_discipline::Entry;

pub type EntryPass = QueuePass<Option<Entry>>;

pub type EntrySender = QueueSender<Option<Entry>>;

pub type EntryReceiver = QueueReceiver<Option<Entry>>;

/// The seat of the thread that takes entries: the end at which they come, and the pass.
#[derive(Drop)]
pub struct EntrySeat {
    pub from: EntryReceiver,
    pub pass: EntryPass,
}
