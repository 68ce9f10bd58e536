//! Keeps the terms of a session for the thread that answers the user's questions.

use std::alloc::{AllocError, Global};
use std::sync::Arc;
use tn_discipline::Chars;
use tn_net::Link;
use tn_session::{Gate, Origin, Place, Terms};

/// A publisher of the terms and the end that the client's core reports, after each message.
#[derive(Drop)]
pub(crate) struct Publisher {
    link: Arc<Link, Global>,
}

impl Publisher {
    /// Notes it at this connection, whose session flushes its screen.
    pub(crate) fn new(
        alloc: Global,
        link: &Arc<Link, Global>,
    ) -> Result<Arc<Publisher, Global>, AllocError> {
        let link = Arc::try_clone(link)?;
        link.note_flushing();
        Ok(Arc::new(alloc, Publisher { link })?)
    }
}

impl Gate for Publisher {
    fn at(&self, _place: Place) {}

    fn handles(&self, from: Origin) {
        self.link.note_echoing(matches!(from, Origin::Keys));
    }

    fn agreed(&self, terms: Terms) {
        let goes_whole = goes_whole(&terms);
        self.link.note_whole(goes_whole);
        self.link.note_suppressed(terms.suppressed);
        self.link.note_editing(terms.linemode, terms.edits);
        self.link.note_echo(terms.echoed);
        self.link.note_held(terms.held);
    }

    // Notes that the thread of the keys waits for its user no longer.
    fn over(&self) {
        self.link.close();
    }
}

// Returns whether a line that is edited at the client goes as a whole once it ends: a signal in it
// goes as its command, which leaves the line as it is, no byte of it is in a forward mask, and the
// standard characters edit it.
fn goes_whole(terms: &Terms) -> bool {
    terms.traps && !terms.forwards && terms.chars == Chars::standard()
}
