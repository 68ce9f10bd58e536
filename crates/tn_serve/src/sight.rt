//! The facts of a session that its jobs see.

use std::alloc::Global;
use std::sync::Arc;
use tn_cores::streams::WindowSize;
use tn_cores::{Gate, Place, Typed};
use tn_net::Standing;

/// Notes how far a session is with what its client typed, and the size of the client's window.
#[derive(Drop)]
pub(crate) struct Sight {
    pub(crate) standing: Arc<Standing, Global>,
}

impl Gate for Sight {
    fn at(&self, place: Place) {
        if place == Place::NetPiece {
            self.standing.count_piece();
        }
    }

    fn typed(&self, typed: Typed) {
        let Typed {
            pieces,
            is_answered,
            is_interrupted,
        } = typed;
        self.standing
            .note_typed(pieces, is_answered, is_interrupted);
    }

    fn resized(&self, size: WindowSize) {
        self.standing.note_window(size);
    }
}
