//! The question whether a world is at rest.

ghost use Rattle.std.specs.{Prelude.{◌≡◌, ◌↔◌, true, IsTrue, []}, List.list_all};
ghost use Rattle.tn_world.specs.Headline.{IsSettled, IsSteady, is_in_order, AgreeOnLinemode, AgreeOnMask};
ghost use Rattle.tn_world.specs.Headline.{IsIdle, IsAgreed, IsUncounted, IsEmpty};

use crate::world::World;
use tn_option::{ECHO, LINEMODE, NAWS, QState, SUPPRESS_GO_AHEAD, Side};

// The states of the options of an end, at both sides.
macro_rules! states {
    ($end:expr) => {
        [
            $end.option(Side::Us, ECHO),
            $end.option(Side::Us, SUPPRESS_GO_AHEAD),
            $end.option(Side::Us, NAWS),
            $end.option(Side::Us, LINEMODE),
            $end.option(Side::Them, ECHO),
            $end.option(Side::Them, SUPPRESS_GO_AHEAD),
            $end.option(Side::Them, NAWS),
            $end.option(Side::Them, LINEMODE),
        ]
    };
}

impl World {
    pub(crate) fn is_settled(&self) -> bool
        ensures { IsTrue result ↔ IsSettled self.now }
    {
        self.is_idle() && self.is_agreed() && self.is_empty()
    }

    // Returns whether nothing is in flight, and neither end has stopped or failed.
    fn is_idle(&self) -> bool
        ensures { IsTrue result ↔ IsIdle self.now }
    {
        if !self.is_flight_empty() || self.server_stopped || self.client_stopped {
            return false;
        }
        !self.server.failed() && !self.client.failed()
    }

    // Returns whether the ends agree on options, masks and special characters.
    fn is_agreed(&self) -> bool
        ensures { IsTrue result ↔ IsAgreed self.now }
    {
        if !self.is_linemode_agreed() || !self.are_masks_agreed() {
            return false;
        }
        if self.server.chars() != self.client.chars() {
            return false;
        }
        self.is_server_steady() && self.is_client_steady()
    }

    // Returns whether the mask that was asked for is in force at both ends.
    fn are_masks_agreed(&self) -> bool
        ensures { IsTrue result ↔ AgreeOnMask self.now }
    {
        let mode = self.server.mode();
        self.server.asked() == mode && mode == self.client.mode()
    }

    fn is_linemode_agreed(&self) -> bool
        ensures { IsTrue result ↔ AgreeOnLinemode self.now.server.terms.options self.now.client.options }
    {
        match self.server.option(Side::Them, LINEMODE) {
            QState::Yes => self.client.option(Side::Us, LINEMODE) == QState::Yes,
            QState::No => self.client.option(Side::Us, LINEMODE) == QState::No,
            _ => false,
        }
    }

    fn is_server_steady(&self) -> bool
        ensures { IsTrue result ↔ IsSteady self.now.server.terms.options }
    {
        are_in_order(&states!(self.server))
    }

    fn is_client_steady(&self) -> bool
        ensures { IsTrue result ↔ IsSteady self.now.client.options }
    {
        are_in_order(&states!(self.client))
    }

    // Returns whether no line is half typed, and no entry waits.
    fn is_empty(&self) -> bool
        ensures { IsTrue result ↔ IsEmpty self.now }
    {
        if !self.server.half().is_empty() || !self.client.half().is_empty() {
            return false;
        }
        if self.client.ahead() != 0 {
            return false;
        }
        if !self.is_uncounted() {
            return false;
        }
        self.none_waits()
    }

    // No entry waits for a job.
    pub(crate) fn none_waits(&self) -> bool
        ensures { IsTrue result ↔ (self.now.server.terminal.entries ≡ []) }
    {
        self.server.waiting(0).is_none()
    }

    // Returns whether the client counts no half-typed line that the server edits.
    fn is_uncounted(&self) -> bool
        ensures { IsTrue result ↔ IsUncounted self.now }
    {
        let (trapped, plain) = self.client.counts();
        trapped == 0 && plain == 0
    }
}

fn are_in_order(states: &[QState]) -> bool
    ensures { result ≡ list_all is_in_order states.now }
{
    states.iter().all(|state| is_in_order(*state))
}

// Returns whether no request waits after another (RFC 1143).
fn is_in_order(state: QState) -> bool
    ensures { result ≡ is_in_order state }
{
    match state {
        QState::WantNoOpposite | QState::WantYesOpposite => false,
        QState::No | QState::Yes | QState::WantNoEmpty | QState::WantYesEmpty => true,
    }
}
