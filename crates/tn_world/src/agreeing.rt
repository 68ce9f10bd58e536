//! The agreement of both ends about the options.

ghost use Rattle.std.specs.Prelude.{◌≡◌, ◌↔◌, IsTrue};
ghost use Rattle.tn_option.specs.{EnginePair.facing, declared.q_method.Side.TheVariants.{Us, Them}};
ghost use Rattle.tn_world.specs.Agreement.{IsSameState, AgreeOn, OptionsAgree};
ghost use Rattle.tn_world.specs.Headline.{NoneFailed, NothingInFlight};

use crate::world::World;
use tn_option::{ECHO, LINEMODE, NAWS, QState, SUPPRESS_GO_AHEAD, Side};

impl World {
    /// Returns whether each option, in each direction, is on at both ends or off at both (RFC
    /// 1143). It is so after any events, quiet or not, if nothing is in flight and no end has
    /// failed.
    pub fn options_agree(&self) -> bool
        ensures agree { IsTrue result ↔ OptionsAgree self.now }
        ensures at_rest { NoneFailed self.now → NothingInFlight self.now → IsTrue result }
    {
        // No code is needed; the proof begins with what every world keeps.
        let _ = &self.server;
        self.agree_on_each()
    }

    fn agree_on_each(&self) -> bool
        ensures { IsTrue result ↔ OptionsAgree self.now }
    {
        self.agree_on(ECHO)
            && self.agree_on(SUPPRESS_GO_AHEAD)
            && self.agree_on(NAWS)
            && self.agree_on(LINEMODE)
    }

    // Returns whether an option agrees in both directions.
    fn agree_on(&self, option: u8) -> bool
        ensures us { IsTrue result → AgreeOn self.now Us option }
        ensures them { IsTrue result → AgreeOn self.now Them option }
        ensures both { AgreeOn self.now Us option → AgreeOn self.now Them option → IsTrue result }
    {
        is_same(
            self.server.option(Side::Us, option),
            self.client.option(Side::Them, option),
        ) && is_same(
            self.server.option(Side::Them, option),
            self.client.option(Side::Us, option),
        )
    }
}

// Returns whether one direction is on at both ends, or off at both.
fn is_same(here: QState, there: QState) -> bool
    ensures { IsTrue result ↔ IsSameState here there }
{
    match here {
        QState::Yes => there == QState::Yes,
        QState::No => there == QState::No,
        _ => false,
    }
}
