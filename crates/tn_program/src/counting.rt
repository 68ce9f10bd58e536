//! The counts that the servers of a machine may have.

use crate::serving::Noting;
use tn_jobs::Job;
use tn_net::network::Network;
use tn_serve::Host;
use tn_serve::services::{
    Answerer, Answerers, Gateway, Heard, Joiner, ServiceReader, ServiceWriter, Told,
};
use tn_session::Maker;

/// A machine at which `tn serve` runs. The relation holds of the counts of a server that was asked
/// for by these arguments.
pub trait Serves {
    ghost use Rattle.tn_serve.specs.declared.served.Served.{Served};
    ghost use Rattle.tn_cli.specs.declared.arguments.settings.ServeWords.{ServeWords};

    // each session that it counts is one that the arguments ask for
    ghost serves: { Self → ServeWords → Served → Type 0 };
}

impl<H: Host + Network> Serves for H {
    ghost use Rattle.std.specs.Prelude.{◌≡◌, None, IfSome, string_bytes};
    ghost use Rattle.tn_program.specs.Settings.{AnswersAsAsked, JoinsAsAsked, lines_as, options_as};
    ghost use Rattle.tn_serve.specs.{Counted.{CountsSessions, facts_of, server_of}, Makers.WasTurnedAway};

    // sessions of its own job, which ticks as often as was asked for, or jobs that are joined to the service
    // that was asked for
    ghost serves = { λ rt asked served.
        (asked.to ≡ None → CountsSessions (server_of (facts_of
        ⟦<Answerer as Job>⟧.fresh ⟦<Answerers as Maker>⟧.gives ⟦<Answerer as Job>⟧.reacts
        ⟦<Answerer as Job>⟧.steps ⟦<Answerer as Job>⟧.refuses) ⟦<Answerers as Maker>⟧.left
        (options_as asked) (AnswersAsAsked asked.ticks) (WasTurnedAway (H.dismisses rt)))
        served.whole served.faulted served.refused)
        × IfSome asked.to (λ to. CountsSessions (server_of (facts_of
        ⟦<Gateway<ServiceReader<H, Heard<H, Noting<H>>>, ServiceWriter<H, Told<H>, Noting<H>>> as Job>⟧.fresh
        ⟦<Joiner<H, Noting<H>> as Maker>⟧.gives
        ⟦<Gateway<ServiceReader<H, Heard<H, Noting<H>>>, ServiceWriter<H, Told<H>, Noting<H>>> as Job>⟧.reacts
        ⟦<Gateway<ServiceReader<H, Heard<H, Noting<H>>>, ServiceWriter<H, Told<H>, Noting<H>>> as Job>⟧.steps
        ⟦<Gateway<ServiceReader<H, Heard<H, Noting<H>>>, ServiceWriter<H, Told<H>, Noting<H>>> as Job>⟧.refuses)
        ⟦<Joiner<H, Noting<H>> as Maker>⟧.left
        (options_as asked) (JoinsAsAsked rt (string_bytes to.host) to.port asked.dial (lines_as asked))
        (WasTurnedAway (H.dismisses rt))) served.whole served.faulted served.refused) };
}
