//! The passes of a session are joined, compared, and split again.

ghost use Rattle.std.specs.Prelude.{◌≡◌, ◌≢◌, List, [], IsTrue, IfSome};
ghost use Rattle.crossbeam_channel.specs.{Claims.{view, IsSeatAt}, Ends.sends_on};
ghost use Rattle.tn_session.specs.{Facts.views_of, Joining.AreSettled, workers.Stops.has_stopped};
ghost use Rattle.tn_session.specs.declared.workers.stops.Stop.{Stop as StopT};
ghost use Rattle.tn_cores.specs.queue.Queue.{putter};

use crate::parties::Ports;
use crate::stops::StopTeller;
use crate::term::{Ends, Passes};
use crate::threads::{Returned, ThreadLeft};
use crate::transcript::Transcript;
use crate::workers::{CutBack, CutDesk, CutNet, Knows, Union};
use tn_cores::queue::{CutTaker, JoinHands, Takes};

/// Joins the passes, so that their lists are compared, and splits them again.
pub(crate) fn settle(
    ends: &Ends,
    passes: Passes,
    returned: Returned,
    teller: StopTeller,
    transcript: Transcript,
) -> Ports
    requires mailbox { IsSeatAt (sends_on ends.now.to) passes.mails ×
        IsSeatAt (sends_on ends.now.to) returned.net ×
        IsSeatAt (sends_on ends.now.to) returned.desk ×
        IsSeatAt (sends_on ends.now.to) returned.back.pass }
    requires entries { IsSeatAt (sends_on ends.now.put) passes.hand ×
        IsSeatAt (sends_on ends.now.put) returned.took }
    requires teller { IsSeatAt (sends_on teller.to) teller.pass }
    requires told { (l : List StopT) × (view teller.pass ≡ putter l) }
    requires stops { IfSome returned.back.stops (λ s. IsSeatAt (sends_on teller.to) s.pass) }
    ensures settled { AreSettled (record {
      net = view returned.net;
      desk = view returned.desk;
      back = view returned.back.pass;
      term = view passes.mails;
      put = view passes.hand;
      took = view returned.took;
      told = view teller.pass;
    })
        (views_of result) }
    ensures transcript { result.transcript ≡ transcript }
    ensures stopped { IsTrue (has_stopped returned.back.stops) → view teller.pass ≢ putter [] }
{
    let Passes {
        mut mails,
        mut hand,
        give: _,
        step_credits: _,
    } = passes;
    let Returned {
        net,
        desk,
        took,
        back: ThreadLeft { pass: back, stops },
    } = returned;
    let told = teller.settle(stops);
    ends.to.absorb::<Union>(&mut mails, net);
    ends.to.absorb::<Union>(&mut mails, desk);
    ends.to.absorb::<Union>(&mut mails, back);
    ends.to.learn_as::<Knows>(&mut mails);
    ends.put.absorb::<JoinHands>(&mut hand, took);
    ends.put.learn_as::<Takes>(&mut hand);
    let net = ends.to.another::<CutNet>(&mut mails);
    let desk = ends.to.another::<CutDesk>(&mut mails);
    let back = ends.to.another::<CutBack>(&mut mails);
    let took = ends.put.another::<CutTaker>(&mut hand);
    Ports {
        net,
        desk,
        back,
        term: mails,
        put: hand,
        took,
        told,
        transcript,
    }
}
