//! The core of a client's session, which handles messages until both senders have left.

ghost use Rattle.std.specs.Prelude.{◌≡◌, ◌&&◌, ◌||◌, not, true, IsTrue, List, Some, [], IfSome};
ghost use Rattle.std.specs.Io.KnownBytes.{Keeps};
ghost use Rattle.crossbeam_channel.specs.{Claims.{view, IsSeatAt}, Ends.{receives_on, sends_on}};
ghost use Rattle.tn_cores.specs.{client.Marks.is_whole, queue.Queue.putter, streams.Known.known_writing};
ghost use Rattle.tn_cores.specs.streams.Sending.{StaysOpen, IsFinished};
ghost use Rattle.tn_session.specs.{Notes.{noted_of, takes}, workers.Mailbox.handed};
ghost use Rattle.tn_session.specs.CoreTurns.{TurnsTold, CoreHandles, origin_of, told_of};
ghost use Rattle.tn_session.specs.Stops.{core_stops, leaves as leaves_of};
ghost use Rattle.tn_session.specs.declared.workers.mail.{Mail.Mail as MailT, Sender.TheVariants.Keys};

use crate::closing::finish_once;
use crate::stops::Watched;
use crate::term::{finish_unless, leaves};
use crate::transcript::{Output, Transcript};
use crate::workers::{Mail, MailPass, MailReceiver, Sender};
use std::alloc::Global;
use std::sync::Wait;
use tn_cores::client::{ClientMark, ClientProgress, Core, Origin, Told};
use tn_cores::streams::{Drain, Finish, write_all};
use tn_cores::{Gate, Message};

/// The number of threads that send messages.
const SENDERS: u64 = 2;

fn origin_of(from: Sender) -> Origin
    ensures { result ≡ origin_of from }
{
    match from {
        Sender::Keys => Origin::Keys,
        Sender::Net | Sender::Desk | Sender::Back => Origin::Net,
    }
}

fn told_of(mail: Mail) -> Told
    ensures { result ≡ told_of mail }
{
    let Mail { from, message } = mail;
    Told {
        from: origin_of(from),
        message,
    }
}

// Returns whether nothing more is to be done after both writes.
fn is_done(written: bool, shown: bool, mark: ClientMark) -> bool
    ensures { result ≡ ((written && shown) || not (is_whole mark)) }
{
    match mark {
        ClientMark::Whole => written && shown,
        ClientMark::WriteFailed | ClientMark::ShowFailed | ClientMark::Refused(_) => true,
    }
}

// Reports to the gate the terms on which the core has agreed, and whether nothing has any effect
// any more.
fn tell<G: Gate>(gate: &G, core: &Core) {
    gate.agreed(core.terms());
    if core.progress().over {
        gate.over();
    }
}

// Handles one message: the bytes that it appends are written and shown, and if a write fails
// nothing has any effect from then on. The gate gets the terms first, so that it never has older
// ones than the user sees.
fn turn<W: Finish, S: Drain, G: Gate>(
    core: &mut Core,
    told: Told,
    output: &mut Output,
    text: &mut Vec<u8>,
    writer: &mut W,
    screen: &mut S,
    gate: &G,
)
    requires out { output.old.out.items ≡ [] }
    requires text { text.old.items ≡ [] }
    ensures out { output.new.out.items ≡ [] }
    ensures text { text.new.items ≡ [] }
    ensures turned { TurnsTold core.old told (known_writing W.contents W.told writer.old writer.new)
        (known_writing S.contents S.told screen.old screen.new) (noted_of output.old.transcript)
        (noted_of output.new.transcript) core.new }
    ensures going { StaysOpen (W.sending writer.old) (W.sending writer.new) }
    ensures silent { IsTrue (core.old.progress.over || core.old.progress.closed) →
        W.sending writer.new ≡ W.sending writer.old }
    ensures closed { IsTrue core.old.progress.closed → IsTrue core.new.progress.closed }
{
    gate.handles(told.from);
    let mark = core.handle(told, &mut output.out, text);
    tell(gate, core);
    let written = output.write_out(writer);
    let shown = write_all(screen, text);
    text.clear();
    if is_done(written, shown, mark) {
        return;
    }
    core.write_failed();
}

// Returns whether Keys is to stop: no more comes from the network, or nothing has any effect any
// more.
fn stops(progress: ClientProgress) -> bool
    ensures { result ≡ core_stops progress }
{
    progress.over || progress.at_end
}

// Returns whether nothing more goes to the network.
fn closes(progress: ClientProgress) -> bool
    ensures { result ≡ (progress.over || progress.closed) }
{
    progress.over || progress.closed
}

// Takes the next message. What the screen holds back is shown before this thread waits for one, and
// once a sender leaves. It returns `None` if the other end of the mailbox is gone.
fn next_mail<R: Wait, S: Drain>(
    rt: &R,
    transcript: &mut Transcript,
    from: &MailReceiver,
    pass: &mut MailPass,
    screen: &mut S,
) -> Option<Mail>
    requires seat { IsSeatAt (receives_on from.now) pass.old }
    requires role { (l : List MailT) × ((view pass.old).handled ≡ Some l) }
    ensures seat { IsSeatAt (receives_on from.now) pass.new }
    ensures handled { IfSome result (λ mail. view pass.new ≡ handed (view pass.old) mail) }
    ensures noted { IfSome result (λ mail.
        noted_of transcript.new ≡ takes (noted_of transcript.old) mail) }
    ensures shown { Keeps (S.contents screen.old) (S.contents screen.new) }
    ensures told { S.told screen.new ≡ S.told screen.old }
{
    match transcript.look(rt, from, pass) {
        Some(mail) => {
            if leaves(&mail.message) > 0 {
                screen.pass_on();
            }
            Some(mail)
        },
        None => {
            screen.pass_on();
            transcript.take(rt, from, pass)
        },
    }
}

// Returns whether Keys has left, after this message.
fn has_left(before: bool, mail: &Mail) -> bool
    ensures { result ≡ (before || leaves_of Keys mail.now) }
{
    match (mail.from, &mail.message) {
        (Sender::Keys, Message::Left) => true,
        _ => before,
    }
}

// Returns whether the word to stop is due to Keys: not once it has left.
fn is_due(progress: ClientProgress, keys_left: bool) -> bool
    ensures { result ≡ (core_stops progress && not keys_left) }
{
    stops(progress) && !keys_left
}

// tools/progress: proctype Core
/// Handles the messages until both senders have left. It returns `None` if the other end of a
/// channel is gone. It takes eight arguments, since the core, the writer and the screen are lent
/// each by itself.
pub(crate) fn run_core<R: Wait, W: Finish, S: Drain, G: Gate>(
    rt: &R,
    alloc: Global,
    from: &MailReceiver,
    pass: &mut MailPass,
    core: &mut Core,
    writer: &mut W,
    screen: &mut S,
    watched: &mut Watched<G>,
) -> Option<Transcript>
    requires mailbox { IsSeatAt (receives_on from.now) pass.old ×
        ((view pass.old).handled ≡ Some []) }
    requires stops { IsSeatAt (sends_on watched.old.stops.to) watched.old.stops.pass ×
        (view watched.old.stops.pass ≡ putter []) }
    ensures mailbox { IfSome result (λ _. IsSeatAt (receives_on from.now) pass.new) }
    ensures acted { IfSome result (λ transcript.
        CoreHandles core.old (view pass.old) (view pass.new)
        (known_writing W.contents W.told writer.old writer.new)
        (known_writing S.contents S.told screen.old screen.new) (noted_of transcript)
        (view watched.new.stops.pass) core.new) }
    ensures finished { IfSome result
        (λ _. IsFinished (W.sending writer.old) (W.sending writer.new)) }
    ensures stops { IfSome result (λ _. (watched.new.stops.to ≡ watched.old.stops.to) ×
        IsSeatAt (sends_on watched.new.stops.to) watched.new.stops.pass) }
{
    let mut told = watched.stops.tell(rt, stops(core.progress()), false)?;
    let mut output = Output::new(alloc);
    let mut text = Vec::new(alloc);
    let mut lefts = 0u64;
    let mut closed = false;
    let mut keys_left = false;
    for _ in rt.forever() {
        if lefts >= SENDERS {
            finish_unless(closed, writer);
            return Some(output.transcript);
        }
        let mail = next_mail(rt, &mut output.transcript, from, pass, screen)?;
        let left = leaves(&mail.message);
        keys_left = has_left(keys_left, &mail);
        turn(
            core,
            told_of(mail),
            &mut output,
            &mut text,
            writer,
            screen,
            &*watched.gate,
        );
        closed = finish_once(writer, closes(core.progress()), closed);
        told = watched
            .stops
            .tell(rt, is_due(core.progress(), keys_left), told)?;
        lefts += left;
    }
    unreachable!()
}
