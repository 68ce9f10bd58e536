//! The thread of the terminal, which handles messages until all senders have left.

ghost use Rattle.std.specs.Prelude.{◌≡◌, ◌≤◌, ◌&&◌, ◌||◌, not, ◌++◌, ◌∷◌, List, Option, Some, [], true};
ghost use Rattle.std.specs.{Prelude.{IsTrue, false, IfOk, IfSome}, Io.KnownBytes.Keeps};
ghost use Rattle.crossbeam_channel.specs.{Claims.{view, IsSeatAt}, Ends.{sends_on, receives_on}};
ghost use Rattle.tn_discipline.specs.declared.reads.Entry.{Entry as EntryT};
ghost use Rattle.tn_session.specs.{Closing.Closes, Credits.{GivesCredits, GivesStepCredits}, Notes.noted_of};
ghost use Rattle.tn_session.specs.Stops.{term_stops, leaves as leaves_of};
ghost use Rattle.tn_session.specs.Turns.{HandlesAll, StaysInReach, TurnsMessage, left_one};
ghost use Rattle.tn_session.specs.declared.workers.mail.Sender.TheVariants.{Back};
ghost use Rattle.tn_cores.specs.{queue.Queue.putter, streams.Known.known_writing, server.Marks.is_whole};
ghost use Rattle.tn_cores.specs.{streams.Sending.{StaysOpen, IsFinished}, server.Run.puts_of};

use crate::closing::finish_once;
use crate::credit::{CreditGiver, give_credit, is_piece};
use crate::stops::Watched;
use crate::transcript::Output;
use crate::workers::{
    CreditPass, CreditSender, EntryPass, EntrySender, Mail, MailPass, MailReceiver, MailSender,
    Sender,
};
use std::sync::Wait;
use tn_cores::queue::Puts;
use tn_cores::server::{MessageOutcome, Put, ServerMark, ServerProgress, Term};
use tn_cores::streams::Finish;
use tn_cores::{Gate, Message, Place};
use tn_discipline::Entry;
use tn_jobs::JobId;

/// The number of threads that send messages.
const SENDERS: u64 = 3;

/// The terminal's ends of the channels.
#[derive(Drop)]
pub(crate) struct Ends {
    pub(crate) to: MailSender,
    pub(crate) from: MailReceiver,
    pub(crate) put: EntrySender,
    pub(crate) give: CreditSender,
}

/// The terminal's passes of the mailbox, of the entries and of the credits, and the end at which it
/// gives credits for steps.
#[derive(Drop)]
pub(crate) struct Passes {
    pub(crate) mails: MailPass,
    pub(crate) hand: EntryPass,
    pub(crate) give: CreditPass,
    pub(crate) step_credits: CreditGiver,
}

// Puts an entry, or the end of the entries. It returns `None` if the other end is gone.
fn put_entry<R: Wait>(
    rt: &R,
    entries: &EntrySender,
    hand: &mut EntryPass,
    entry: Option<Entry>,
) -> Option<()>
    requires seat { IsSeatAt (sends_on entries.now) hand.old }
    requires role { (l : List (Option EntryT)) × (view hand.old ≡ putter l) }
    ensures seat { IsSeatAt (sends_on entries.now) hand.new }
    ensures put { IfSome result (λ _. (l : List (Option EntryT)) → view hand.old ≡ putter l →
        view hand.new ≡ putter (l ++ entry ∷ [])) }
{
    match entries.send_as::<Puts, R>(rt, hand, entry) {
        Ok(()) => Some(()),
        Err(_) => None,
    }
}

// Puts the entry for the foreground job, if there is one. It returns `None` if the other end is
// gone.
fn put_if<R: Wait>(rt: &R, entries: &EntrySender, hand: &mut EntryPass, put: Put) -> Option<()>
    requires seat { IsSeatAt (sends_on entries.now) hand.old }
    requires role { (l : List (Option EntryT)) × (view hand.old ≡ putter l) }
    ensures seat { IsSeatAt (sends_on entries.now) hand.new }
    ensures put { IfSome result (λ _. (l : List (Option EntryT)) → view hand.old ≡ putter l →
        view hand.new ≡ putter (l ++ puts_of put)) }
{
    match put {
        Put::Nothing => Some(()),
        Put::Entry(entry) => put_entry(rt, entries, hand, Some(entry)),
        Put::End => put_entry(rt, entries, hand, None),
    }
}

pub(crate) fn leaves(message: &Message) -> u64
    ensures { result ≡ left_one message.now }
{
    match message {
        Message::Left => 1,
        _ => 0,
    }
}

// Returns the job that sent a message, if a job did.
fn job_of(message: &Message) -> Option<JobId> {
    match message {
        Message::Said { job, .. } => Some(*job),
        _ => None,
    }
}

// Reports to the gate if an entry was put.
fn tell_took<G: Gate>(gate: &G, before: u64, after: u64) {
    if after > before {
        gate.at(Place::TermTook);
    }
}

// Returns whether a credit is owed after a message.
fn is_due(owed: bool, piece: bool) -> bool
    ensures { result ≡ (owed || piece) }
{
    owed || piece
}

fn tell_said<G: Gate>(gate: &G, job: Option<JobId>) {
    if let Some(job) = job {
        gate.at(Place::TermSaid(job));
    }
}

// Reports to the gate how far the terminal is with the typed keys.
fn tell_typed<G: Gate>(gate: &G, term: &Term) {
    gate.typed(term.typed());
}

// Returns whether nothing more is to be done after a write.
fn is_done(written: bool, mark: ServerMark) -> bool
    ensures { result ≡ (written || not (is_whole mark)) }
{
    match mark {
        ServerMark::Whole => written,
        ServerMark::WriteFailed | ServerMark::Refused { .. } => true,
    }
}

// Handles one message: the entry that it gives is put, the bytes that it appends are written, and
// if a write fails nothing has any effect from then on. It returns `None` if the other end of the
// entries is gone. It takes eight arguments, since the gate gets the window's size before the
// foreground job gets what came after that.
fn turn<R: Wait, W: Finish, G: Gate>(
    rt: &R,
    entries: &EntrySender,
    hand: &mut EntryPass,
    term: &mut Term,
    message: Message,
    output: &mut Output,
    writer: &mut W,
    gate: &G,
) -> Option<()>
    requires seat { IsSeatAt (sends_on entries.now) hand.old }
    requires role { (l : List (Option EntryT)) × (view hand.old ≡ putter l) }
    requires out { output.old.out.items ≡ [] }
    ensures seat { IsSeatAt (sends_on entries.now) hand.new }
    ensures out { output.new.out.items ≡ [] }
    ensures turned { IfSome result (λ _.
        TurnsMessage term.old message (known_writing W.contents W.told writer.old writer.new)
        (noted_of output.old.transcript) (noted_of output.new.transcript)
        (view hand.old) (view hand.new)
        term.new) }
    ensures going { StaysOpen (W.sending writer.old) (W.sending writer.new) }
    ensures silent { IsTrue term.old.progress.over → W.sending writer.new ≡ W.sending writer.old }
{
    let MessageOutcome { put, last, mark } = term.handle(message, &mut output.out);
    gate.resized(term.size());
    let is_put = put_if(rt, entries, hand, put);
    let written = output.write_out(writer);
    is_put?;
    if is_done(written, mark) {
        return put_if(rt, entries, hand, last);
    }
    let last = term.write_failed();
    put_if(rt, entries, hand, last)
}

// Returns whether the background jobs are to stop: no more comes, or nothing has any effect any
// more.
fn stops(progress: ServerProgress) -> bool
    ensures { result ≡ term_stops progress }
{
    progress.over || progress.at_end
}

// Returns whether Back has left, after this message.
fn has_left(before: bool, mail: &Mail) -> bool
    ensures { result ≡ (before || leaves_of Back mail.now) }
{
    match (mail.from, &mail.message) {
        (Sender::Back, Message::Left) => true,
        _ => before,
    }
}

// Returns whether Back is to be asked to stop: not once it has left.
fn is_told(progress: ServerProgress, back_left: bool) -> bool
    ensures { result ≡ (term_stops progress && not back_left) }
{
    stops(progress) && !back_left
}

/// Finishes the writer, since no more comes, unless it was finished before.
pub(crate) fn finish_unless<W: Finish>(closed: bool, writer: &mut W)
    ensures contents { Keeps (W.contents writer.old) (W.contents writer.new) }
    ensures told { W.told writer.new ≡ W.told writer.old }
    ensures closes { Closes true closed true (W.sending writer.old) (W.sending writer.new) }
{
    if !closed {
        writer.finish();
    }
}

// tools/progress: proctype Term
/// Handles the messages until all senders have left, and gives a credit for the next piece once it
/// is welcome, and for one more step of a background job as it takes one. It returns `None` if the
/// other end of a channel is gone, or a piece comes that is not welcome. The thread that reads
/// waits for a credit before each piece, but no rule of the channels states that.
pub(crate) fn run_term<R: Wait, W: Finish, G: Gate>(
    rt: &R,
    ends: &Ends,
    passes: &mut Passes,
    term: &mut Term,
    output: &mut Output,
    writer: &mut W,
    watched: &mut Watched<G>,
) -> Option<()>
    requires mailbox { IsSeatAt (receives_on ends.now.from) passes.old.mails ×
        ((view passes.old.mails).handled ≡ Some []) }
    requires entries { (l : List (Option EntryT)) ×
        IsSeatAt (sends_on ends.now.put) passes.old.hand ×
        (view passes.old.hand ≡ putter l) }
    requires credits { IsSeatAt (sends_on ends.now.give) passes.old.give }
    requires step_credits { IsSeatAt (sends_on passes.old.step_credits.to)
        passes.old.step_credits.pass }
    requires out { output.old.out.items ≡ [] }
    requires stops { IsSeatAt (sends_on watched.old.stops.to) watched.old.stops.pass ×
        (view watched.old.stops.pass ≡ putter []) }
    ensures mailbox { IfSome result (λ _. IsSeatAt (receives_on ends.now.from) passes.new.mails) }
    ensures entries { IfSome result (λ _. IsSeatAt (sends_on ends.now.put) passes.new.hand) }
    ensures acted { IfSome result (λ _.
        HandlesAll term.old (view passes.old.mails) (view passes.new.mails) (view passes.old.hand)
        (view passes.new.hand) (known_writing W.contents W.told writer.old writer.new)
        (noted_of output.old.transcript) (noted_of output.new.transcript)
        (view watched.new.stops.pass)
        term.new) }
    ensures credits { IfSome result
        (λ _. GivesCredits (view passes.old.mails) (view passes.new.mails)
        (view passes.old.give) (view passes.new.give)) }
    ensures step_credits { IfSome result (λ _. GivesStepCredits (view passes.old.mails)
        (view passes.new.mails) (view passes.old.step_credits.pass)
        (view passes.new.step_credits.pass)) }
    ensures in_reach { IfSome result (λ _. StaysInReach term.old term.new.progress.ended) }
    ensures finished { IfSome result
        (λ _. IsFinished (W.sending writer.old) (W.sending writer.new)) }
    ensures stops { IfSome result (λ _. (watched.new.stops.to ≡ watched.old.stops.to) ×
        IsSeatAt (sends_on watched.new.stops.to) watched.new.stops.pass) }
{
    let mut lefts = 0u64;
    let mut back_left = false;
    let mut closed = finish_once(writer, term.progress().over, false);
    let mut told = watched.stops.tell(rt, stops(term.progress()), false)?;
    let mut owed = give_credit(rt, &ends.give, &mut passes.give, true, term);
    for _ in rt.forever() {
        if lefts >= SENDERS {
            finish_unless(closed, writer);
            return Some(());
        }
        let mail = output.transcript.take(rt, &ends.from, &mut passes.mails)?;
        back_left = has_left(back_left, &mail);
        passes.step_credits.give_for(rt, &mail);
        let Mail { from: _, message } = mail;
        if !term.welcomes(&message) {
            return None;
        }
        let left = leaves(&message);
        let job = job_of(&message);
        let piece = is_piece(&message);
        let before = term.progress().entries;
        turn(
            rt,
            &ends.put,
            &mut passes.hand,
            term,
            message,
            output,
            writer,
            &*watched.gate,
        )?;
        tell_took(&*watched.gate, before, term.progress().entries);
        tell_said(&*watched.gate, job);
        tell_typed(&*watched.gate, term);
        closed = finish_once(writer, term.progress().over, closed);
        told = watched
            .stops
            .tell(rt, is_told(term.progress(), back_left), told)?;
        owed = give_credit(rt, &ends.give, &mut passes.give, is_due(owed, piece), term);
        lefts += left;
    }
    unreachable!()
}
