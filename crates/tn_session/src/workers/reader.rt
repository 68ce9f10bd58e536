//! The threads that read: one from the network, and in a client's session one the keys.

ghost use Rattle.std.specs.Prelude.{◌≡◌, ◌⊎◌, List, [], IfOk, IfSome, option_to_list};
ghost use Rattle.crossbeam_channel.specs.{Claims.{view, IsSeatAt}, Ends.sends_on};
ghost use Rattle.tn_session.specs.workers.{Credits.{HaveTaken, IsSeated, pieces_among}, Mailbox.sender};
ghost use Rattle.tn_session.specs.workers.Reader.{TypingSends, SaysSize, SaysControl, SaysBeside, SaysAll};
ghost use Rattle.tn_session.specs.workers.{Reader.{SaysEnd, SaysLast}, Reading.{Gives, IsForetold}};
ghost use Rattle.tn_session.specs.workers.Stops.{StopsStay, has_stopped};
ghost use Rattle.tn_session.specs.declared.workers.mail.Mail.{Mail as MailT};
ghost use Rattle.tn_cores.specs.streams.Known.{known_typing};

use crate::workers::channels::{MailPass, MailSeat, MailSender};
use crate::workers::credit::{CreditSeat, take_credit};
use crate::workers::mail::Sender;
use crate::workers::post::Post;
use crate::workers::stops::{StopSeat, is_stopped};
use std::alloc::{AllocError, Global};
use std::sync::Arc;
use tn_cores::server::MAX_PIECE;
use tn_cores::streams::{Source, is_interrupted};
use tn_cores::{Gate, Message, Place};
use tn_discipline::Text;
use tn_jobs::{After, JobId};

// The result of a read.
#[derive(Drop)]
enum Got {
    Bytes(Text),
    // The read was interrupted, and is to be made again.
    Again,
    Last(Message),
}

fn read_piece<Rd: Source>(reader: &mut Rd, alloc: Global) -> Got
    ensures gives { Gives (Rd.remaining reader.old) (Rd.remaining reader.new) result }
    ensures foretold { IsForetold (Rd.foretold reader.old) (Rd.foretold reader.new) result }
    ensures sizes { Rd.sizes reader.new ≡ Rd.sizes reader.old }
    ensures controls { Rd.controls reader.new ≡ Rd.controls reader.old }
    ensures words { Rd.words reader.new ≡ Rd.words reader.old }
{
    let Ok(mut bytes) = Vec::from_elem(alloc, 0u8, MAX_PIECE) else {
        return Got::Last(Message::Refused);
    };
    match reader.read_some(bytes.as_mut_slice()) {
        Ok(0) => Got::Last(Message::HangUp),
        Ok(n) => {
            bytes.truncate(n);
            Got::Bytes(Text::from(bytes))
        },
        Err(error) if is_interrupted(&error) => Got::Again,
        Err(_) => Got::Last(Message::ReadFailed),
    }
}

/// The part of a thread that reads: its sender, the job as whose text it sends its reader's last
/// words, if it does, the place that the gate gets, and its gate.
#[derive(Drop)]
pub struct ReaderPart<G> {
    pub who: Sender,
    pub job: Option<JobId>,
    pub place: Place,
    pub gate: Arc<G, Global>,
}

// Sends the size of the window, if it differs from the last one. It returns `None` if the other end
// is gone.
fn tell_size<P: Post, Rd: Source>(
    post: &P,
    to: &MailSender,
    pass: &mut MailPass,
    who: Sender,
    reader: &mut Rd,
) -> Option<()>
    requires seat { IsSeatAt (sends_on to.now) pass.old }
    requires role { (l : List MailT) × (view pass.old ≡ sender who l) }
    ensures seat { IsSeatAt (sends_on to.now) pass.new }
    ensures told { IfSome result (λ _. SaysSize who (Rd.sizes reader.old) (Rd.sizes reader.new)
        (view pass.old) (view pass.new)) }
    ensures bytes { Rd.remaining reader.new ≡ Rd.remaining reader.old }
    ensures foretold { Rd.foretold reader.new ≡ Rd.foretold reader.old }
    ensures controls { Rd.controls reader.new ≡ Rd.controls reader.old }
    ensures words { Rd.words reader.new ≡ Rd.words reader.old }
{
    match reader.resized() {
        Some(size) => post.say(to, pass, who, Message::Resized(size)),
        None => Some(()),
    }
}

// Sends the control function that is requested, if there is one. It returns `None` if the other end
// is gone.
fn tell_control<P: Post, Rd: Source>(
    post: &P,
    to: &MailSender,
    pass: &mut MailPass,
    who: Sender,
    reader: &mut Rd,
) -> Option<()>
    requires seat { IsSeatAt (sends_on to.now) pass.old }
    requires role { (l : List MailT) × (view pass.old ≡ sender who l) }
    ensures seat { IsSeatAt (sends_on to.now) pass.new }
    ensures told { IfSome result
        (λ _. SaysControl who (Rd.controls reader.old) (Rd.controls reader.new)
        (view pass.old) (view pass.new)) }
    ensures bytes { Rd.remaining reader.new ≡ Rd.remaining reader.old }
    ensures foretold { Rd.foretold reader.new ≡ Rd.foretold reader.old }
    ensures sizes { Rd.sizes reader.new ≡ Rd.sizes reader.old }
    ensures words { Rd.words reader.new ≡ Rd.words reader.old }
{
    match reader.control() {
        Some(control) => post.say(to, pass, who, Message::Asked(control)),
        None => Some(()),
    }
}

// Sends what a reader reports between two reads. It returns `None` if the other end is gone.
fn tell_beside<P: Post, Rd: Source>(
    post: &P,
    to: &MailSender,
    pass: &mut MailPass,
    who: Sender,
    reader: &mut Rd,
) -> Option<()>
    requires seat { IsSeatAt (sends_on to.now) pass.old }
    requires role { (l : List MailT) × (view pass.old ≡ sender who l) }
    ensures seat { IsSeatAt (sends_on to.now) pass.new }
    ensures told { IfSome result (λ _. SaysBeside who
        (known_typing Rd.remaining Rd.foretold Rd.sizes Rd.words Rd.controls reader.old)
        (known_typing Rd.remaining Rd.foretold Rd.sizes Rd.words Rd.controls reader.new)
        (view pass.old)
        (view pass.new)) }
{
    tell_size(post, to, pass, who, reader)?;
    tell_control(post, to, pass, who, reader)
}

// Returns the last words of a reader whose reading ended so, as a text of this job, if nothing more
// comes.
fn last_words<Rd: Source>(
    alloc: Global,
    job: Option<JobId>,
    reader: &Rd,
    last: &Message,
) -> Result<Option<Message>, AllocError>
    ensures { IfOk result
        (λ said. SaysLast job (Rd.words reader.now) last.now (option_to_list said)) }
{
    let (Some(job), Message::HangUp) = (job, last) else {
        return Ok(None);
    };
    let words = reader.last_words();
    if words.is_empty() {
        return Ok(None);
    }
    let text = Text::from(Vec::from_slice(alloc, words)?);
    let after = After::Stay;
    Ok(Some(Message::Said { job, text, after }))
}

// Returns how the reading ended, and the reader's last words before that: if there is no memory for
// those, memory ran out.
fn end_of<Rd: Source>(
    alloc: Global,
    job: Option<JobId>,
    reader: &Rd,
    last: Message,
) -> (Option<Message>, Message)
    ensures end { (result.1 ≡ last) ⊎ (result.1 ≡ Message.Refused) }
    ensures said { SaysLast job (Rd.words reader.now) result.1 (option_to_list result.0) }
{
    match last_words(alloc, job, reader, &last) {
        Ok(said) => (said, last),
        Err(_) => (None, Message::Refused),
    }
}

// Sends this message, if there is one. It returns `None` if the other end is gone.
fn say_any<P: Post>(
    post: &P,
    to: &MailSender,
    pass: &mut MailPass,
    who: Sender,
    message: Option<Message>,
) -> Option<()>
    requires seat { IsSeatAt (sends_on to.now) pass.old }
    requires role { (l : List MailT) × (view pass.old ≡ sender who l) }
    ensures seat { IsSeatAt (sends_on to.now) pass.new }
    ensures said { IfSome result (λ _.
        SaysAll who (option_to_list message) (view pass.old) (view pass.new)) }
{
    match message {
        Some(message) => post.say(to, pass, who, message),
        None => Some(()),
    }
}

// Sends how the reading ended, and before that the reader's last words.
fn tell_end<P: Post, Rd: Source, G: Gate>(
    post: &P,
    alloc: Global,
    seat: &mut MailSeat,
    part: &ReaderPart<G>,
    reader: &Rd,
    last: Message,
) -> Option<()>
    requires seat { IsSeatAt (sends_on seat.old.to) seat.old.pass }
    requires role { (l : List MailT) × (view seat.old.pass ≡ sender part.now.who l) }
    ensures seat { IfSome result (λ _. IsSeatAt (sends_on seat.old.to) seat.new.pass) }
    ensures said { IfSome result (λ _. SaysEnd part.now.who part.now.job (Rd.words reader.now) last
        (view seat.old.pass) (view seat.new.pass)) }
{
    let (said, end) = end_of(alloc, part.job, reader, last);
    say_any(post, &seat.to, &mut seat.pass, part.who, said)?;
    post.say(&seat.to, &mut seat.pass, part.who, end)?;
    post.say(&seat.to, &mut seat.pass, part.who, Message::Left)
}

// tools/progress: proctype Net, ClientNet and ClientKeys
/// Sends the pieces that the reader gives, each for a credit if these are needed, with the sizes
/// and the control functions that it reports between them, and then its last words and how it
/// ended: after 4,294,967,295 reads as if one had failed. If it is asked to stop, it leaves after a
/// piece. It returns `None` if the other end is gone.
pub fn run_reader<P: Post, Rd: Source + Drop, G: Gate>(
    post: &P,
    alloc: Global,
    seat: &mut MailSeat,
    mut reader: Rd,
    part: &ReaderPart<G>,
    credits: &mut Option<CreditSeat>,
    stops: &mut Option<StopSeat>,
) -> Option<()>
    requires mailbox { IsSeatAt (sends_on seat.old.to) seat.old.pass ×
        (view seat.old.pass ≡ sender part.now.who []) }
    requires credits { IsSeated credits.old }
    requires stops { StopsStay stops.old stops.old }
    ensures seat { IfSome result (λ _. IsSeatAt (sends_on seat.old.to) seat.new.pass) }
    ensures sent { IfSome result (λ _. TypingSends part.now.who part.now.job (has_stopped stops.new)
        (known_typing Rd.remaining Rd.foretold Rd.sizes Rd.words Rd.controls reader)
        (view seat.new.pass)) }
    ensures stays { StopsStay stops.old stops.new }
    ensures credited { IfSome result (λ _. (mails : List MailT) →
        view seat.new.pass ≡ sender part.now.who mails →
        HaveTaken (pieces_among mails) credits.old credits.new) }
{
    for _read in 0..u32::MAX {
        tell_beside(post, &seat.to, &mut seat.pass, part.who, &mut reader)?;
        match read_piece(&mut reader, alloc) {
            Got::Bytes(text) => {
                take_credit(post, credits)?;
                post.say(&seat.to, &mut seat.pass, part.who, Message::Piece(text))?;
                part.gate.at(part.place);
                if is_stopped(post, stops) {
                    return post.say(&seat.to, &mut seat.pass, part.who, Message::Left);
                }
            },
            Got::Again => continue,
            Got::Last(last) => return tell_end(post, alloc, seat, part, &reader, last),
        }
    }
    tell_end(post, alloc, seat, part, &reader, Message::ReadFailed)
}
