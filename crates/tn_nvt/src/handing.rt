//! Passes what the next bytes complete to a sink.

ghost use Rattle.std.specs.Prelude.{◌≡◌, ◌≢◌, ◌<◌, [], length, slice_index};
ghost use Rattle.std.specs.Prelude.{IfOk, OnOk, OnErr, IsErrOf, IsTrue};
ghost use Rattle.tn_nvt.specs.declared.decoding.NvtFault.TheVariants as fault;
ghost use Rattle.tn_nvt.specs.declared.places.Given.TheVariants as given;
ghost use Rattle.tn_nvt.specs.declared.places.Place.TheVariants as place;
ghost use Rattle.tn_nvt.specs.Machine as machine;
ghost use Rattle.tn_nvt.specs.{Machine.{progress, given_items, gathered_of, HasNoRun}, Runs.WantsMemory};
ghost use Rattle.tn_nvt.specs.Sinks.{TakesEach, IsPlain};
ghost use Rattle.tn_nvt.specs.Runs.{singles, BeginsRun, RefusesEach, HandsFront, HandsSome, StopsFront};

use crate::bytes::{CR, LF, NUL};
use crate::decoding::NvtFault;
use crate::escapes::escape;
use crate::items::Item;
use crate::places::{Body, Came, Given, Place, after_cr};
use crate::plain::{is_plain, run_len};
use crate::sinks::{Refused, Sink};

impl Place {
    /// Passes on what all of the bytes complete, and returns the place to which they lead.
    pub(crate) fn hand_all<S: Sink>(
        self,
        body: &mut Body,
        piece: &[u8],
        sink: &mut S,
    ) -> Result<Place, NvtFault>
        ensures ok { IfOk result (λ next. HandsFront S.takes (progress self body.old) piece.now []
            sink.old sink.new (progress next body.new)) }
        ensures refused { IsErrOf result fault.Refused →
            StopsFront S.takes S.gives_up (progress self body.old) piece.now sink.old sink.new }
        ensures memory { IsErrOf result fault.Memory →
            WantsMemory S.takes (progress self body.old) piece.now sink.old sink.new }
        ensures not_failed { ¬ IsErrOf result fault.Failed }
    {
        let mut place = self;
        let mut at = 0;
        while at < piece.len() {
            match place.hand_some(body, &piece[at..], sink) {
                Ok((next, count)) => {
                    place = next;
                    at += count;
                },
                Err(fault) => return Err(fault),
            }
        }
        Ok(place)
    }

    // Passes on what some of the bytes complete, as many at once as this place allows, and returns
    // the next place and the number of these bytes.
    #[inline(always)]
    fn hand_some<S: Sink>(
        self,
        body: &mut Body,
        rest: &[u8],
        sink: &mut S,
    ) -> Result<(Place, usize), NvtFault>
        requires { 0 < length rest.now }
        ensures ok { IfOk result (λ r. HandsSome S.takes (progress self body.old) rest.now r.1
            sink.old sink.new (progress r.0 body.new)) }
        ensures refused { IsErrOf result fault.Refused →
            StopsFront S.takes S.gives_up (progress self body.old) rest.now sink.old sink.new }
        ensures memory { IsErrOf result fault.Memory →
            WantsMemory S.takes (progress self body.old) rest.now sink.old sink.new }
        ensures not_failed { ¬ IsErrOf result fault.Failed }
    {
        match self {
            Place::Outside => Ok(hand_outside(body, rest, sink)?),
            Place::AfterCr => Ok(hand_after_cr(body, rest, sink)?),
            Place::Inside => hand_inside(body, rest, sink),
            Place::AfterIac | Place::AfterVerb(_) | Place::InsideIac | Place::Failed => {
                self.hand_byte(body, rest, sink)
            },
        }
    }

    // Passes on what one byte completes with which no run begins, and returns the next place and
    // the number of bytes.
    #[inline(always)]
    fn hand_byte<S: Sink>(
        self,
        body: &mut Body,
        rest: &[u8],
        sink: &mut S,
    ) -> Result<(Place, usize), NvtFault>
        requires some { 0 < length rest.now }
        requires none { HasNoRun self (slice_index rest.now 0) }
        ensures ok { IfOk result (λ r. HandsSome S.takes (progress self body.old) rest.now r.1
            sink.old sink.new (progress r.0 body.new)) }
        ensures refused { IsErrOf result fault.Refused →
            StopsFront S.takes S.gives_up (progress self body.old) rest.now sink.old sink.new }
        ensures memory { IsErrOf result fault.Memory →
            WantsMemory S.takes (progress self body.old) rest.now sink.old sink.new }
        ensures not_failed { ¬ IsErrOf result fault.Failed }
    {
        let (next, given) = self.step(body, rest[0])?;
        given.hand_to(body, sink)?;
        Ok((next, 1))
    }
}

// Passes on runs and escapes outside of a subnegotiation, one after another, until an escape leads
// elsewhere.
#[inline(always)]
fn hand_outside<S: Sink>(
    body: &mut Body,
    rest: &[u8],
    sink: &mut S,
) -> Result<(Place, usize), Refused>
    requires { 0 < length rest.now }
    ensures ok { IfOk result (λ r. HandsSome S.takes machine.Outside rest.now r.1 sink.old sink.new
        (progress r.0 body.new)) }
    ensures refused { OnErr result
        (StopsFront S.takes S.gives_up machine.Outside rest.now sink.old sink.new) }
{
    let mut at = 0;
    while at < rest.len() {
        let here = &rest[at..];
        if is_plain(here[0]) {
            let count = run_len(here);
            sink.run(&here[..count])?;
            at += count;
        } else {
            let (next, count) = hand_escape(body, here, sink)?;
            at += count;
            let Place::Outside = next else {
                return Ok((next, at));
            };
        }
    }
    Ok((Place::Outside, at))
}

#[inline(always)]
fn hand_escape<S: Sink>(
    body: &mut Body,
    here: &[u8],
    sink: &mut S,
) -> Result<(Place, usize), Refused>
    requires some { 0 < length here.now }
    requires none { HasNoRun place.Outside (slice_index here.now 0) }
    ensures ok { IfOk result (λ r. HandsSome S.takes machine.Outside here.now r.1 sink.old sink.new
        (progress r.0 body.new)) }
    ensures refused { OnErr result
        (StopsFront S.takes S.gives_up machine.Outside here.now sink.old sink.new) }
{
    let (next, given, count) = escape(body, here);
    given.hand_to(body, sink)?;
    Ok((next, count))
}

// Returns whether a run begins with the byte after a CR: it is neither LF nor NUL, and plain.
fn begins_run(byte: u8) -> bool
    ensures yes { IsTrue result → BeginsRun byte }
    ensures no { ¬ IsTrue result → HasNoRun place.AfterCr byte }
{
    byte != LF && byte != NUL && is_plain(byte)
}

// Passes on what comes after a CR: a run, the CR before it, or what one byte completes.
fn hand_after_cr<S: Sink>(
    body: &mut Body,
    rest: &[u8],
    sink: &mut S,
) -> Result<(Place, usize), Refused>
    requires { 0 < length rest.now }
    ensures ok { IfOk result (λ r. HandsSome S.takes machine.AfterCr rest.now r.1 sink.old sink.new
        (progress r.0 body.new)) }
    ensures refused { OnErr result
        (StopsFront S.takes S.gives_up machine.AfterCr rest.now sink.old sink.new) }
{
    if begins_run(rest[0]) {
        let count = run_len(rest);
        sink.item(Item::Byte(CR))?;
        sink.run(&rest[..count])?;
        return Ok((Place::Outside, count));
    }
    let (next, given) = after_cr(rest[0]);
    given.hand_to(body, sink)?;
    Ok((next, 1))
}

// Reads inside of a subnegotiation: all bytes up to an IAC, and then the byte after the IAC.
#[inline(always)]
fn hand_inside<S: Sink>(
    body: &mut Body,
    rest: &[u8],
    sink: &mut S,
) -> Result<(Place, usize), NvtFault>
    requires { 0 < length rest.now }
    ensures ok { IfOk result
        (λ r. HandsSome S.takes (machine.Inside (gathered_of body.old)) rest.now
        r.1 sink.old sink.new (progress r.0 body.new)) }
    ensures refused { IsErrOf result fault.Refused → StopsFront S.takes S.gives_up
        (machine.Inside (gathered_of body.old)) rest.now sink.old sink.new }
    ensures memory { IsErrOf result fault.Memory → WantsMemory S.takes
        (machine.Inside (gathered_of body.old)) rest.now sink.old sink.new }
    ensures not_failed { ¬ IsErrOf result fault.Failed }
{
    let count = body.keep_front(rest)?;
    if count == rest.len() {
        return Ok((Place::Inside, count));
    }
    let after = count + 1;
    if after == rest.len() {
        return Ok((Place::InsideIac, after));
    }
    match Place::InsideIac.hand_byte(body, &rest[after..], sink) {
        Ok((next, more)) => Ok((next, after + more)),
        Err(fault) => Err(fault),
    }
}

impl Given {
    /// Passes on the items one by one.
    #[inline(always)]
    fn hand_to<S: Sink>(self, body: &mut Body, sink: &mut S) -> Result<(), Refused>
        ensures ok { OnOk result
            (TakesEach S.takes sink.old (singles (given_items self body.old)) sink.new) }
        ensures err { OnErr result (RefusesEach S.takes S.gives_up sink.old
            (singles (given_items self body.old)) sink.new) }
        ensures body { self ≢ given.Sub → body.new ≡ body.old }
    {
        match self {
            Given::Nothing => Ok(()),
            Given::Byte(byte) => sink.item(Item::Byte(byte)),
            Given::CrByte(byte) => {
                sink.item(Item::Byte(CR))?;
                sink.item(Item::Byte(byte))
            },
            Given::Newline => sink.item(Item::Newline),
            Given::Cmd(command) => sink.item(Item::Cmd(command)),
            Given::Neg(verb, option) => sink.item(Item::Neg(verb, option)),
            Given::Sub => match body.came {
                Came::Kept(option) => sink.sub(option, &mut body.params),
                Came::Nothing | Came::Overlong => Ok(()),
            },
        }
    }
}
