//! The decoder between two bytes, one byte at a time.

ghost use Rattle.std.specs.Prelude.{◌≡◌, ◌≢◌, ◌-◌, ◌<◌, [], ◌∷◌, ◌++◌, length, vec_len, vec_capacity};
ghost use Rattle.std.specs.Prelude.{IfOk, OnOk, OnErr};
ghost use Rattle.tn_nvt.specs.declared.places.Given.TheVariants as given;
ghost use Rattle.tn_nvt.specs.declared.places.Place.TheVariants as place;
ghost use Rattle.tn_nvt.specs.Machine as machine;
ghost use Rattle.tn_nvt.specs.{declared.places.Body.Body as Held, Machine.{given_items, HasNoRun}};
ghost use Rattle.tn_nvt.specs.Machine.{StepAdvances, Lengthens, IsKept, KeepsByte, gathered_of, progress};
ghost use Rattle.tn_nvt.specs.{Runs.{KeepsFront, LacksMemory}, Sinks.AreSpecial};

use crate::bytes::{CR, LF, NUL, SB, SE};
use crate::items::Item;
use crate::parameters::Params;
use std::alloc::{AllocError, Global};
use tn_codes::{Command, IAC, Verb};

/// The most parameters that a subnegotiation may have; one with more is discarded.
pub const MAX_PARAMETERS: usize = 512;

/// The part of the next segment of the stream that has come, without a subnegotiation's bytes.
#[derive(Clone, Copy)]
pub(crate) enum Place {
    Outside,
    AfterCr,
    AfterIac,
    AfterVerb(Verb),
    Inside,
    InsideIac,
    Failed,
}

/// The part of a subnegotiation that has come.
#[derive(Clone, Copy)]
pub(crate) enum Came {
    Nothing,
    /// The option, and no more parameters than a subnegotiation may have.
    Kept(u8),
    Overlong,
}

/// The bytes of a subnegotiation that have come. Their memory is used again for the next
/// subnegotiation.
#[derive(Drop)]
pub(crate) struct Body {
    pub(crate) came: Came,
    pub(crate) params: Params,
}

/// The items that one byte completes.
#[derive(Clone, Copy)]
pub(crate) enum Given {
    Nothing,
    Byte(u8),
    /// A CR, and this byte after it.
    CrByte(u8),
    Newline,
    Cmd(Command),
    Neg(Verb, u8),
    /// The subnegotiation that has come.
    Sub,
}

impl Body {
    /// Makes a body that holds nothing of a subnegotiation.
    pub(crate) fn new(alloc: Global) -> Body
        ensures { gathered_of result ≡ machine.Nothing }
    {
        Body {
            came: Came::Nothing,
            params: Params::new(alloc),
        }
    }

    // Keeps one more byte.
    #[inline(always)]
    fn keep(&mut self, byte: u8) -> Result<(), AllocError>
        ensures ok { OnOk result (Lengthens (gathered_of self.old) byte (gathered_of self.new)) }
        ensures err { OnErr result (IsKept (gathered_of self.old)) }
    {
        match self.came {
            Came::Nothing => {
                self.params.clear();
                self.came = Came::Kept(byte);
                Ok(())
            },
            Came::Kept(_) => {
                if self.params.len() < MAX_PARAMETERS {
                    return self.params.push(byte);
                }
                self.came = Came::Overlong;
                Ok(())
            },
            Came::Overlong => Ok(()),
        }
    }

    /// Keeps the leading bytes up to an IAC, and returns their number.
    #[inline(always)]
    pub(crate) fn keep_front(&mut self, bytes: &[u8]) -> Result<usize, AllocError>
        ensures ok { IfOk result (λ count. KeepsFront (gathered_of self.old) bytes.now count
            (gathered_of self.new)) }
        ensures err { OnErr result (LacksMemory (gathered_of self.old) bytes.now) }
    {
        let mut at = 0;
        while at < bytes.len() {
            let byte = bytes[at];
            if byte == IAC {
                return Ok(at);
            }
            self.keep(byte)?;
            at += 1;
        }
        Ok(at)
    }
}

impl Place {
    /// Returns the place to which one more byte leads, and what it completes. It takes memory only
    /// for a parameter.
    #[inline(always)]
    pub(crate) fn step(self, body: &mut Body, byte: u8) -> Result<(Place, Given), AllocError>
        ensures ok { IfOk result (λ r. StepAdvances (progress self body.old) (byte ∷ [])
            (given_items r.1 body.new) (progress r.0 body.new)) }
        ensures special { IfOk result (λ r.
            HasNoRun self byte → AreSpecial (given_items r.1 body.new)) }
        ensures closes { IfOk result (λ r. r.1 ≡ given.Sub → r.0 ≡ place.Outside) }
        ensures err { OnErr result (KeepsByte (progress self body.old) byte) }
    {
        match self {
            Place::Outside => Ok(outside(byte)),
            Place::AfterCr => Ok(after_cr(byte)),
            Place::AfterIac => Ok(after_iac(body, byte)),
            Place::AfterVerb(verb) => Ok((Place::Outside, Given::Neg(verb, byte))),
            Place::Inside => inside(body, byte),
            Place::InsideIac => inside_iac(body, byte),
            Place::Failed => Ok((Place::Failed, Given::Nothing)),
        }
    }
}

fn outside(byte: u8) -> (Place, Given)
    ensures advances { (body : Held) → StepAdvances machine.Outside (byte ∷ [])
        (given_items result.1 body) (progress result.0 body) }
    ensures special { (body : Held) →
        HasNoRun place.Outside byte → AreSpecial (given_items result.1 body) }
    ensures closes { result.1 ≢ given.Sub }
{
    match byte {
        CR => (Place::AfterCr, Given::Nothing),
        IAC => (Place::AfterIac, Given::Nothing),
        _ => (Place::Outside, Given::Byte(byte)),
    }
}

pub(crate) fn after_cr(byte: u8) -> (Place, Given)
    ensures advances { (body : Held) → StepAdvances machine.AfterCr (byte ∷ [])
        (given_items result.1 body) (progress result.0 body) }
    ensures special { (body : Held) →
        HasNoRun place.AfterCr byte → AreSpecial (given_items result.1 body) }
    ensures closes { result.1 ≢ given.Sub }
{
    match byte {
        LF => (Place::Outside, Given::Newline),
        NUL => (Place::Outside, Given::Byte(CR)),
        CR => (Place::AfterCr, Given::Byte(CR)),
        IAC => (Place::AfterIac, Given::Byte(CR)),
        _ => (Place::Outside, Given::CrByte(byte)),
    }
}

#[inline(always)]
pub(crate) fn after_iac(body: &mut Body, byte: u8) -> (Place, Given)
    ensures advances { StepAdvances machine.AfterIac (byte ∷ [])
        (given_items result.1 body.new) (progress result.0 body.new) }
    ensures special { AreSpecial (given_items result.1 body.new) }
    ensures closes { result.1 ≢ given.Sub }
{
    if byte == IAC {
        return (Place::Outside, Given::Byte(IAC));
    }
    if byte == SB {
        body.came = Came::Nothing;
        return (Place::Inside, Given::Nothing);
    }
    if let Some(verb) = Verb::from_code(byte) {
        return (Place::AfterVerb(verb), Given::Nothing);
    }
    if let Some(command) = Command::from_code(byte) {
        return (Place::Outside, Given::Cmd(command));
    }
    (Place::Outside, Given::Nothing)
}

fn inside(body: &mut Body, byte: u8) -> Result<(Place, Given), AllocError>
    ensures ok { IfOk result (λ r. StepAdvances (machine.Inside (gathered_of body.old)) (byte ∷ [])
        (given_items r.1 body.new) (progress r.0 body.new)) }
    ensures special { IfOk result (λ r. AreSpecial (given_items r.1 body.new)) }
    ensures closes { IfOk result (λ r. r.1 ≢ given.Sub) }
    ensures err { OnErr result (KeepsByte (machine.Inside (gathered_of body.old)) byte) }
{
    if byte == IAC {
        return Ok((Place::InsideIac, Given::Nothing));
    }
    body.keep(byte)?;
    Ok((Place::Inside, Given::Nothing))
}

#[inline(always)]
fn inside_iac(body: &mut Body, byte: u8) -> Result<(Place, Given), AllocError>
    ensures ok { IfOk result
        (λ r. StepAdvances (machine.InsideIac (gathered_of body.old)) (byte ∷ [])
        (given_items r.1 body.new) (progress r.0 body.new)) }
    ensures special { IfOk result (λ r. AreSpecial (given_items r.1 body.new)) }
    ensures closes { IfOk result (λ r. r.1 ≡ given.Sub → r.0 ≡ place.Outside) }
    ensures err { OnErr result (KeepsByte (machine.InsideIac (gathered_of body.old)) byte) }
{
    if byte == IAC {
        body.keep(IAC)?;
        return Ok((Place::Inside, Given::Nothing));
    }
    if byte == SE {
        return Ok((Place::Outside, Given::Sub));
    }
    Ok(after_iac(body, byte))
}

impl Given {
    /// Appends all of the items, or none.
    pub(crate) fn append_to(self, body: &mut Body, out: &mut Vec<Item>) -> Result<(), AllocError>
        ensures ok { OnOk result (out.new.items ≡ out.old.items ++ given_items self body.old) }
        ensures body { self ≢ given.Sub → body.new ≡ body.old }
        ensures err { OnErr result (out.new.items ≡ out.old.items) }
        ensures full { OnErr result
            (vec_capacity out.new - vec_len out.new < length (given_items self body.old)) }
    {
        match self {
            Given::Nothing => Ok(()),
            Given::Byte(byte) => append(Item::Byte(byte), out),
            Given::CrByte(byte) => {
                out.reserve(2)?;
                out.push_reserved(Item::Byte(CR));
                out.push_reserved(Item::Byte(byte));
                Ok(())
            },
            Given::Newline => append(Item::Newline, out),
            Given::Cmd(command) => append(Item::Cmd(command), out),
            Given::Neg(verb, option) => append(Item::Neg(verb, option), out),
            Given::Sub => match body.came {
                Came::Kept(option) => {
                    out.reserve(1)?;
                    out.push_reserved(Item::Sub(option, body.params.take()));
                    Ok(())
                },
                Came::Nothing | Came::Overlong => Ok(()),
            },
        }
    }
}

fn append(item: Item, out: &mut Vec<Item>) -> Result<(), AllocError>
    ensures ok { OnOk result (out.new.items ≡ out.old.items ++ item ∷ []) }
    ensures err { OnErr result (out.new.items ≡ out.old.items) }
    ensures full { OnErr result (vec_capacity out.new - vec_len out.new < 1) }
{
    out.reserve(1)?;
    out.push_reserved(item);
    Ok(())
}
