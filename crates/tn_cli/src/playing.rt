//! Runs the commands of a script in a world.

ghost use Rattle.std.specs.Prelude.{◌≡◌, ◌≢◌, ◌++◌, [], ◌∷◌, ◌↔◌, IfOk, OnOk, OnErr, IfErr, IsErrOf, Err};
ghost use Rattle.std.specs.Prelude.{map, IsTrue};
ghost use Rattle.tn_world.specs.{Headline.NothingInFlight, Worlds.Runs};
ghost use Rattle.tn_world.specs.declared.events.Event.TheVariants as event;
ghost use Rattle.tn_cli.specs.Playing as play;
ghost use Rattle.tn_cli.specs.declared.playing.Stop.TheVariants.{Bad, Refused, Memory};

use crate::printed::{print_digits, print_entry};
use crate::scripts::{Command, read_command};
use std::alloc::{AllocError, Global};
use std::slice;
use tn_world::{Event, ToWhom, World};

/// The most settlings of a world, of two rounds of deliveries each.
const MAX_SETTLINGS: u32 = 32;

/// The reason why a line was not run.
#[derive(Clone, Copy)]
pub(crate) enum Stop {
    /// The line is no command.
    Bad,
    /// The world refused an event.
    Refused,
    /// There was no memory for what the line needs outside the world.
    Memory,
}

impl From<AllocError> for Stop {
    ghost from_gives = { λ _ stop. stop ≡ Memory };

    fn from(_error: AllocError) -> Stop {
        Stop::Memory
    }
}

/// Runs a line, and appends what it prints. An empty line is skipped.
pub(crate) fn play_line(
    alloc: Global,
    world: &mut World,
    line: &[u8],
    out: &mut Vec<u8>,
) -> Result<(), Stop>
    ensures ok { OnOk result
        (play.Prints (play.RunsLine world.old line.now) out.old.items out.new.items world.new) }
    ensures bad { IsErrOf result Bad → play.IsBad line.now × (out.new.items ≡ out.old.items) }
    ensures refused { IsErrOf result Refused →
        play.RefusesLine world.old line.now × (out.new.items ≡ out.old.items) }
{
    if line.is_empty() {
        return Ok(());
    }
    match read_command(alloc, line)? {
        Some(command) => perform(alloc, world, &command, out),
        None => Err(Stop::Bad),
    }
}

// Runs a command, and appends what it prints.
fn perform(
    alloc: Global,
    world: &mut World,
    command: &Command,
    out: &mut Vec<u8>,
) -> Result<(), Stop>
    ensures ok { OnOk result
        (play.Prints (play.RunsCommand world.old command.now)
        out.old.items out.new.items world.new) }
    ensures refused { IsErrOf result Refused →
        play.RefusesCommand world.old command.now × (out.new.items ≡ out.old.items) }
    ensures not_bad { result ≢ Err Bad }
{
    match command {
        Command::Keys(keys) => type_keys(alloc, world, keys.as_slice()),
        Command::Happen(event) => run(world, slice::from_ref(event)),
        Command::Settle => settle(world),
        Command::Take => take(world, out),
        Command::Mark => mark(world, out),
        Command::Flight => print_flight(world, out),
        Command::Shown => print_bytes(b"shown ", world.shown(), out),
    }
}

fn type_keys(alloc: Global, world: &mut World, keys: &[u8]) -> Result<(), Stop>
    ensures ok { OnOk result (Runs world.old (map event.Key keys.now) world.new) }
    ensures refused { IsErrOf result Refused →
        play.RefusesEvents world.old (map event.Key keys.now) }
    ensures not_bad { result ≢ Err Bad }
{
    let events = keys_typed(alloc, keys)?;
    run(world, &events)
}

fn keys_typed(alloc: Global, keys: &[u8]) -> Result<Vec<Event>, AllocError>
    ensures { IfOk result (λ events. events.items ≡ map event.Key keys.now) }
{
    let mut events = Vec::new(alloc);
    for key in keys {
        events.push(Event::Key(*key))?;
    }
    Ok(events)
}

fn run_event(world: &mut World, next: Event) -> Result<(), Stop>
    ensures ok { OnOk result (Runs world.old (next ∷ []) world.new) }
    ensures err { OnErr result (play.RefusesEvents world.old (next ∷ [])) }
    ensures refused { IfErr result (λ stop. stop ≡ Refused) }
{
    run(world, slice::from_ref(&next))
}

fn run(world: &mut World, events: &[Event]) -> Result<(), Stop>
    ensures ok { OnOk result (Runs world.old events.now world.new) }
    ensures err { OnErr result (play.RefusesEvents world.old events.now) }
    ensures refused { IfErr result (λ stop. stop ≡ Refused) }
{
    match world.run(events) {
        Ok(()) => Ok(()),
        Err(_) => Err(Stop::Refused),
    }
}

// Delivers what is in flight until nothing is. One call, of two rounds, is enough, unless an end was stopped.
fn settle(world: &mut World) -> Result<(), Stop>
    ensures ok { OnOk result (play.Settles world.old world.new) }
    ensures err { OnErr result (play.RefusesToSettle world.old) }
    ensures refused { IfErr result (λ stop. stop ≡ Refused) }
{
    for _settling in 0..MAX_SETTLINGS {
        if is_flight_empty(world) {
            return Ok(());
        }
        match world.settle() {
            Ok(()) => {},
            Err(_) => return Err(Stop::Refused),
        }
    }
    Ok(())
}

fn is_flight_empty(world: &World) -> bool
    ensures { IsTrue result ↔ NothingInFlight world.now }
{
    world.in_flight(ToWhom::Server).is_empty() && world.in_flight(ToWhom::Client).is_empty()
}

fn take(world: &mut World, out: &mut Vec<u8>) -> Result<(), Stop>
    ensures ok { OnOk result
        (play.Prints (play.TakesOne world.old) out.old.items out.new.items world.new) }
    ensures refused { IsErrOf result Refused →
        play.RefusesEvents world.old (event.Take ∷ []) × (out.new.items ≡ out.old.items) }
    ensures not_bad { result ≢ Err Bad }
{
    let before = world.taken().len();
    run_event(world, Event::Take)?;
    match world.taken().get(before) {
        Some(entry) => {
            print_entry(entry, out)?;
            Ok(())
        },
        None => append(out, b"none\n"),
    }
}

fn mark(world: &mut World, out: &mut Vec<u8>) -> Result<(), Stop>
    ensures ok { OnOk result
        (play.Prints (play.PrintsMark world.old) out.old.items out.new.items world.new) }
    ensures memory { IfErr result (λ stop. stop ≡ Memory) }
{
    if world.mark() {
        return append(out, b"mark true\n");
    }
    append(out, b"mark false\n")
}

fn print_flight(world: &World, out: &mut Vec<u8>) -> Result<(), Stop>
    ensures ok { OnOk result (out.new.items ≡ out.old.items ++ play.printed_flight world.now) }
    ensures memory { IfErr result (λ stop. stop ≡ Memory) }
{
    print_bytes(b"to-server ", world.in_flight(ToWhom::Server), out)?;
    print_bytes(b"to-client ", world.in_flight(ToWhom::Client), out)
}

// Appends a name, and some bytes in hexadecimal or a dash.
fn print_bytes(name: &[u8], bytes: &[u8], out: &mut Vec<u8>) -> Result<(), Stop>
    ensures ok { OnOk result
        (out.new.items ≡ out.old.items ++ (name.now ++ play.printed_bytes bytes.now)) }
    ensures memory { IfErr result (λ stop. stop ≡ Memory) }
{
    append(out, name)?;
    if bytes.is_empty() {
        return append(out, b"-\n");
    }
    print_digits(bytes, out)?;
    Ok(())
}

fn append(out: &mut Vec<u8>, text: &[u8]) -> Result<(), Stop>
    ensures ok { OnOk result (out.new.items ≡ out.old.items ++ text.now) }
    ensures memory { IfErr result (λ stop. stop ≡ Memory) }
{
    out.extend_from_slice(text)?;
    Ok(())
}
