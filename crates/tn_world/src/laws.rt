//! The headline and Output, as laws over the definitions alone. A world at a beginning, which is a
//! settled moment or the opening, goes through events, some of them refused, and then the entries
//! that jobs took and those that wait are compared with those of the typed keys at a local
//! terminal.

ghost use Rattle.std.specs.Prelude.{◌≡◌, ℕ, IsFalse, List, []};
ghost use Rattle.tn_discipline.specs.Canon.{Canon};
ghost use Rattle.tn_world.specs.{Past.HasPast, Headline.half_made, Output.{IsOutput, OutputGrows}};
ghost use Rattle.tn_world.specs.Headline.{local_entries, local_half, IsBeginning, IsQuiet, AreQuietEvents};
ghost use Rattle.tn_world.specs.Headline.{PassesQuietly, Follows, NoneFailed, NothingInFlight, entries_made};
ghost use Rattle.tn_world.specs.{Settling.{IsRound, HasSettled}, Worlds.{World, RunsEvent}};
ghost use Rattle.tn_world.specs.{declared.events.Event.Event, relation.Relation.IsRelated};
ghost use Rattle.tn_nvt.specs.Prefixes.{IsPrefixOf};

use tn_linemode::laws::exchanges_end;

/// Type any keys, change modes, masks and sizes, and settle: then the entries are those of a local
/// terminal, and so is the half-typed line, of which the server has the first part and the client
/// holds the rest.
pub fn what_is_typed_is_read()
    ensures entries { (canon : Canon) (w : World) → HasSettled canon w →
        entries_made w ≡ local_entries canon w.typed }
    ensures half { (canon : Canon) (w : World) → HasSettled canon w → half_made w ≡ local_half canon w.typed }
{
    exchanges_end();
}

/// From a beginning on, the entries that were made are a prefix of those that the keys give,
/// whichever mode is in force meanwhile, and whichever end fails.
pub fn headline_prefix()
    ensures { (canon : Canon) (start end : World) (events : List Event) → IsBeginning canon start →
        PassesQuietly start events end → IsPrefixOf (entries_made end) (local_entries canon end.typed) }
{}

/// The entries are all of those of the keys if nothing is in flight to the server and no end has
/// failed, and the half-typed line is the local terminal's.
pub fn headline_complete()
    ensures entries { (canon : Canon) (start end : World) (events : List Event) → IsBeginning canon start →
        PassesQuietly start events end → NoneFailed end → end.to_server ≡ [] →
        entries_made end ≡ local_entries canon end.typed }
    ensures half { (canon : Canon) (start end : World) (events : List Event) → IsBeginning canon start →
        PassesQuietly start events end → NoneFailed end → end.to_server ≡ [] →
        half_made end ≡ local_half canon end.typed }
{}

/// While no end has failed, the ends and what is in flight between them are related as
/// `docs/THEOREM.md` describes.
pub fn relation_kept()
    ensures { (canon : Canon) (w : World) → Follows canon w → NoneFailed w → IsRelated canon w }
{}

/// After any events, two rounds leave nothing in flight, if neither end was stopped.
pub fn two_rounds_to_rest()
    ensures { (old mid new : World) → HasPast old → IsFalse old.server_stopped → IsFalse old.client_stopped →
        IsRound old mid → IsRound mid new → NothingInFlight new }
{
    exchanges_end();
}

/// Every list of keys, deliveries, writes, pulls, takes, requests, masks, sizes, settings of ECHO
/// and stops is quiet: only the owner breaks the headline's premise, by setting or proposing a
/// special character.
pub fn quiet_lists()
    ensures { (w : World) (events : List Event) → AreQuietEvents events → IsQuiet w events }
{}

/// While the client has not failed, an event adds to Output the symbols that the terminal's queue took in
/// it, and nothing else; when they are sent or shown nothing is added.
pub fn output()
    ensures { (old new : World) (e : Event) (text : List ℕ) → HasPast old → IsFalse old.client.failed →
        RunsEvent old e new → IsOutput old text → OutputGrows old e new text }
{}

/// The text on the client's screen comes first in Output.
pub fn shown_first()
    ensures { (w : World) (text : List ℕ) → IsOutput w text → IsPrefixOf w.shown text }
{}
