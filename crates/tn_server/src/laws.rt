//! Laws of the server end, only over the definitions.

ghost use Rattle.std.specs.Prelude.{◌≡◌, ◌≢◌, ◌↔◌, ◌<◌, ◌≤◌, ◌+◌, ◌*◌, ◌∷◌, ◌++◌, ℕ, IsTrue, List, All, []};
ghost use Rattle.std.specs.{Prelude.{IsFalse, length, map}, List.flat_map};
ghost use Rattle.tn_discipline.specs.Canon.{Canon, typed_entries, typed_half};
ghost use Rattle.tn_discipline.specs.Entries.{HasAtMost, entries_of, half_of};
ghost use Rattle.tn_discipline.specs.{Limits.{is_limit, max_counted}, declared.reads.Entry.TheVariants.Text};
ghost use Rattle.tn_discipline.specs.Characters.{AreAllowed, Characters};
ghost use Rattle.tn_codes.specs.OptionCodes as option_code;
ghost use Rattle.tn_codes.specs.{Payloads.parameters_of, declared.payloads.Payload.TheVariants.Slc};
ghost use Rattle.tn_codes.specs.declared.triples.Triple.{Triple};
ghost use Rattle.tn_linemode.specs.{Exchange.client_answers, Modes.edits, Prefixes.IsRead};
ghost use Rattle.tn_nvt.specs.{declared.items.Item.{Item, TheVariants.Sub}, Spelling.{Fits, spells}};
ghost use Rattle.tn_nvt.specs.Feeding as nvt;
ghost use Rattle.tn_pty.specs.Terminal.{output_symbols, queue_symbols, max_waiting};
ghost use Rattle.tn_pty.specs.declared.pty.PtyFault.TheVariants.{TooFarAhead};
ghost use Rattle.tn_server.specs.Course.{Course, started, fed, called, stream, in_parts, IsCall, ReadsAs};
ghost use Rattle.tn_server.specs.{Course.CourseLeadsTo, Events.{items, gets}, Screen.queue, Faults.IsCause};
ghost use Rattle.tn_server.specs.Events.{opening_settings, limit, Event, got, took, History, begun, next};
ghost use Rattle.tn_server.specs.{Lines.{entries, half, waiting}, Replies.{data_of, replies, items_said}};
ghost use Rattle.tn_server.specs.OtherClients.{StaysRemote, opening_canon, roles_of_items, keys_of};
ghost use Rattle.tn_server.specs.OtherClients.{IsNoCommand, line_items, AreOrdinary, IsText, IsLine};
ghost use Rattle.tn_server.specs.{OtherClients.text_items, Calls.{End, LeadsTo}, Stopping.StopsBetween};
ghost use Rattle.tn_server.specs.Terms.{echoes, options, settings, chars, mode, sends_mode};
ghost use Rattle.tn_server.specs.Bounds.{max_said, HasAllowedCharacters, max_of_calls, bytes_due};
ghost use Rattle.tn_server.specs.{Answering.{Feeds, StopsWithin}, declared.wishes.Editing.Editing};
ghost use Rattle.tn_server.specs.Steps.{end_after, says, says_items, sends_mode_now, IsRefusedFor};
ghost use Rattle.tn_server.specs.declared.{faults.ServerFault.ServerFault, openings.Opening.Opening};

use crate::end::ServerEnd;
use tn_discipline::laws::accepted_characters;
use tn_linemode::laws::{answers_name_their_function, exchanges_end, tables_stay_allowed};

/// Items that come are the history's last items, and the end was started with the same settings.
pub fn items_come()
    ensures items { (h : History) (more : List Item) → items (gets h more) ≡ items h ++ more }
    ensures settings { (h : History) (more : List Item) →
        opening_settings (gets h more) ≡ opening_settings h }
{}

/// Every reply of an end can be read again.
pub fn replies_fit()
    ensures { (h : History) (e : Event) → All Fits (replies h e) }
{}

/// An end is a function of its history. For every history that led to the end, the end's step at an
/// event leads to the longer history, and its replies are those that the longer history has more.
pub fn steps_stand()
    ensures leads { (h : History) (end : End) (e : Event) → LeadsTo h end →
        LeadsTo (next h e) (end_after end e) }
    ensures said { (h : History) (end : End) (e : Event) → LeadsTo h end →
        replies h e ≡ says end e }
{}

/// The items of a piece, one after another, lead to the history that has them more.
pub fn pieces_stand()
    ensures leads { (h : History) (old new : End) (piece before after : List ℕ) →
        (f : Feeds old piece before after new) → LeadsTo h old → LeadsTo (gets h f.items) new }
    ensures said { (h : History) (end : End) (items : List Item) → LeadsTo h end →
        items_said (gets h items) ≡ items_said h ++ says_items end items }
{}

/// After a refused piece the end is at the history that has the items more that were done. The item that was
/// refused had its cause in the history before it.
pub fn stops_stand()
    ensures leads { (h : History) (old new : End) (piece before after : List ℕ)
        (fault : ServerFault) → (s : StopsWithin old piece fault before after new) →
        LeadsTo h old → LeadsTo (gets h s.done) new }
    ensures cause { (h : History) (end : End) (item : Item) (fault : ServerFault) → LeadsTo h end →
        IsRefusedFor end item fault → IsCause h item fault }
{}

/// The observations of an end are those of its history: the entries that wait, of which the first
/// is taken, the symbols that wait to be pulled, and whether a request sends a MODE.
pub fn ends_show()
    ensures waiting { (h : History) (end : End) → LeadsTo h end → waiting h ≡ end.terminal.entries }
    ensures taken { (h : History) (end : End) → LeadsTo h end →
        waiting (next h took) ≡ (end_after end took).terminal.entries }
    ensures queue { (h : History) (end : End) → LeadsTo h end → queue h ≡ end.terminal.queue }
    ensures told { (h : History) (end : End) (editing : Editing) → LeadsTo h end →
        sends_mode h editing ≡ sends_mode_now end editing }
{}

/// A course leads to one history.
pub fn one_history()
    ensures { (c : Course) (h k : History) → ReadsAs c h → ReadsAs c k → h ≡ k }
{}

/// A new end is at the beginning of its course.
pub fn course_begins()
    ensures { (opening : Opening) (canon : Canon) (end : End) → LeadsTo (begun opening canon) end →
        nvt.LeadsTo [] [] end.decoder → CourseLeadsTo (started opening canon) end }
{}

/// One piece more: what was appended is what the longer course sends more.
pub fn course_fed()
    ensures at { (c : Course) (old new : End) (piece before after : List ℕ) → CourseLeadsTo c old →
        Feeds old piece before after new → CourseLeadsTo (fed c piece) new }
    ensures said { (c : Course) (old new : End) (piece before after : List ℕ) (h k : History) →
        CourseLeadsTo c old → (f : Feeds old piece before after new) → ReadsAs c h → ReadsAs (fed c piece) k →
        items_said k ≡ items_said h ++ says_items old f.items }
{}

/// After a refused piece, the first of its items are done, and the appended bytes begin the replies
/// to all of its items.
pub fn course_stopped()
    ensures { (c : Course) (old new : End) (piece before after : List ℕ) (fault : ServerFault)
        (h whole : History) → CourseLeadsTo c old → StopsWithin old piece fault before after new →
        ReadsAs c h → ReadsAs (fed c piece) whole → StopsBetween h whole fault before after new }
{}

/// One call more.
pub fn course_called()
    ensures { (c : Course) (old : End) (e : Event) → CourseLeadsTo c old → IsCall e →
        CourseLeadsTo (called c e) (end_after old e) }
{}

/// A stretch of the stream leads to one end, however it is cut.
pub fn pieces_join()
    ensures { (c : Course) (p q : List ℕ) (h : History) → All (λ b. b < 256) (stream c ++ p) →
        ReadsAs (fed (fed c p) q) h ↔ ReadsAs (fed c (p ++ q)) h }
{}

/// A text that is cut into parts that fit is sent whole and in order, however it is cut, if nothing
/// waited before.
pub fn texts_are_whole()
    ensures sent { (h : History) (parts : List (List ℕ)) → queue h ≡ [] →
        All (λ part. length part ≤ queue_symbols) parts →
        items_said (in_parts h parts) ≡
        items_said h ++ map data_of (output_symbols (settings h).flags (flat_map (λ part. part) parts)) }
    ensures none { (h : History) (parts : List (List ℕ)) → queue h ≡ [] →
        All (λ part. length part ≤ queue_symbols) parts →
        queue (in_parts h parts) ≡ [] }
{}

/// After any items and calls, at most 4,096 symbols wait to be pulled, and the half-typed line has
/// at most as many bytes as a line counts before its closing byte.
pub fn nothing_overflows()
    ensures symbols { (h : History) → length (queue h) ≤ queue_symbols }
    ensures half { (h : History) → length (half h) ≤ max_counted (limit h) }
{}

/// At most 1,024 entries wait at an end, whichever history led to it.
pub fn entries_are_bounded(end: &ServerEnd)
    ensures { (h : History) → LeadsTo h end.now → length (waiting h) ≤ max_waiting }
{
    let _count = end.pair.waiting_count();
}

/// No text that a history made has more bytes than a line of its end has at most.
pub fn texts_fit()
    ensures entries { (h : History) → IsTrue (is_limit (limit h)) → All (HasAtMost (limit h)) (entries h) }
    ensures waiting { (h : History) → IsTrue (is_limit (limit h)) → All (HasAtMost (limit h)) (waiting h) }
{}

/// A piece of n bytes makes at most n + 1 entries, since its first byte may complete two items. So
/// a piece of at most 512 bytes finds room if at most 511 entries wait, and is refused for another
/// cause if at all.
pub fn pieces_find_room()
    ensures entries { (c : Course) (h whole : History) (piece : List ℕ) → All (λ b. b < 256) (stream c) →
        ReadsAs c h → ReadsAs (fed c piece) whole →
        length (waiting whole) ≤ length (waiting h) + (length piece + 1) }
    ensures room { (c : Course) (h : History) (old new : End) (piece before after : List ℕ)
        (fault : ServerFault) → All (λ b. b < 256) (stream c) →
        CourseLeadsTo c old → ReadsAs c h → length piece ≤ 512 → length (waiting h) ≤ 511 →
        StopsWithin old piece fault before after new → fault ≢ ServerFault.Pty TooFarAhead }
{}

/// The reply to an item is bounded: to an option message 43 bytes, to a subnegotiation 30 bytes
/// more than it has itself, and to any other item none.
pub fn replies_bounded()
    ensures { (h : History) (item : Item) → AreAllowed (chars h) →
        length (spells (replies h (got item))) ≤ max_said item }
{
    tables_stay_allowed();
    answers_name_their_function();
}

/// A list of local characters is answered once: the server, in any state, does not reply to a
/// client's answers.
pub fn answers_are_not_answered()
    ensures { (h : History) (c : Characters) (ts : List Triple) →
        replies h (got (Sub option_code.linemode (parameters_of (Slc (client_answers c ts))))) ≡ [] }
{
    exchanges_end();
}

/// The characters of a history are such as a terminal can have.
pub fn characters_are_allowed()
    ensures { (h : History) → HasAllowedCharacters h → AreAllowed (chars h) }
{
    accepted_characters();
    tables_stay_allowed();
}

/// For a stream of n bytes at most 9n + 31 bytes are sent, or wait to be, echo included, besides those that
/// the owner's own calls add.
pub fn sending_bounded()
    ensures { (h : History) (bytes : List ℕ) → HasAllowedCharacters h → IsRead bytes (items h) →
        bytes_due h ≤ 9 * length bytes + max_of_calls h + 31 }
{
    accepted_characters();
    tables_stay_allowed();
    answers_name_their_function();
}

/// A piece that goes on with a subnegotiation that is dropped is not refused: it needs no memory, and
/// completes no item.
pub fn dropping_goes_on()
    ensures { (h : History) (old new : End) (piece before after : List ℕ) (fault : ServerFault) →
        LeadsTo h old → nvt.IsLetGo old.decoder piece → ¬ StopsWithin old piece fault before after new }
{}

/// A client that edits nothing, as PuTTY, busybox and libtelnet, acknowledges no EDIT. If neither
/// it nor the owner changes a special character, the entries are the local entries of its data
/// bytes and of the roles of its commands, whatever else it sends.
pub fn remote_clients()
    ensures entries { (h : History) → StaysRemote h →
        entries h ≡ entries_of (limit h) (roles_of_items (opening_settings h) (items h)) }
    ensures half { (h : History) → StaysRemote h →
        half h ≡ half_of (limit h) (roles_of_items (opening_settings h) (items h)) }
    ensures typed_entries { (h : History) → StaysRemote h → All IsNoCommand (items h) →
        entries h ≡ typed_entries (opening_canon h) (keys_of (items h)) }
    ensures typed_half { (h : History) → StaysRemote h → All IsNoCommand (items h) →
        half h ≡ typed_half (opening_canon h) (keys_of (items h)) }
{}

/// A client that negotiates nothing, as netcat, sends text with CR LF. However the end opened, the lines
/// of the text are its entries; and no text is echoed while ECHO is off, which it is unless the client
/// sends an option message.
pub fn plain_clients()
    ensures lines { (opening : Opening) (canon : Canon) (lines : List (List ℕ)) →
        IsFalse canon.settings.flags.inlcr → All (IsLine canon) lines →
        entries (gets (begun opening canon) (text_items lines)) ≡ map (λ line. Text (line ++ 10 ∷ [])) lines }
    ensures unechoed { (h : History) (item : Item) → IsFalse (echoes (options h)) → IsText item →
        queue (next h (got item)) ≡ queue h }
    ensures off { (h : History) → All IsText (items h) → IsFalse (echoes (options h)) }
{}

/// A client of any maker that edits sends a line of ordinary bytes that fits, whole and with a new
/// line after it. If no line was begun before, the server reads it as that line.
pub fn whole_lines()
    ensures entries { (h : History) (bytes : List ℕ) → IsTrue (edits (mode h)) → half h ≡ [] →
        AreOrdinary (chars h) bytes → length bytes ≤ max_counted (limit h) →
        entries (gets h (line_items bytes)) ≡ entries h ++ Text (bytes ++ 10 ∷ []) ∷ [] }
    ensures half { (h : History) (bytes : List ℕ) → IsTrue (edits (mode h)) → half h ≡ [] →
        AreOrdinary (chars h) bytes → length bytes ≤ max_counted (limit h) →
        half (gets h (line_items bytes)) ≡ [] }
{}
