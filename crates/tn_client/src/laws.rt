//! Laws of the client end, only over the definitions.

ghost use Rattle.std.specs.Prelude.{◌≡◌, ◌↔◌, ◌<◌, ◌≤◌, ◌+◌, ◌*◌, ◌++◌, ℕ, Bool, IsTrue, List, All, IsFalse};
ghost use Rattle.std.specs.Prelude.{None, [], length, take};
ghost use Rattle.tn_discipline.specs.Limits.{max_counted};
ghost use Rattle.tn_linemode.specs.{Modes.edits, Prefixes.IsRead};
ghost use Rattle.tn_nvt.specs.Feeding as nvt;
ghost use Rattle.tn_nvt.specs.{Spelling.{spelling, spells}, declared.items.Item.TheVariants.{Neg, Sub}};
ghost use Rattle.tn_nvt.specs.declared.items.Item.{Item};
ghost use Rattle.tn_codes.specs.declared.codes.Verb.{Verb};
ghost use Rattle.tn_client.specs.Events.{Event, got, sent, History, begun, next, items, keys, gets};
ghost use Rattle.tn_client.specs.{Bounds.{held_sent, max_answered, max_of_calls, bytes_due}, Course.ReadsAs};
ghost use Rattle.tn_client.specs.{Terms.{options, mode, forward, linemode}, Replies.{replies, items_said}};
ghost use Rattle.tn_client.specs.Lines.{line_limit, ahead, held_bytes, half_line, count_under, line};
ghost use Rattle.tn_client.specs.{Screen.{shows, text_shown}, Calls.{End, LeadsTo}, Stopping.StopsBetween};
ghost use Rattle.tn_client.specs.{declared.commands.UserCommand.UserCommand, Answering.{Feeds, StopsWithin}};
ghost use Rattle.tn_client.specs.Course.{CourseLeadsTo, Course, started, fed, called, stream, IsCall};
ghost use Rattle.tn_client.specs.Steps.{end_after, says, displays, end_after_items, says_items, items_shown};

use tn_linemode::laws::answers_name_their_function;
use tn_nvt::laws::one_reading;

/// Items that come are the history's last items, and no key is typed by them.
pub fn items_come()
    ensures items { (h : History) (more : List Item) → items (gets h more) ≡ items h ++ more }
    ensures keys { (h : History) (more : List Item) → keys (gets h more) ≡ keys h }
{}

/// The bytes that were sent ahead are a prefix of the half-typed line, and the client holds the
/// rest.
pub fn ahead_is_a_front()
    ensures within { (h : History) → ahead h ≤ length (half_line h) }
    ensures parts { (h : History) → half_line h ≡ take (ahead h) (half_line h) ++ held_bytes h }
{}

/// The half-typed line has at most as many bytes as a line counts before its closing byte,
/// whichever end edits it.
pub fn half_lines_fit()
    ensures here { (h : History) → length (half_line h) ≤ max_counted (line_limit h) }
    ensures there { (isig : Bool) (h : History) → count_under isig h ≤ max_counted (line_limit h) }
{}

/// Without EDIT the client holds no half-typed line, and with it none is counted; without LINEMODE
/// there are no mode and no forward mask.
pub fn nothing_without_edit()
    ensures line { (h : History) → IsFalse (edits (mode h)) → half_line h ≡ [] }
    ensures ahead { (h : History) → IsFalse (edits (mode h)) → ahead h ≡ 0 }
    ensures counts { (isig : Bool) (h : History) → IsTrue (edits (mode h)) → count_under isig h ≡ 0 }
    ensures mode { (h : History) → IsFalse (linemode (options h)) → mode h ≡ 0 }
    ensures forward { (h : History) → IsFalse (linemode (options h)) → forward h ≡ None }
{}

/// A command that the user sends leaves the half-typed line as it is, whichever end edits it.
pub fn commands_leave_the_line()
    ensures here { (h : History) (command : UserCommand) → line (next h (sent command)) ≡ line h }
    ensures there { (isig : Bool) (h : History) (command : UserCommand) →
        count_under isig (next h (sent command)) ≡ count_under isig h }
{}

/// An end is a function of its history. If a history leads to an end, the history with one more
/// event leads to the end after that event, and the end sends and shows then what the longer
/// history sends and shows more.
pub fn steps_stand()
    ensures leads { (h : History) (end : End) (e : Event) → LeadsTo h end →
        LeadsTo (next h e) (end_after end e) }
    ensures said { (h : History) (end : End) (e : Event) → LeadsTo h end →
        replies h e ≡ says end e }
    ensures shown { (h : History) (end : End) (e : Event) → LeadsTo h end →
        shows h e ≡ displays end e }
{}

/// If a history leads to an end, the history with the items of a piece leads to the end after the
/// piece. At items, one after another, an end sends and shows what the history with them sends and
/// shows more.
pub fn pieces_stand()
    ensures leads { (h : History) (old new : End) (piece before after seen now : List ℕ) →
        (f : Feeds old piece before after seen now new) → LeadsTo h old → LeadsTo (gets h f.items) new }
    ensures said { (h : History) (end : End) (items : List Item) → LeadsTo h end →
        items_said (gets h items) ≡ items_said h ++ says_items end items }
    ensures shown { (h : History) (items : List Item) →
        text_shown (gets h items) ≡ text_shown h ++ items_shown items }
{}

/// A course has one history.
pub fn one_history()
    ensures { (c : Course) (h k : History) → ReadsAs c h → ReadsAs c k → h ≡ k }
{}

/// A new end is at the beginning of its course.
pub fn course_begins()
    ensures { (width height limit : ℕ) (end : End) → LeadsTo (begun width height limit) end →
        nvt.LeadsTo [] [] end.decoder → CourseLeadsTo (started width height limit) end }
{}

/// One piece more: the appended bytes are those that the longer course sends and shows more.
pub fn course_fed()
    ensures at { (c : Course) (old new : End) (piece before after seen now : List ℕ) → CourseLeadsTo c old →
        Feeds old piece before after seen now new → CourseLeadsTo (fed c piece) new }
    ensures said { (c : Course) (old new : End) (piece before after seen now : List ℕ) (h k : History) →
        CourseLeadsTo c old → (f : Feeds old piece before after seen now new) → ReadsAs c h →
        ReadsAs (fed c piece) k →
        items_said k ≡ items_said h ++ says_items old f.items }
    ensures displayed { (c : Course) (old new : End) (piece before after seen now : List ℕ) (h k : History) →
        CourseLeadsTo c old → (f : Feeds old piece before after seen now new) → ReadsAs c h →
        ReadsAs (fed c piece) k →
        text_shown k ≡ text_shown h ++ items_shown f.items }
{}

/// After a refused piece, the appended bytes and the text begin those of all of its items.
pub fn course_stopped()
    ensures { (c : Course) (old : End) (piece before after seen now : List ℕ) (h whole : History) →
        CourseLeadsTo c old → StopsWithin old piece before after seen now → ReadsAs c h →
        ReadsAs (fed c piece) whole → StopsBetween h whole before after seen now }
{}

/// One call more.
pub fn course_called()
    ensures { (c : Course) (old : End) (e : Event) → CourseLeadsTo c old → IsCall e →
        CourseLeadsTo (called c e) (end_after old e) }
{}

/// A stretch of the stream leads to one end, however it is cut.
pub fn pieces_join()
    ensures { (c : Course) (p q : List ℕ) (h : History) → All (λ b. b < 256) (stream c ++ p) →
        ReadsAs (fed (fed c p) q) h ↔ ReadsAs (fed c (p ++ q)) h }
{
    one_reading();
}

/// A piece of no bytes is never refused.
pub fn nothing_is_accepted()
    ensures { (c : Course) (old : End) (before after seen now : List ℕ) → CourseLeadsTo c old →
        ¬ StopsWithin old [] before after seen now }
{}

/// The reply to an item is bounded, besides the held bytes of a line that are sent when EDIT ends:
/// to an option message 16 bytes, to a subnegotiation as many as it has itself, and to any other
/// item none.
pub fn replies_bounded()
    ensures { (h : History) (item : Item) →
        length (spells (replies h (got item))) ≤ length (spells (held_sent h item)) + max_answered item }
{
    answers_name_their_function();
}

/// The bounds are met: for both numbers an item reaches it, while nothing is held.
pub fn bounds_are_met()
    ensures word { (h : History) × (verb : Verb) × (option : ℕ) ×
        (length (spells (replies h (got (Neg verb option)))) ≡ 16) × (held_sent h (Neg verb option) ≡ []) }
    ensures subnegotiation { (h : History) × (option : ℕ) × (params : List ℕ) ×
        (length (spells (replies h (got (Sub option params)))) ≡ length (spelling (Sub option params)))
        × (held_sent h (Sub option params) ≡ []) }
{}

/// For a stream of n bytes at most 4n + 4 bytes are sent, or held,
/// besides those that the owner's own keys and calls add.
pub fn sending_bounded()
    ensures { (h : History) (bytes : List ℕ) → IsRead bytes (items h) →
        bytes_due h ≤ 4 * length bytes + max_of_calls h + 4 }
{
    answers_name_their_function();
}

/// A piece that goes on with a subnegotiation that is dropped is not refused: it needs no memory, and
/// completes no item.
pub fn dropping_goes_on()
    ensures { (c : Course) (old : End) (piece before after seen now : List ℕ) → CourseLeadsTo c old →
        nvt.IsLetGo old.decoder piece → ¬ StopsWithin old piece before after seen now }
{}
