//! Laws of the exchange of local characters, only over the definitions.

ghost use Rattle.std.specs.Prelude.{◌≡◌, ◌≤◌, ◌<◌, ℕ, IsTrue, IsFalse, Some, List, [], length, bit_and};
ghost use Rattle.std.specs.List.{list_all};
ghost use Rattle.tn_codes.specs.{Codes.level_code, declared.triples.Triple.Triple};
ghost use Rattle.tn_discipline.specs.Characters.{Characters, AreAllowed};
ghost use Rattle.tn_linemode.specs.{Triples.{has_ack, level_of}, Exchange.Answers, Repeating.repeated};
ghost use Rattle.tn_linemode.specs.Exchange.{announcement, server_after, server_answers, server_is_asked};
ghost use Rattle.tn_linemode.specs.Exchange.{client_after, client_answers, server_answer, client_answer};

use tn_discipline::Chars;
use tn_discipline::laws::accepted_characters;

/// The level of a triple is that of the two low bits of its modifier.
pub fn levels_are_two_bits()
    ensures { (t : Triple) → level_code (level_of t) ≡ bit_and t.flags 3 }
{}

/// There are never more answers than triples came.
pub fn answers_bounded()
    ensures server { (c : Characters) (ts : List Triple) →
        length (server_answers c ts) ≤ length ts }
    ensures client { (c : Characters) (ts : List Triple) →
        length (client_answers c ts) ≤ length ts }
    ensures announcement { (c : Characters) → length (announcement c) ≡ 8 }
{}

/// An exchange ends. Neither the server nor a peer that sends a client's answers back answers them,
/// and they change nothing at the server. A peer that sends back the server's answers, without the
/// whole table, is silent after as many rounds as its list has triples, and one more.
pub fn exchanges_end()
    ensures answers { (c s : Characters) (ts : List Triple) →
        server_answers s (client_answers c ts) ≡ [] }
    ensures table { (c s : Characters) (ts : List Triple) →
        server_after s (client_answers c ts) ≡ s }
    ensures asks { (c : Characters) (ts : List Triple) →
        IsFalse (server_is_asked (client_answers c ts)) }
    ensures sent_back { (c d : Characters) (ts : List Triple) →
        client_answers d (client_answers c ts) ≡ [] }
    ensures repeated { (c : Characters) (ts : List Triple) (n : ℕ) →
        AreAllowed c → length ts < n → repeated n c ts ≡ [] }
{
    tables_stay_allowed();
}

/// At the server acknowledgements change nothing, and are not answered.
pub fn acknowledgements_end_the_exchange()
    ensures table { (c : Characters) (ts : List Triple) →
        IsTrue (list_all has_ack ts) → server_after c ts ≡ c }
    ensures answers { (c : Characters) (ts : List Triple) →
        IsTrue (list_all has_ack ts) → server_answers c ts ≡ [] }
{}

/// A client that was sent the server's table has it, whatever it had before; the server keeps it at
/// the client's answers, and the exchange ends there.
pub fn announced_tables_agree()
    ensures client { (c s : Characters) → AreAllowed s → client_after c (announcement s) ≡ s }
    ensures server { (c s : Characters) →
        AreAllowed s → server_after s (client_answers c (announcement s)) ≡ s }
    ensures silence { (c s : Characters) →
        AreAllowed s → server_answers s (client_answers c (announcement s)) ≡ [] }
{}

/// Tables stay such as a terminal can have, whatever the other end sends.
pub fn tables_stay_allowed()
    ensures server { (c : Characters) (ts : List Triple) →
        AreAllowed c → AreAllowed (server_after c ts) }
    ensures client { (c : Characters) (ts : List Triple) →
        AreAllowed c → AreAllowed (client_after c ts) }
{
    accepted_characters();
    let _ = Chars::standard();
}

/// The answer to a triple names the same function as the triple.
pub fn answers_name_their_function()
    ensures server { (c : Characters) (t a : Triple) →
        AreAllowed c → server_answer c t ≡ Some a → Answers t a }
    ensures client { (c : Characters) (t a : Triple) → client_answer c t ≡ Some a → Answers t a }
{}
