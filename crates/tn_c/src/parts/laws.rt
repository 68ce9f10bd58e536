//! Laws of the calls, only over the definitions.

ghost use Rattle.std.specs.Prelude.{◌≡◌, ◌≢◌, ◌<◌, ◌≤◌, ◌+◌, ◌++◌, ℕ, List, All, length};
ghost use Rattle.tn_nvt.specs.{Feeding.LeadsTo, declared.items.Item.Item};
ghost use Rattle.tn_server.specs.Course.{Course, CourseLeadsTo, stream};
ghost use Rattle.tn_c.specs.parts.ServerCalls.{EndTakes, FeedCall, FeedSomeCall};
ghost use Rattle.tn_c.specs.parts.OwnOptions.{HasCome, SiftCall, own_items};
ghost use Rattle.tn_c.specs.parts.ClientCalls as client;
ghost use Rattle.tn_c.specs.declared.parts.client.HeldClient.{HeldClient};
ghost use Rattle.tn_c.specs.declared.parts.{codes.Code.Code, owned.Owned.Owned, server.HeldServer.HeldServer};
ghost use Rattle.tn_c.specs.declared.parts.codes.Code.TheVariants as code;

use tn_server::laws::pieces_find_room;

/// At every end, `feed_some` takes nothing that would make more entries than may wait, also if options are owned.
pub fn some_find_room()
    ensures { (c : Course) (came bytes : List ℕ) (old_taken new_taken : ℕ) (answer : Code)
        (before after : HeldServer) → All (λ b. b < 256) came → HasCome came (stream c) before.owned →
        CourseLeadsTo c before.end → FeedSomeCall bytes old_taken new_taken answer before after →
        answer ≢ code.TooFarAhead }
{
    pieces_find_room();
}

/// An end takes all that comes without the items of owned options, and those are queued, each once and in order:
/// at most 64 more than the last piece has bytes.
pub fn owned_items_are_left_out()
    ensures server { (came passed piece : List ℕ) (before after : HeldServer) →
        HasCome came passed before.owned → FeedCall piece code.Done before after →
        (taken : List ℕ) × HasCome (came ++ piece) (passed ++ taken) after.owned
        × EndTakes code.Done before.end after.end before.pending.items after.pending.items taken }
    ensures client { (came passed piece : List ℕ) (before after : HeldClient) →
        HasCome came passed before.owned → client.FeedCall piece code.Done before after →
        (taken : List ℕ) × HasCome (came ++ piece) (passed ++ taken) after.owned
        × client.EndTakes code.Done before.end after.end before.pending.items after.pending.items
        before.shown.items after.shown.items taken }
    ensures queued { (came piece : List ℕ) (read : List Item) (before after : Owned) →
        LeadsTo came read before.decoder → SiftCall piece code.Done before after →
        (more : List Item) × LeadsTo (came ++ piece) (read ++ more) after.decoder
        × (after.sieve.waiting.items
        ≡ before.sieve.waiting.items ++ own_items before.sieve.options.items more) }
    ensures bounded { (came piece : List ℕ) (read : List Item) (before after : Owned) →
        All (λ b. b < 256) came → LeadsTo came read before.decoder →
        SiftCall piece code.Done before after → length after.sieve.waiting.items ≤ length piece + 64 }
{}
