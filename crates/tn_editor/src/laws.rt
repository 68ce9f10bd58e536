//! Laws of the definitions.

ghost use Rattle.tn_editor.specs.Edited.{nothing_typed};
ghost use Rattle.std.specs.Prelude.{◌≡◌, ℕ, Some, List, All, [], ◌∷◌, ◌++◌};
ghost use Rattle.tn_discipline.specs.{Canon.{Canon, typed_entries, typed_half}, Characters.AreAllowed};
ghost use Rattle.tn_discipline.specs.{Entries.{entries_of, half_of}, declared.keys.Role.Role};
ghost use Rattle.tn_editor.specs.{EditKeys.{Terminal, edit_role_of_key, edit_roles_of}, Entering.whole_lines};
ghost use Rattle.tn_editor.specs.Edited.{Editing, after_half, line_bytes, edited_next, edited_all, edited};
ghost use Rattle.tn_editor.specs.{Edited.{edited_entries, edited_half}, Recalling.{IsItself, recalling}};
ghost use Rattle.tn_editor.specs.Whole.{IsCharacter, IsWholeOrNone, bytes_typed};
ghost use Rattle.tn_editor.specs.Expanding.{expanded, expanded_key, expanded_from, IsAsBefore};
ghost use Rattle.tn_editor.specs.Changing.{Typed, typed_all, typed_gains, expanded_roles};

/// For every list of keys, the keys that they become give at a plain terminal the entries, and
/// leave the half-typed line, that they give and leave at a terminal with the editing keys.
pub fn expanded_keys_edit_the_line()
    ensures entries { (t : Terminal) (keys : List ℕ) → AreAllowed t.canon.settings.chars →
        typed_entries t.canon (expanded t keys) ≡ edited_entries t keys }
    ensures half { (t : Terminal) (keys : List ℕ) → AreAllowed t.canon.settings.chars →
        typed_half t.canon (expanded t keys) ≡ edited_half t keys }
{}

/// For every list of roles, each typed while some editing keys were set, the roles that they become
/// give at a plain terminal the entries, and leave the half-typed line, that they give and leave at
/// a terminal with the editing keys; also after a half-typed line that other keys left there. So
/// all settings may change within a line.
pub fn expanded_roles_edit_the_line()
    ensures entries { (canon : Canon) (before : List Role) (typed : List Typed) →
        let e = after_half (half_of canon.limit before) in
        entries_of canon.limit (before ++ expanded_roles canon e typed)
        ≡ entries_of canon.limit before ++ typed_gains canon e typed }
    ensures half { (canon : Canon) (before : List Role) (typed : List Typed) →
        let e = after_half (half_of canon.limit before) in
        half_of canon.limit (before ++ expanded_roles canon e typed) ≡
        line_bytes (typed_all canon e typed) }
{}

/// If a line goes to a plain terminal once it ends, and a signal at once, that terminal gives the
/// entries that a terminal with the editing keys gives, whatever was typed there before, if no
/// half-typed line was left. So all settings may change within a line.
pub fn whole_lines_give_the_entries()
    ensures { (canon : Canon) (before : List Role) (typed : List Typed) →
        half_of canon.limit before ≡ [] →
        entries_of canon.limit (before ++ whole_lines canon nothing_typed typed)
        ≡ entries_of canon.limit before ++ typed_gains canon nothing_typed typed }
{}

/// One more key goes on from what the keys before it left.
pub fn keys_are_typed_one_by_one()
    ensures edited { (t : Terminal) (keys : List ℕ) (key : ℕ) →
        edited t (keys ++ key ∷ []) ≡ edited_next t (edited t keys) (edit_role_of_key t key) }
    ensures expanded { (t : Terminal) (keys : List ℕ) (key : ℕ) →
        expanded t (keys ++ key ∷ []) ≡ expanded t keys ++ expanded_key t (edited t keys) key }
{}

/// KILL, and then the bytes of a line that was typed before, bring this line back, if each of its bytes joins a line
/// as it is. These keys become themselves.
pub fn an_earlier_line_comes_back()
    ensures half { (t : Terminal) (e : Editing) (keys : List ℕ) (kill : ℕ) →
        AreAllowed t.canon.settings.chars → t.canon.settings.chars.kill ≡ Some kill →
        All (IsItself t) (edited_half t keys) →
        line_bytes (edited_all t e (edit_roles_of t (recalling kill (edited_half t keys)))) ≡
        edited_half t keys }
    ensures keys { (t : Terminal) (e : Editing) (keys : List ℕ) (kill : ℕ) →
        AreAllowed t.canon.settings.chars → t.canon.settings.chars.kill ≡ Some kill →
        All (IsItself t) (edited_half t keys) →
        expanded_from t e (recalling kill (edited_half t keys)) ≡
        recalling kill (edited_half t keys) }
{}

/// If no editing key is typed, and no character of several bytes, each key becomes itself.
pub fn other_keys_are_as_before()
    ensures { (t : Terminal) (keys : List ℕ) →
        All (λ key. IsAsBefore t (edit_role_of_key t key)) keys → expanded t keys ≡ keys }
{}

/// If no editing key is typed, and no character of several bytes, a terminal with editing keys gives the entries
/// of a plain one.
pub fn without_editing_keys_it_is_plain()
    ensures { (t : Terminal) (keys : List ℕ) → AreAllowed t.canon.settings.chars →
        All (λ key. IsAsBefore t (edit_role_of_key t key)) keys →
        edited_entries t keys ≡ typed_entries t.canon keys }
{}

/// A character is kept whole, or not at all.
pub fn a_character_is_kept_whole_or_not_at_all()
    ensures { (t : Terminal) (e : Editing) (first : ℕ) (more : List ℕ) → IsCharacter t first more →
        IsWholeOrNone e.characters (first ∷ more)
        (edited_all t e (bytes_typed (first ∷ more))).characters }
{}
