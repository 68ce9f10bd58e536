//! Laws of keys, lines and characters, only over the definitions.

ghost use Rattle.std.specs.Prelude.{◌≡◌, ◌+◌, ◌<◌, ◌≤◌, ℕ, Option, Some, None, List, All, [], ◌∷◌, ◌++◌};
ghost use Rattle.std.specs.Prelude.{length};
ghost use Rattle.tn_codes.specs.declared.codes.Func.{Func};
ghost use Rattle.tn_discipline.specs.Characters.{Characters, AreAllowed, slot, with_slot, char_fault};
ghost use Rattle.tn_discipline.specs.Keys.{roles_of, role_of_key, roles_from, literal_role};
ghost use Rattle.tn_discipline.specs.{Admitted.count_of, Limits.max_counted, Entries.{HasAtMost, half_of}};
ghost use Rattle.tn_discipline.specs.{Entries.entries_of, Steps.{half_next, gain_next, half_all, gain_all}};
ghost use Rattle.tn_discipline.specs.HalfLine.{HalfLine, line_length, effect_of, line_after, effect_entries};
ghost use Rattle.tn_discipline.specs.Advancing.{LeadsTo, Advances, DropsExactly, AdvancesFromLine};
ghost use Rattle.tn_discipline.specs.declared.{keys.Role.Role, reads.Entry.Entry, termios.Settings.Settings};

/// Characters stay distinct and unreserved if one of them takes a value that is not refused.
pub fn accepted_characters()
    ensures distinct { (chars : Characters) (f g : Func) (byte : ℕ) →
        AreAllowed chars → slot chars f ≡ Some byte → slot chars g ≡ Some byte → f ≡ g }
    ensures allowed { (chars : Characters) (func : Func) (value : Option ℕ) →
        AreAllowed chars → char_fault chars func value ≡ None →
        AreAllowed (with_slot chars func value) }
{}

/// The roles of a list of keys are those of its parts.
pub fn roles_of_more_keys()
    ensures one { (settings : Settings) (key : ℕ) →
        roles_of settings (key ∷ []) ≡ roles_from (role_of_key settings key) }
    ensures more { (settings : Settings) (keys more : List ℕ) →
        roles_of settings (keys ++ more) ≡ roles_of settings keys ++ roles_of settings more }
    ensures last { (settings : Settings) (keys : List ℕ) (key : ℕ) →
        roles_of settings (keys ++ key ∷ [])
        ≡ roles_of settings keys ++ roles_from (role_of_key settings key) }
    ensures literal { (chars : Characters) (byte : ℕ) →
        roles_from (literal_role chars byte) ≡ literal_role chars byte ∷ [] }
{}

/// The plain count of the admitted keys is the length of the half-typed line, so that line fits.
pub fn count_is_length()
    ensures count { (limit : ℕ) (history : List Role) →
        count_of limit history ≡ length (half_of limit history) }
    ensures fits { (limit : ℕ) (history : List Role) →
        length (half_of limit history) ≤ max_counted limit }
{}

/// No text has more bytes than a line has at most.
pub fn texts_fit()
    ensures { (limit : ℕ) → 1 ≤ limit → (history : List Role) →
        All (HasAtMost limit) (entries_of limit history) }
{}

/// The half-typed line and the entries after one more role depend only on the half-typed line
/// before it.
pub fn one_more_role()
    ensures half { (limit : ℕ) (history : List Role) (r : Role) →
        half_of limit (history ++ r ∷ []) ≡ half_next limit (half_of limit history) r }
    ensures entries { (limit : ℕ) (history : List Role) (r : Role) →
        let half = half_of limit history in
        entries_of limit (history ++ r ∷ []) ≡ entries_of limit history ++ gain_next limit half r }
{}

/// The half-typed line and the entries after some more roles depend only on the half-typed line
/// before them.
pub fn more_roles()
    ensures half { (limit : ℕ) (history roles : List Role) →
        half_of limit (history ++ roles) ≡ half_all limit (half_of limit history) roles }
    ensures entries { (limit : ℕ) (history roles : List Role) → let half = half_of limit history in
        entries_of limit (history ++ roles) ≡
        entries_of limit history ++ gain_all limit half roles }
{}

/// Each line that fits is left by some keys, so that a statement about all keys that left it is
/// never empty.
pub fn every_line_is_left()
    ensures { (line : HalfLine) → line_length line < line.limit →
        (history : List Role) × LeadsTo history line }
{}

/// The effect of a key of each role on a line is the one that the whole list of keys gives.
pub fn each_role_advances()
    ensures advances { (line : HalfLine) (r : Role) →
        Advances line (roles_from r) (effect_entries (effect_of line r)) (line_after line r) }
    ensures dropped { (line : HalfLine) (r : Role) →
        DropsExactly line (roles_from r) (effect_of line r) }
{}

/// A statement about all keys that left a line follows from the line, and the other way round.
pub fn moves_are_advances()
    ensures moves { (old new : HalfLine) (roles : List Role) (gain : List Entry) →
        line_length old < old.limit → Advances old roles gain new →
        AdvancesFromLine old roles gain new }
    ensures advances { (old new : HalfLine) (roles : List Role) (gain : List Entry) →
        AdvancesFromLine old roles gain new → Advances old roles gain new }
{}
