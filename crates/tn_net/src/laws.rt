//! Laws of the typed inputs, only over the definitions.

ghost use Rattle.std.specs.Prelude.{◌≡◌, ◌==◌, ℕ, None, Option, Some, List, [], ◌∷◌, ◌++◌, IsFalse, IsTrue, map};
ghost use Rattle.std.specs.List.{All};
ghost use Rattle.tn_codes.specs.declared.codes.Func.{Func};
ghost use Rattle.tn_discipline.specs.Canon.{typed_entries};
ghost use Rattle.tn_discipline.specs.Characters.{AreAllowed, is_reserved, slot, standard_characters};
ghost use Rattle.tn_net.specs.Mapping.{IsOfUser, characters_of, mapped, own_function, standard_own};
ghost use Rattle.tn_net.specs.{Mapping.terminal_with, Prompting.closed, declared.escaping.Typed.Typed};
ghost use Rattle.tn_net.specs.Typing.{AreTaken, commands, inputs, inputs_in, is_escape, mapped_input};
ghost use Rattle.tn_net.specs.{Typing.{of_bytes, typed_after, unmapped}, declared.prompt.Prompt.Prompt};
ghost use Rattle.tn_net.specs.declared.escaping.{Escaping.Escaping, SessionInput.TheVariants.Key};
ghost use Rattle.tn_net.specs.declared.{escaping.Keyboard.Keyboard, returns.ReturnKey.ReturnKey};
ghost use Rattle.tn_net.specs.declared.own_characters.OwnCharacters.{OwnCharacters};
ghost use Rattle.tn_net.specs.declared.escaping.Typed.TheVariants as typed;

/// If there is no escape character and no character of the user's own, every byte is a key.
pub fn every_byte_is_a_key()
    ensures { (bytes : List ℕ) → inputs of_bytes closed bytes ≡ map Key bytes }
{}

/// Bytes that are taken one by one give what a session gets of them.
pub fn one_by_one()
    ensures { (old new : Escaping) (bytes : List ℕ) (taken : List Typed) → AreTaken old bytes taken new →
        inputs_in taken ≡ inputs old.keyboard old.prompt bytes }
{}

/// A character of the user's own becomes the standard one of its function, whatever it is as a standard
/// character.
pub fn own_characters_win()
    ensures { (own : OwnCharacters) (byte standard : ℕ) (f : Func) → IsFalse (is_reserved byte) →
        own_function own byte ≡ Some f → slot standard_characters f ≡ Some standard →
        mapped own byte ≡ standard }
{}

/// Every other byte stays.
pub fn other_bytes_stay()
    ensures { (own : OwnCharacters) (byte : ℕ) → own_function own byte ≡ None → mapped own byte ≡ byte }
{}

/// If the user's own characters are the standard ones, every byte stays.
pub fn standard_characters_change_nothing()
    ensures { (byte : ℕ) → mapped standard_own byte ≡ byte }
{}

/// The user's own characters change which keys a session gets, each by itself, and nothing else.
pub fn only_keys_are_mapped()
    ensures inputs { (keyboard : Keyboard) (prompt : Prompt) (bytes : List ℕ) →
        inputs keyboard prompt bytes ≡ map (mapped_input keyboard) (inputs (unmapped keyboard) prompt bytes) }
    ensures commands { (keyboard : Keyboard) (prompt : Prompt) (bytes : List ℕ) →
        commands keyboard prompt bytes ≡ commands (unmapped keyboard) prompt bytes }
{}

/// The bytes that RETURN is to send change no other key, and no line to the client itself.
pub fn only_return_is_changed()
    ensures { (keyboard : Keyboard) (prompt : Prompt) (byte : ℕ) (returns : Option ReturnKey) →
        IsFalse (byte == 13) → typed_after keyboard prompt byte
        ≡ typed_after keyboard (record prompt { returns = returns }) byte }
{}

/// No byte of a line that is typed to the client itself is a key, but the escape character on an
/// empty one.
pub fn no_line_is_sent()
    ensures { (keyboard : Keyboard) (prompt : Prompt) (byte key : ℕ) → IsTrue prompt.is_open →
        typed_after keyboard prompt byte ≡ typed.Key key →
        (key ≡ byte) × IsTrue (is_escape keyboard.escape byte) × (prompt.line ≡ []) }
{}

/// The keys that a session gets give at a terminal with the standard characters the entries that the typed
/// keys give at the user's own terminal, if none of these is a standard character that is not the user's own.
pub fn users_keys()
    ensures { (own : OwnCharacters) (limit : ℕ) (keys : List ℕ) → AreAllowed (characters_of own) →
        All (IsOfUser own) keys →
        typed_entries (terminal_with standard_characters limit) (map (mapped own) keys)
        ≡ typed_entries (terminal_with (characters_of own) limit) keys }
{}
