//! Laws of the printed lines, only over the definitions.

ghost use Rattle.std.specs.Prelude.{◌≡◌, ◌<◌, List, [], ◌++◌, length, map};
ghost use Rattle.tn_nvt.specs.declared.items.Item.{Item, TheVariants.Byte};
ghost use Rattle.tn_net.specs.printing.{Lines.{decoded, max_data}, Printing.{Printing, prefix_text, Takes}};

/// Items that were taken in turn were taken at once.
pub fn taken_in_turn()
    ensures { (old middle new : Printing) (xs ys : List Item) →
        Takes old xs middle → Takes middle ys new → Takes old (xs ++ ys) new }
{}

/// Items lead a printer to one state, and so do pieces of a stream, wherever it is cut.
pub fn one_state()
    ensures { (old new other : Printing) (items : List Item) → length old.held < max_data →
        Takes old items new → Takes old items other → new ≡ other }
{}

/// The items that a new printer has taken are its text, and the data that it holds.
pub fn all_is_printed()
    ensures { (old new : Printing) (items : List Item) → old.text ≡ [] → old.held ≡ [] →
        Takes old items new →
        new.text ++ decoded (prefix_text old.prefix) (map Byte new.held)
        ≡ decoded (prefix_text old.prefix) items }
{}
