//! The sinks into which a stream can be read.

ghost use Rattle.std.specs.Prelude.{List, [], ◌∷◌, map, OnOk, OnErr};
ghost use Rattle.tn_nvt.specs.{declared.items.Item.{Item, TheVariants.{Byte, Sub}}, Sinks.IsRun};

use crate::items::Item;
use crate::parameters::Params;

/// The answer of a sink that takes no more.
#[derive(Clone, Copy, PartialEq, Eq)]
pub struct Refused;

/// A sink, which takes what a stream is read as: plain bytes in runs, all else item by item. After
/// a refusal it is called no more.
pub trait Sink {
    /// The sink took all items of one call.
    ghost takes: { Self → List Item → Self → Type 0 };

    /// The sink did not take all items of one call.
    ghost gives_up: { Self → List Item → Self → Type 0 };

    /// Takes bytes of data, none of them CR or IAC, each an item.
    fn run(&mut self, bytes: &[u8]) -> Result<(), Refused>
        requires { IsRun bytes.now }
        ensures ok { OnOk result (takes self.old (map Byte bytes.now) self.new) }
        ensures err { OnErr result (gives_up self.old (map Byte bytes.now) self.new) };

    /// Takes one item.
    fn item(&mut self, item: Item) -> Result<(), Refused>
        ensures ok { OnOk result (takes self.old (item ∷ []) self.new) }
        ensures err { OnErr result (gives_up self.old (item ∷ []) self.new) };

    /// Takes a subnegotiation, whose parameters are lent: those that the sink does not take are
    /// discarded. The default makes the item of them, with no copy, and calls `item`.
    fn sub(&mut self, option: u8, params: &mut Params) -> Result<(), Refused>
        ensures ok { OnOk result (takes self.old (Sub option params.old ∷ []) self.new) }
        ensures err { OnErr result (gives_up self.old (Sub option params.old ∷ []) self.new) }
    {
        self.item(Item::Sub(option, params.take()))
    }
}
