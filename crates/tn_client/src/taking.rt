//! A client end while it is lent to the decoder that it holds.

use crate::end::ClientEnd;
use tn_nvt::{Item, Params, Refused, Sink};

/// An end, and what it appends to. After a refusal the end is not used again.
#[derive(Drop)]
pub(crate) struct Lent<'a> {
    pub(crate) end: &'a mut ClientEnd,
    pub(crate) out: &'a mut Vec<u8>,
    pub(crate) screen: &'a mut Vec<u8>,
}

impl<'a> Sink for Lent<'a> {
    ghost use Rattle.tn_client.specs.Lending.{TakesItems, RefusesItems};

    ghost takes = { TakesItems };

    ghost gives_up = { RefusesItems };

    // Shows plain bytes as they are.
    fn run(&mut self, bytes: &[u8]) -> Result<(), Refused> {
        match self.screen.extend_from_slice(bytes) {
            Ok(()) => Ok(()),
            Err(_) => Err(Refused),
        }
    }

    fn item(&mut self, item: Item) -> Result<(), Refused> {
        match self.end.item(item, self.out, self.screen) {
            Ok(()) => Ok(()),
            Err(_) => Err(Refused),
        }
    }

    fn sub(&mut self, option: u8, params: &mut Params) -> Result<(), Refused> {
        match self.end.subnegotiation(option, params, self.out) {
            Ok(()) => Ok(()),
            Err(_) => Err(Refused),
        }
    }
}
