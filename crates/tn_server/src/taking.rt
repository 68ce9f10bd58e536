//! A server end while it is lent to the decoder that it holds.

use crate::end::ServerEnd;
use crate::faults::ServerFault;
use tn_nvt::{Item, Params, Refused, Sink};

/// An end, and what it appends to.
#[derive(Drop)]
pub(crate) struct Lent<'a> {
    pub(crate) end: &'a mut ServerEnd,
    pub(crate) out: &'a mut Vec<u8>,
    /// The cause why the end refused an item, once it did.
    pub(crate) cause: ServerFault,
}

impl<'a> Sink for Lent<'a> {
    ghost use Rattle.tn_server.specs.Lending.{TakesItems, RefusesItems};

    ghost takes = { TakesItems };

    ghost gives_up = { RefusesItems };

    fn run(&mut self, bytes: &[u8]) -> Result<(), Refused> {
        match self.end.bytes(bytes) {
            Ok(()) => Ok(()),
            Err(fault) => {
                self.cause = ServerFault::Pty(fault);
                Err(Refused)
            },
        }
    }

    fn item(&mut self, item: Item) -> Result<(), Refused> {
        match self.end.item(item, self.out) {
            Ok(()) => Ok(()),
            Err(fault) => {
                self.cause = fault;
                Err(Refused)
            },
        }
    }

    fn sub(&mut self, option: u8, params: &mut Params) -> Result<(), Refused> {
        match self.end.subnegotiation(option, params, self.out) {
            Ok(()) => Ok(()),
            Err(_) => {
                self.cause = ServerFault::Memory;
                Err(Refused)
            },
        }
    }
}
