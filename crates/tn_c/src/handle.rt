//! The handle of a caller in C.

ghost use Rattle.std.specs.Prelude.{◌≡◌, ◌≢◌, ◌↔◌, ◌⊎◌, true, IsTrue, Option, None, Some, MatchOption};
ghost use Rattle.tn_c.specs.{Owning.{handle_owns, held_coded}, declared.held.Held.Held};
ghost use Rattle.tn_c.specs.{parts.Codes.code_number, declared.parts.codes.Code.TheVariants.{Done, Memory}};

use crate::held::Held;
use crate::parts::Code;
use crate::unboxed::Unboxed;
use std::alloc::Global;
use std::marker::Model;
use std::mem;

/// One word that C has: null if the handle holds nothing, and else the address of the box that it
/// holds. In C it is `tn_line`, `tn_decoder`, `tn_server` or `tn_client`, which begins as `{0}`.
///
/// It has no `Drop`, so that code that lets one go does not compile: the box is taken out of it,
/// and a handle that is left over is taken apart.
#[repr(C)]
pub struct Handle {
    at: *mut (),
    alloc: Global,
    pub ghost held: { Option Held } by { held_coded },
}

impl Model for Handle {
    ghost also_owns = { λ h. handle_owns h.alloc h.at h.held };
}

// C moves it between threads: all that it holds may be used on any.
unsafe impl Send for Handle {}

impl Handle {
    pub(crate) fn empty(alloc: Global) -> Handle
        ensures { result.held ≡ None }
    {
        Handle {
            at: std::ptr::null_mut(),
            alloc,
        }
    }

    pub(crate) fn of_unboxed(unboxed: Unboxed<Held, Global>) -> Handle
        ensures { result.held ≡ Some unboxed.value }
    {
        let Unboxed { at, alloc } = unboxed;
        Handle {
            at: at as *mut (),
            alloc,
        }
    }

    pub(crate) fn into_unboxed(self) -> Option<Unboxed<Held, Global>>
        ensures { MatchOption result (self.held ≡ None) (λ unboxed. self.held ≡ Some unboxed.value) }
    {
        let Handle { at, alloc } = self;
        if at.is_null() {
            None
        } else {
            Some(Unboxed {
                at: at as *mut Held,
                alloc,
            })
        }
    }

    /// Takes out what is held, if anything.
    pub(crate) fn take(&mut self, alloc: Global) -> Option<Box<Held>>
        ensures value { MatchOption result (self.old.held ≡ None)
            (λ boxed. self.old.held ≡ Some boxed.value) }
        ensures left { self.new.held ≡ None }
    {
        match mem::replace(self, Handle::empty(alloc)).into_unboxed() {
            Some(unboxed) => Some(unboxed.into_box()),
            None => None,
        }
    }

    /// Puts a box in, and gives up what was held, if anything.
    pub(crate) fn put(&mut self, boxed: Box<Held>)
        ensures { self.new.held ≡ Some boxed.value }
    {
        match mem::replace(self, Handle::of_unboxed(Unboxed::of_box(boxed))).into_unboxed() {
            Some(unboxed) => drop(unboxed.into_box()),
            None => {},
        }
    }

    /// Puts a box back in after a call with this code, and gives the code's number.
    pub(crate) fn answer(&mut self, boxed: Box<Held>, code: Code) -> u32
        ensures held { self.new.held ≡ Some boxed.value }
        ensures number { result ≡ code_number code }
    {
        self.put(boxed);
        code.number()
    }

    /// Gives up what is held, if anything, and all of its memory.
    pub(crate) fn free(&mut self, alloc: Global)
        ensures { self.new.held ≡ None }
    {
        if let Some(held) = self.take(alloc) {
            drop(held);
        }
    }

    /// Returns whether the handle holds something.
    pub(crate) fn is_started(&mut self, alloc: Global) -> bool
        ensures value { IsTrue result ↔ (self.old.held ≢ None) }
        ensures same { self.new.held ≡ self.old.held }
    {
        match self.take(alloc) {
            Some(boxed) => {
                self.put(boxed);
                true
            },
            None => false,
        }
    }

    /// Puts this into the handle, in a box of its own, and gives up what was held, if anything.
    pub(crate) fn hold(&mut self, alloc: Global, held: Held) -> Code
        ensures codes { (result ≡ Done) ⊎ (result ≡ Memory) }
        ensures ok { result ≡ Done → self.new.held ≡ Some held }
        ensures err { result ≡ Memory → self.new.held ≡ self.old.held }
    {
        match Box::new(alloc, held).ok() {
            Some(boxed) => {
                self.put(boxed);
                Code::Done
            },
            None => Code::Memory,
        }
    }
}
