//! Both ends and the two streams between them, and the promise about them: a line means the same
//! wherever it was edited (`docs/THEOREM.md`).
//!
//! Begin with `World`, and `Event`, which is what may happen in one.
//!
//! ```
//! let mut world = World::open(alloc, Settings::standard(), 80, 24, Limit::standard())?;
//! world.settle()?; // all that is in flight arrives, until nothing is in flight
//! if world.mark() {
//!     world.run(&[Event::Key(0x61), Event::Key(0x0d), Event::ToServer(3), Event::Take])?;
//!     world.taken(); // [Entry::Text("a\n")]
//! }
//! ```
//!
//! It is a model to try and to reason with: nothing in it waits, and no byte leaves the program.
#![tactic(auto)]

pub use events::{Event, ToWhom};
pub use faults::{Cause, WorldFault};
pub use world::World;

mod agreeing;
mod commands;
mod events;
mod faults;
pub mod laws;
mod rest;
mod running;
mod settling;
mod world;
