//! The canonical terminal again, as a plain program that computes each result from all keys; the page
//! that a test's script prints, and pseudorandom numbers. The tests compare the product with this
//! terminal. It is slow, keeps everything, and loses what it has no memory for. Only its safety and
//! termination are proved, so nothing may rest on it.

pub mod canonical;
pub mod page;
pub mod random;
pub mod terminal;
