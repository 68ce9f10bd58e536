//! Tests of parts and of both ends by scripts; of both ends by random input, compared with a `model`
//! of each; and of both ends together and of the program's runs (`worlds`), compared with the
//! terminal of `models`. Nothing here is part of the program. Of the tests it is proved that they
//! are safe and end.
#![tactic(auto)]

#[cfg(test)]
mod model;
pub mod models;
#[cfg(test)]
mod tests;
#[cfg(test)]
mod worlds;
