//! Tests of running sessions in memory, some with gates that hold their threads, of both cores in one loop, and of
//! sessions over connections of this machine (`connections`). Nothing here is part of the program. Of the tests it is
//! proved that they are safe.
#![tactic(auto)]

#[cfg(test)]
mod connections;
#[cfg(test)]
mod tests;
