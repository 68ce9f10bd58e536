//! The tests. They compare values by `==` in most places, since printing both values that differ
//! would take most of a test's proof.

use crate::models::page::{Stage, unlike};
use std::alloc::Global;
use std::process::Abort;

mod characters;
mod clients;
mod editors;
mod faults;
mod hostile;
mod jobs;
mod linemode;
mod lines;
mod options;
mod pairs;
mod payloads;
mod random_clients;
mod random_pairs;
mod random_servers;
mod servers;
mod streams;

// The script has this outcome.
fn plays<S: Stage>(rt: &impl Abort, alloc: Global, script: &str, wanted: &str) {
    if let Some(page) = unlike::<S>(alloc, script, wanted) {
        assert_eq!(rt; page.text(), wanted);
    }
}

// Each script has its outcome.
fn play_all<S: Stage>(rt: &impl Abort, alloc: Global, scripts: &[(&str, &str)]) {
    for &(script, wanted) in scripts {
        plays::<S>(rt, alloc, script, wanted);
    }
}
