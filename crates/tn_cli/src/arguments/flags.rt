//! The options that take no value.

use crate::arguments::choices::{CONNECT_GROUPS, Choice};

/// Returns whether an option of `tn connect` that has this name takes no value.
pub fn is_connect_flag(name: &str) -> bool {
    for group in CONNECT_GROUPS {
        for choice in group.choices {
            match choice {
                Choice::Flag(flag, _) | Choice::Letter(flag, _, _) if *flag == name => return true,
                _ => {},
            }
        }
    }
    name == "help"
}
