//! The special characters, which stay distinct.

use super::plays;
use crate::models::page::{Page, Stage, Words, byte_of};
use std::alloc::Global;
use tn_discipline::Chars;

#[derive(Drop)]
struct Characters {
    chars: Chars,
}

impl Stage for Characters {
    fn open(_alloc: Global) -> Option<Characters> {
        Some(Characters {
            chars: Chars::standard(),
        })
    }

    fn step(&mut self, words: Words<'_>, page: &mut Page) -> bool {
        match words.verb {
            "get" => page.say(&self.chars.get(words.func())),
            "holder" => page.say(&self.chars.holder(byte_of(words.first))),
            _ => page.say(&self.chars.set(words.func(), words.value(page.alloc))),
        }
        false
    }
}

#[test]
fn characters_stay_distinct(rt: HostRuntime) {
    plays::<Characters>(
        &rt,
        rt.alloc(),
        "set ao 0a; set ec 0a; set ec 0d; set forw1 ff; set el 7f; holder 127; get el; set ec 7f; set ec; \
         set el 7f; get el; get ao; holder 127; holder 21",
        "Err(NotSettable); Err(Reserved); Err(Reserved); Err(Reserved); Err(Taken); Some(Ec); Some(21); \
         Ok(()); Ok(()); Ok(()); Some(127); None; Some(El); None",
    );
}
