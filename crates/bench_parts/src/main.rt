//! Benches of two parts of a run. `event` makes events on a grid, and `machine` runs stack code, each
//! with the words behind it. Without a word both do what they do with nothing behind it.
#![tactic(auto)]

mod act;
mod codes;
mod events;
mod machine;

use std::env::Env;
use std::{env, io};

fn main(rt: HostRuntime) -> io::Result<()> {
    let mut words = env::args(&rt)?.skip(1);
    let part = words.next();
    let word = words.next();
    match part.as_deref() {
        None => {
            events::run(&rt, false)?;
            machine::run(&rt, None)
        }
        Some("event") => events::run(&rt, word.is_some()),
        Some("machine") => machine::run(&rt, word.as_deref()),
        Some(_) => Err(io::ErrorKind::InvalidInput.into()),
    }
}
