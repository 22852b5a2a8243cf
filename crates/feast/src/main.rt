//! The program: its words, the files of the system, standard output, and its exit status.
#![tactic(auto)]

use feast_base::{ClockGate, FileShelf, StdSink};
use feast_run::{Status, feast};
use std::alloc::Global;
use std::env::{Env, FillError};
use std::process::ExitCode;
use std::rt::{Clock, Files};
use std::thread::Threads;
use std::{env, io};

/// An environment without its first argument, which is the program's name. So that name is never
/// read, and need not be UTF-8.
#[derive(Drop)]
struct AfterName<'a, R> {
    rt: &'a R,
}

impl<R: Env> Env for AfterName<'_, R> {
    fn arg(&self, i: usize, buf: &mut [u8]) -> Result<usize, FillError> {
        match i.checked_add(1) {
            Some(next) => self.rt.arg(next, buf),
            None => Err(FillError::NotPresent),
        }
    }

    fn var(&self, name: &str, buf: &mut [u8]) -> Result<usize, FillError> {
        self.rt.var(name, buf)
    }

    fn var_at(&self, i: usize, buf: &mut [u8]) -> Result<usize, FillError> {
        self.rt.var_at(i, buf)
    }
}

/// The words after the program's name.
///
/// If one of them is not UTF-8, none are returned: no form has such a word, so the call is answered
/// with the usage line. `NoMemory` if memory runs out.
fn words<R: Env>(rt: &R, alloc: Global) -> Result<Vec<String>, Status> {
    let mut words = Vec::new(alloc);
    match env::args(&(AfterName { rt }, alloc)) {
        Ok(args) => {
            for word in args {
                if words.push(word).is_err() {
                    return Err(Status::NoMemory);
                }
            }
            Ok(words)
        }
        Err(error) if error.kind() == io::ErrorKind::OutOfMemory => Err(Status::NoMemory),
        Err(_) => Ok(words),
    }
}

/// Calls `feast` over the files of the system and standard output. Workers rest by the clock.
fn status<R: Threads + Sync + Files + Print + Clock>(
    rt: &R,
    alloc: Global,
    words: &[String],
) -> Status {
    let mut shelf = FileShelf::new(rt, alloc);
    let mut sink = StdSink::new(rt);
    feast(
        rt,
        alloc,
        words,
        &mut shelf,
        &mut sink,
        &ClockGate { clock: rt },
    )
}

fn main(rt: HostRuntime) -> ExitCode {
    let alloc = rt.alloc();
    match words(&rt, alloc) {
        Ok(words) => ExitCode::from(status(&rt, alloc, words.as_slice()).code()),
        Err(status) => ExitCode::from(status.code()),
    }
}
