//! The loops over a real file and a real output, with a reader and a writer that fail.

use feast_base::{LoadFault, read_whole, write_whole};
use std::alloc::Global;
use std::io;
use std::io::{ErrorKind, Read, Write};

/// Gives one byte in two calls, the first of which is interrupted, and fails once this many bytes
/// are left.
#[derive(Drop)]
struct Drip {
    bytes: &'static [u8],
    fails_at: Option<usize>,
    interrupted: bool,
}

impl Read for Drip {
    fn read(&mut self, buf: &mut [u8]) -> io::Result<usize> {
        self.interrupted = !self.interrupted;
        if self.interrupted {
            return Err(ErrorKind::Interrupted.into());
        }
        if self.fails_at == Some(self.bytes.len()) {
            return Err(ErrorKind::Other.into());
        }
        if self.bytes.is_empty() || buf.is_empty() {
            return Ok(0);
        }
        buf[0] = self.bytes[0];
        self.bytes = &self.bytes[1..];
        Ok(1)
    }
}

/// A read of `feast`.
struct Reading {
    limit: u8,
    /// How many bytes are left when it fails.
    fails_at: Option<usize>,
    answer: Result<(), LoadFault>,
    taken: &'static str,
}

impl Reading {
    /// Whether the read is answered so, and takes these bytes.
    fn is_so(&self, alloc: Global) -> bool {
        let mut drip = Drip {
            bytes: b"feast",
            fails_at: self.fails_at,
            interrupted: false,
        };
        let mut into = Vec::new(alloc);
        let told = read_whole(&mut drip, self.limit as usize, &mut into);
        told == self.answer && into.as_slice() == self.taken.as_bytes()
    }
}

const READINGS: [Reading; 6] = [
    Reading {
        limit: 5,
        fails_at: None,
        answer: Ok(()),
        taken: "feast",
    },
    Reading {
        limit: 9,
        fails_at: None,
        answer: Ok(()),
        taken: "feast",
    },
    Reading {
        limit: 4,
        fails_at: None,
        answer: Err(LoadFault::TooLong),
        taken: "feast",
    },
    Reading {
        limit: 9,
        fails_at: Some(3),
        answer: Err(LoadFault::Failed),
        taken: "fe",
    },
    Reading {
        limit: 9,
        fails_at: Some(0),
        answer: Err(LoadFault::Failed),
        taken: "feast",
    },
    Reading {
        limit: 2,
        fails_at: Some(1),
        answer: Err(LoadFault::TooLong),
        taken: "fea",
    },
];

#[test]
fn a_file_is_read_to_its_end_or_its_fault(rt: HostRuntime) {
    for (number, reading) in READINGS.iter().enumerate() {
        assert!(rt; reading.is_so(rt.alloc()), "read {number}");
    }
}

/// How a writer fails.
#[derive(Clone, Copy)]
enum Fault {
    Nothing,
    TakesNothing,
    Fails,
    FailsToFlush,
}

/// Takes at most three bytes in two calls, the first of which is interrupted, and fails in its way
/// once it holds three.
#[derive(Drop)]
struct Sip {
    got: Vec<u8>,
    fault: Fault,
    flushes: u8,
    interrupted: bool,
}

impl Write for Sip {
    fn write(&mut self, buf: &[u8]) -> io::Result<usize> {
        self.interrupted = !self.interrupted;
        if self.interrupted {
            return Err(ErrorKind::Interrupted.into());
        }
        match self.fault {
            Fault::TakesNothing if self.got.len() >= 3 => return Ok(0),
            Fault::Fails if self.got.len() >= 3 => return Err(ErrorKind::Other.into()),
            _ => {}
        }
        let count = buf.len().min(3);
        self.got.extend_from_slice(&buf[..count])?;
        Ok(count)
    }

    fn flush(&mut self) -> io::Result<()> {
        self.flushes = self.flushes.saturating_add(1);
        match self.fault {
            Fault::FailsToFlush => Err(ErrorKind::Other.into()),
            _ => Ok(()),
        }
    }
}

/// A write of a report.
struct Writing {
    fault: Fault,
    /// Whether it is written in spite of the fault.
    is_written: bool,
    got: &'static str,
    flushes: u8,
}

impl Writing {
    /// Whether the write is answered so, and its writer got these bytes and was flushed so often.
    fn is_so(&self, alloc: Global) -> bool {
        let mut sip = Sip {
            got: Vec::new(alloc),
            fault: self.fault,
            flushes: 0,
            interrupted: false,
        };
        let told = write_whole(&mut sip, b"report\n").is_ok();
        told == self.is_written
            && sip.flushes == self.flushes
            && sip.got.as_slice() == self.got.as_bytes()
    }
}

const WRITINGS: [Writing; 4] = [
    Writing {
        fault: Fault::Nothing,
        is_written: true,
        got: "report\n",
        flushes: 1,
    },
    Writing {
        fault: Fault::TakesNothing,
        is_written: false,
        got: "rep",
        flushes: 0,
    },
    Writing {
        fault: Fault::Fails,
        is_written: false,
        got: "rep",
        flushes: 0,
    },
    Writing {
        fault: Fault::FailsToFlush,
        is_written: false,
        got: "report\n",
        flushes: 1,
    },
];

#[test]
fn a_piece_is_written_whole_or_up_to_its_fault(rt: HostRuntime) {
    for (number, writing) in WRITINGS.iter().enumerate() {
        assert!(rt; writing.is_so(rt.alloc()), "write {number}");
    }
}
