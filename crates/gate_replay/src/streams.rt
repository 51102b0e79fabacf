//! A reader and a writer over memory, each call of which does little, and one of which fails.
ghost use Rattle.std.specs.Prelude.{◌≡◌, IfOk};

use std::io;
use std::io::{ErrorKind, Read, Write};

/// What a writer does at its last call.
#[derive(Clone, Copy)]
pub enum Failure {
    /// An error.
    Error,
    /// An error that the outside interrupted it.
    Interruption,
    /// It takes nothing.
    Nothing,
}

/// A reader that gives at most so many bytes a call, and fails after so many calls.
#[derive(Drop)]
pub struct Source<'a> {
    left: &'a [u8],
    most: usize,
    calls: usize,
    failure: ErrorKind,
}

/// A writer that takes at most so many bytes a call, and fails after so many calls.
#[derive(Drop)]
pub struct Sink {
    pub taken: Vec<u8>,
    most: usize,
    calls: usize,
    failure: Failure,
}

impl<'a> Source<'a> {
    /// A reader of bytes.
    pub fn new(left: &'a [u8], most: usize, calls: usize, failure: ErrorKind) -> Source<'a> {
        Source {
            left,
            most,
            calls,
            failure,
        }
    }
}

impl Sink {
    /// A writer that has taken nothing.
    pub fn new(taken: Vec<u8>, most: usize, calls: usize, failure: Failure) -> Sink {
        Sink {
            taken,
            most,
            calls,
            failure,
        }
    }

    // What comes of the last call: it takes nothing.
    fn fail(&self) -> io::Result<usize>
        ensures { IfOk result (λ taken. taken ≡ 0) }
    {
        match self.failure {
            Failure::Error => Err(io::Error::from(ErrorKind::BrokenPipe)),
            Failure::Interruption => Err(io::Error::from(ErrorKind::Interrupted)),
            Failure::Nothing => Ok(0),
        }
    }
}

impl Read for Source<'_> {
    fn read(&mut self, buf: &mut [u8]) -> io::Result<usize> {
        if self.calls == 0 {
            return Err(io::Error::from(self.failure));
        }
        self.calls -= 1;
        let count = buf.len().min(self.most).min(self.left.len());
        let (given, left) = self.left.split_at(count);
        buf[..count].copy_from_slice(given);
        self.left = left;
        Ok(count)
    }
}

impl Write for Sink {
    fn write(&mut self, buf: &[u8]) -> io::Result<usize> {
        if self.calls == 0 {
            return self.fail();
        }
        self.calls -= 1;
        let count = buf.len().min(self.most);
        self.taken.extend_from_slice(&buf[..count])?;
        Ok(count)
    }

    fn flush(&mut self) -> io::Result<()> {
        Ok(())
    }
}
