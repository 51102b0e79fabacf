//! Bytes put one behind another.
use std::alloc::{AllocError, Global};

/// Bytes put one behind another. Where memory is refused they go on without what had no room, and there are none in the end: so what
/// puts some need not ask each time.
#[derive(Drop)]
pub struct Bytes {
    bytes: Vec<u8>,
    /// Memory was refused.
    refused: bool,
}

impl Bytes {
    /// None yet.
    pub fn new(alloc: Global) -> Bytes {
        Bytes {
            bytes: Vec::new(alloc),
            refused: false,
        }
    }

    /// Those that are there.
    pub fn as_slice(&self) -> &[u8] {
        self.bytes.as_slice()
    }

    /// Puts some behind them.
    pub fn put(&mut self, bytes: &[u8]) {
        if self.bytes.extend_from_slice(bytes).is_err() {
            self.refused = true;
        }
    }

    /// Puts one behind them.
    pub fn put_byte(&mut self, byte: u8) {
        if self.bytes.push(byte).is_err() {
            self.refused = true;
        }
    }

    /// Puts others behind them.
    pub fn put_all(&mut self, others: &Bytes) {
        self.put(others.as_slice());
        self.refused = self.refused || others.refused;
    }

    /// Keeps that memory was refused.
    pub fn refuse(&mut self) {
        self.refused = true;
    }

    /// All of them.
    ///
    /// # Errors
    ///
    /// Where memory was refused.
    pub fn finish(self) -> Result<Vec<u8>, AllocError> {
        let Bytes { bytes, refused } = self;
        if refused { Err(AllocError) } else { Ok(bytes) }
    }
}
