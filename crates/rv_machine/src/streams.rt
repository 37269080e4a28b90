//! What a program reads and what it puts out.

ghost use Rattle.std.specs.Prelude.{◌≡◌, ◌<◌, ◌≤◌, ◌++◌, [], drop, length, IfOk, OnErr, OnOk};

use std::alloc::{AllocError, Global};
use std::marker::Model;

/// The bytes that a program can still read.
#[derive(Debug, Drop)]
pub struct Input {
    bytes: Vec<u8>,
    taken: usize,
}

impl Model for Input {
    ghost use Rattle.std.specs.Prelude.{List, ℕ, ◌≤◌, drop, length};

    ghost Value = { List ℕ };

    ghost view = { λ input. drop input.taken input.bytes.items };

    ghost invariant = { λ input. input.taken ≤ length input.bytes.items };
}

impl Input {
    /// Makes an input of all of these bytes.
    pub fn new(alloc: Global, bytes: &[u8]) -> Result<Input, AllocError>
        ensures { IfOk result (λ input. input ≡ bytes.now) }
    {
        Ok(Input {
            bytes: Vec::from_slice(alloc, bytes)?,
            taken: 0,
        })
    }

    /// Returns the bytes that are left, in order.
    pub fn rest(&self) -> &[u8]
        ensures { result.now ≡ self.now }
    {
        &self.bytes[self.taken..]
    }

    /// Leaves out the next bytes.
    pub fn skip(&mut self, count: usize)
        requires { count ≤ length self.old }
        ensures { self.new ≡ drop count self.old }
    {
        self.taken += count;
    }
}

/// The bytes that a program has put out.
#[derive(Debug, Drop)]
pub struct Output {
    items: Vec<u8>,
}

impl Model for Output {
    ghost use Rattle.std.specs.Prelude.{List, ℕ};

    ghost Value = { List ℕ };

    ghost view = { λ out. out.items.items };
}

impl Output {
    /// Makes an empty output.
    pub fn new(alloc: Global) -> Output
        ensures { result ≡ [] }
    {
        Output {
            items: Vec::new(alloc),
        }
    }

    /// Returns the bytes, in order.
    pub fn as_slice(&self) -> &[u8]
        ensures { result.now ≡ self.now }
    {
        self.items.as_slice()
    }

    /// Returns the bytes, of an output that is done with.
    pub fn into_bytes(self) -> Vec<u8>
        ensures { result.items ≡ self }
    {
        self.items
    }

    /// Appends the bytes.
    ///
    /// # Errors
    ///
    /// Memory may run out where there are some; nothing is then appended.
    pub fn append(&mut self, bytes: &[u8]) -> Result<(), AllocError>
        ensures ok { OnOk result (self.new ≡ self.old ++ bytes.now) }
        ensures err { OnErr result (self.new ≡ self.old) }
        ensures wants { OnErr result (0 < length bytes.now) }
    {
        if bytes.is_empty() {
            return Ok(());
        }
        self.items.extend_from_slice(bytes)
    }
}
