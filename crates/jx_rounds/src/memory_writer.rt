//! A buffer in memory, as a writer of bytes.

ghost use Rattle.std.specs.Prelude.{◌≡◌, [], Some, ⊤};

use crate::writer::ByteWriter;
use jx_io::Refused;
use std::alloc::Global;

/// A buffer in memory, whose only refusal is want of memory.
#[derive(Drop)]
pub struct MemoryWriter {
    bytes: Vec<u8>,
}

impl MemoryWriter {
    /// A buffer without a byte.
    pub fn new(alloc: Global) -> MemoryWriter
        ensures { ⟦<MemoryWriter as ByteWriter>⟧.written result ≡ Some [] }
    {
        MemoryWriter {
            bytes: Vec::new(alloc),
        }
    }

    /// The bytes written so far.
    pub fn bytes(&self) -> &[u8]
        ensures { Some result.now ≡ ⟦<MemoryWriter as ByteWriter>⟧.written self.now }
    {
        &self.bytes
    }

    /// The buffer itself.
    pub fn into_bytes(self) -> Vec<u8>
        ensures { Some result.items ≡ ⟦<MemoryWriter as ByteWriter>⟧.written self }
    {
        self.bytes
    }
}

impl ByteWriter for MemoryWriter {
    ghost Kept = { Unit {0} };

    ghost kept = { λ _. tt };

    ghost can_write = { λ _. ⊤ };

    ghost written = { λ w. Some w.bytes.items };

    ghost faults = { λ _. 0 };

    fn is_blind(&self) -> bool {
        false
    }

    fn write(&mut self, bytes: &[u8]) -> Result<(), Refused> {
        self.bytes.extend_from_slice(bytes)?;
        Ok(())
    }
}
