//! Raw bits, written (T.800, D.6).

ghost use Rattle.std.specs.Prelude.{◌≡◌, Bool, List, [], ◌∷◌, ◌++◌, length, IfOk, OnOk};
ghost use Rattle.jx_coder_specs.specs.RawBits.{raw_write, raw_looked};
ghost use Rattle.jx_raw.specs.RawWriting.{bits_written, IsBegun};

use jx_base::NoMemory;
use std::alloc::Global;
use std::marker::Model;

/// A writer of raw bits into one segment. Contracts see it as the list of the bits written.
#[derive(Drop)]
pub struct RawWriter {
    bytes: Vec<u8>,
    partial: u8,
    count: u8,
    width: u8,
}

impl Model for RawWriter {
    ghost Value = { List Bool };

    ghost view = { λ w. bits_written w.bytes.items w.partial w.count };

    ghost invariant = { λ w. IsBegun w.bytes.items w.partial w.count w.width };
}

impl RawWriter {
    /// A writer that has no bits yet.
    pub fn new(alloc: Global) -> RawWriter
        ensures { result ≡ [] }
    {
        RawWriter {
            bytes: Vec::new(alloc),
            partial: 0,
            count: 0,
            width: 8,
        }
    }

    /// Appends a bit. Where memory is refused the writer is given up.
    #[inline(always)]
    pub fn bit(&mut self, bit: bool) -> Result<(), NoMemory>
        ensures { OnOk result (self.new ≡ self.old ++ bit ∷ []) }
    {
        let byte = self.partial * 2 + u8::from(bit);
        if self.count + 1 < self.width {
            self.partial = byte;
            self.count += 1;
            return Ok(());
        }
        self.bytes.push(byte)?;
        self.width = if byte == 0xFF { 7 } else { 8 };
        self.partial = 0;
        self.count = 0;
        Ok(())
    }

    /// How many bytes a reader looks at for the bits so far.
    pub fn looked(&self) -> usize
        ensures { result ≡ raw_looked (raw_write self.now) (length self.now) }
    {
        if self.count > 0 {
            return self.bytes.len() + 1;
        }
        self.bytes.len()
    }

    /// The segment: zeros fill the last byte, and a byte 00 follows a last FF.
    pub fn finish(self) -> Result<Vec<u8>, NoMemory>
        ensures { IfOk result (λ bytes. bytes.items ≡ raw_write self) }
    {
        let RawWriter {
            mut bytes,
            partial,
            count,
            width,
        } = self;
        if count > 0 {
            bytes.push(partial << (width - count))?;
            return Ok(bytes);
        }
        if width == 7 {
            bytes.push(0)?;
            return Ok(bytes);
        }
        Ok(bytes)
    }
}
