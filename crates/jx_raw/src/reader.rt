//! Raw bits, read (T.800, D.6).

ghost use Rattle.std.specs.Prelude.{◌≡◌, ℕ, ◌-◌, List, length, drop};
ghost use Rattle.jx_coder_specs.specs.RawBits.{raw_bits, raw_looked};
ghost use Rattle.jx_raw.specs.RawReading.{RawReading, IsReading, bits_left, first_or_one};

use std::marker::Model;

/// A reader of the raw bits of one segment. It allocates nothing, and gives 1 past the end.
#[derive(Drop)]
pub struct RawReader<'a> {
    bytes: &'a [u8],
    place: usize,
    current: u8,
    left: u8,
}

impl<'a> Model for RawReader<'a> {
    ghost Value = { RawReading };

    ghost view = { λ r. record { bytes = r.bytes.now; left = bits_left r.bytes.now r.place r.current r.left } };

    ghost invariant = { λ r. IsReading r.bytes.now r.place r.current r.left };
}

impl<'a> RawReader<'a> {
    /// A reader at the first bit of a segment.
    pub fn new(bytes: &'a [u8]) -> RawReader<'a>
        ensures bytes { result.bytes ≡ bytes.now }
        ensures left { result.left ≡ raw_bits bytes.now }
    {
        RawReader {
            bytes,
            place: 0,
            current: 0,
            left: 0,
        }
    }

    /// The next bit, most significant first, seven in a byte after FF; 1 past the end.
    #[inline(always)]
    pub fn bit(&mut self) -> bool
        ensures bit { result ≡ first_or_one self.old.left }
        ensures bytes { self.new.bytes ≡ self.old.bytes }
        ensures left { self.new.left ≡ drop 1 self.old.left }
    {
        if self.left > 0 {
            self.left -= 1;
            return self.current >> self.left & 1 == 1;
        }
        if self.place == self.bytes.len() {
            return true;
        }
        self.left = if self.current == 0xFF { 6 } else { 7 };
        self.current = self.bytes[self.place];
        self.place += 1;
        self.current >> self.left & 1 == 1
    }

    /// How many bytes of the segment were looked at for the bits read so far.
    pub fn looked(&self) -> usize
        ensures { result ≡ raw_looked self.now.bytes (length (raw_bits self.now.bytes) - length self.now.left) }
    {
        self.place
    }
}
