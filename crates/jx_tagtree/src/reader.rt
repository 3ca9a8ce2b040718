//! The bits of a packet header, read (T.800, B.10.1).

ghost use Rattle.std.specs.Prelude.{◌/◌, ◌%◌, ◌^◌, ◌==◌, ◌≡◌, ◌∷◌, [], ◌<◌, ◌≤◌, ◌+◌, IfOk, IfErr, OnOk, OnErr, drop, false, length, nat_le};
ghost use Rattle.jx_tagtree.specs.Header.{Bits, Reading, bits_after, is_stuffed, start_of, to_come, fault_of, advance, refuse, end_of, room};

use crate::BitFault;
use std::marker::Model;

/// Reads the bits of a packet header, the most significant first, without the bit that is stuffed
/// after a byte FF (T.800 B.10.1). It allocates nothing.
#[derive(Drop)]
pub struct BitReader<'a> {
    bytes: &'a [u8],
    /// How many bytes were begun.
    used: usize,
    /// The last of these, 0 before the first.
    last: u8,
    /// How many of its low bits are to come.
    left: u8,
    refused: Option<BitFault>,
}

impl<'a> Model for BitReader<'a> {
    ghost use Rattle.std.specs.Prelude.{◌-◌, length, take};
    ghost use Rattle.jx_tagtree.specs.Header.{Reading, bits_of};
    ghost use Rattle.jx_tagtree.specs.Place.{Stands};

    ghost Value = { Reading };

    ghost view = { λ r. record { bytes = r.bytes.now; taken = length (bits_of (take r.used r.bytes.now)).bits - r.left; refused = r.refused } };

    ghost invariant = { λ r. Stands r.bytes.now r.used r.last r.left };
}

impl<'a> BitReader<'a> {
    /// A reader that has given no bit.
    pub fn new(bytes: &'a [u8]) -> BitReader<'a>
        ensures { result ≡ start_of bytes.entry.now }
    {
        BitReader {
            bytes,
            used: 0,
            last: 0,
            left: 0,
            refused: None,
        }
    }

    /// Takes the next bit. After a fault the same fault comes again, here and at `finish`.
    pub fn bit(&mut self) -> Result<bool, BitFault>
        ensures bit { IfOk result (λ b. to_come self.old ≡ b ∷ to_come self.new) }
        ensures step { OnOk result (self.new ≡ advance self.old 1) }
        ensures fault { IfErr result (λ e. (to_come self.old ≡ []) × (e ≡ fault_of self.old)) }
        ensures err { IfErr result (λ e. self.new ≡ refuse self.old e) }
    {
        if self.left > 0 {
            self.left -= 1;
            return Ok(bit_of(self.last, self.left));
        }
        match byte_after(self.last, self.bytes, self.used) {
            Ok(byte) => {
                self.left = after_first(self.last);
                self.last = byte;
                self.used += 1;
                Ok(bit_of(byte, self.left))
            }
            Err(fault) => {
                self.refused = Some(fault);
                Err(fault)
            }
        }
    }

    /// Ends the header: the number of bytes that it takes, up to its last bit and filling, and with
    /// the byte that must follow a last byte FF.
    pub fn finish(self) -> Result<usize, BitFault>
        ensures { result ≡ end_of self.entry }
    {
        if let Some(fault) = self.refused {
            return Err(fault);
        }
        if self.last != 255 {
            return Ok(self.used);
        }
        match byte_after(255, self.bytes, self.used) {
            Ok(_) => Ok(self.used + 1),
            Err(fault) => Err(fault),
        }
    }
}

/// The byte at `at`, which stands after the byte `before`.
fn byte_after(before: u8, bytes: &[u8], at: usize) -> Result<u8, BitFault>
    requires { at ≤ length bytes.now }
    ensures ok { IfOk result (λ byte. (drop at bytes.now ≡ byte ∷ drop (at + 1) bytes.now) × (is_stuffed before byte ≡ false)) }
    ensures err { IfErr result (λ e. bits_after before (drop at bytes.now) ≡ record { bits = []; fault = e }) }
{
    match bytes.get(at) {
        None => Err(BitFault::Ended),
        Some(byte) => {
            if before == 255 && *byte >= 128 {
                Err(BitFault::Stuffed)
            } else {
                Ok(*byte)
            }
        }
    }
}

/// How many bits the byte after `before` has behind its first.
fn after_first(before: u8) -> u8
    ensures { result + 1 ≡ room before }
{
    if before == 255 { 6 } else { 7 }
}

/// The bit of a byte that has `place` bits below it.
fn bit_of(byte: u8, place: u8) -> bool
    requires { place < 8 }
    ensures { result ≡ (byte / 2 ^ place % 2 == 1) }
{
    byte >> place & 1 == 1
}
