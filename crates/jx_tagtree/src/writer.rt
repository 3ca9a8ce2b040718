//! The bits of a packet header, written (T.800, B.10.1).

ghost use Rattle.std.specs.Prelude.{◌/◌, ◌%◌, ◌*◌, ◌^◌, ◌==◌, ◌≡◌, ◌∷◌, ◌++◌, [], ◌<◌, ◌≤◌, ◌+◌, ◌-◌, Bool, IfOk, IfErr, OnOk, OnErr, if◌then◌else◌};
ghost use Rattle.jx_tagtree.specs.Header.{bytes_of, room};
ghost use Rattle.jx_tagtree.specs.Place.{Fills, given, closed};

use jx_base::NoMemory;
use std::alloc::Global;
use std::marker::Model;

/// Writes the bits of a packet header, the most significant first, and stuffs a 0 after each byte FF
/// (T.800 B.10.1). Contracts see it as the list of its bits.
#[derive(Drop)]
pub struct BitWriter {
    bytes: Vec<u8>,
    /// The last of the bytes, 0 before the first.
    last: u8,
    /// The bits that don't fill a byte yet, as a number.
    current: u8,
    /// How many bits these are.
    filled: u8,
}

impl Model for BitWriter {
    ghost use Rattle.std.specs.Prelude.{List, Bool};
    ghost use Rattle.jx_tagtree.specs.Place.{Fills, given};

    ghost Value = { List Bool };

    ghost view = { λ w. given w.bytes.items w.current w.filled };

    ghost invariant = { λ w. Fills w.bytes.items w.last w.current w.filled };
}

impl BitWriter {
    /// A writer without bits.
    pub fn new(alloc: Global) -> BitWriter
        ensures { result ≡ [] }
    {
        BitWriter {
            bytes: Vec::new(alloc),
            last: 0,
            current: 0,
            filled: 0,
        }
    }

    /// Appends a bit. After an `Err` the writer is as before.
    pub fn bit(&mut self, bit: bool) -> Result<(), NoMemory>
        ensures ok { OnOk result (self.new ≡ self.old ++ bit ∷ []) }
        ensures err { OnErr result (self.new ≡ self.old) }
    {
        let next = with_bit(self.current, self.filled, bit);
        if self.filled + 1 < room_after(self.last) {
            self.current = next;
            self.filled += 1;
            return Ok(());
        }
        self.bytes.push(next)?;
        self.last = next;
        self.current = 0;
        self.filled = 0;
        Ok(())
    }

    /// The one header of these bits: the last byte is filled with 0, and a last byte FF is followed by 00.
    pub fn finish(self) -> Result<Vec<u8>, NoMemory>
        ensures { IfOk result (λ bytes. bytes.items ≡ bytes_of self) }
    {
        let mut bytes = self.bytes;
        let last = fill_last(&mut bytes, self.last, self.current, self.filled)?;
        if last == 255 {
            bytes.push(0)?;
        }
        Ok(bytes)
    }
}

/// Writes the bits that don't fill a byte, with zeros behind them, and gives the last byte.
fn fill_last(bytes: &mut Vec<u8>, last: u8, current: u8, filled: u8) -> Result<u8, NoMemory>
    requires { Fills bytes.old.items last current filled }
    ensures { IfOk result (λ end. closed bytes.new.items end ≡ bytes_of (given bytes.old.items current filled)) }
{
    if filled == 0 {
        return Ok(last);
    }
    let byte = filled_up(current, filled, room_after(last));
    bytes.push(byte)?;
    Ok(byte)
}

/// How many bits the byte after `before` has room for.
fn room_after(before: u8) -> u8
    ensures { result ≡ room before }
{
    if before == 255 { 7 } else { 8 }
}

/// A number of `filled` bits with one more bit behind them.
fn with_bit(current: u8, filled: u8, bit: bool) -> u8
    requires few { filled < 8 }
    requires fits { current < 2 ^ filled }
    ensures { result ≡ 2 * current + (if bit then 1 else 0) }
{
    if bit { current * 2 + 1 } else { current * 2 }
}

/// A number of `filled` bits with zeros behind them, up to `room` bits.
fn filled_up(current: u8, filled: u8, room: u8) -> u8
    requires within { filled ≤ room }
    requires room { room ≤ 8 }
    requires filled { 0 < filled }
    requires fits { current < 2 ^ filled }
    ensures { result ≡ current * 2 ^ (room - filled) }
{
    current << (room - filled)
}
