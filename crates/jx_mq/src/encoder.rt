ghost use Rattle.std.specs.Prelude.{◌≡◌, ◌-◌, ◌*◌, ◌/◌, ◌%◌, ◌^◌, ◌<◌, ◌≤◌, ◌==◌, ℕ, List, [], ◌∷◌, length, reverse, IfOk, OnOk};
ghost use Rattle.jx_coder_specs.specs.MqWriting.{MqWriter, mq_writer, mq_byte_out, mq_renormalized, mq_part, mq_wrote, mq_after_bit, mq_last_number, mq_given_out, mq_segment};
ghost use Rattle.jx_mq.specs.Coding.{given, writer_of, IsCoding, IsCoder};
ghost use Rattle.jx_mq.specs.Shifting.{mq_moved_by, IsShort};

use crate::choice::{by_bit, unless};
use crate::contexts::Contexts;
use crate::table::width_of;
use jx_base::NoMemory;
use std::alloc::Global;
use std::marker::Model;

/// What BYTEOUT makes of C and of the newest byte, with CT between them (Annex C.2.7): the carry
/// goes into the newest byte, and a byte after FF has seven bits.
fn given_out(c: u32, newest: u8, older: &mut Vec<u8>) -> Result<(u32, u32, u8), NoMemory>
    requires { c < 268435456 }
    ensures { IfOk result (λ r. given r.0 r.1 (r.2 ∷ reverse older.new.items) ≡ mq_byte_out (given c 0 (newest ∷ reverse older.old.items))) }
{
    let carry = if newest == 0xFF { 0 } else { c >> 27 };
    let byte = newest + carry as u8;
    let rest = c - carry * 0x800_0000;
    older.push(byte)?;
    if byte == 0xFF {
        return Ok((rest % 0x10_0000, 7, (rest >> 20) as u8));
    }
    Ok((rest % 0x8_0000, 8, (rest >> 19) as u8))
}

/// The registers A (in the upper half of 32 bits), C and CT, and the newest byte B. They come and go
/// as values, so a caller can keep its own in the machine's. The older bytes stand in a list, with
/// the byte 0 before the first.
#[derive(Clone, Copy, Drop)]
struct Registers {
    a: u32,
    c: u32,
    ct: u32,
    newest: u8,
}

impl Registers {
    /// The registers at the start (Annex C.2.8).
    #[inline(always)]
    fn first() -> Registers
        ensures registers { writer_of result [] ≡ mq_writer }
        ensures wide { result.a % 65536 ≡ 0 }
    {
        Registers {
            a: 0x8000_0000,
            c: 0,
            ct: 12,
            newest: 0,
        }
    }

    /// BYTEOUT (Annex C.2.7).
    fn byte_out(self, older: &mut Vec<u8>) -> Result<Registers, NoMemory>
        requires { self.c < 268435456 }
        ensures registers { IfOk result (λ r. writer_of r older.new.items ≡ mq_byte_out (writer_of self older.old.items)) }
        ensures a { IfOk result (λ r. r.a ≡ self.a) }
    {
        let (c, ct, newest) = given_out(self.c, self.newest, older)?;
        Ok(Registers {
            a: self.a,
            c,
            ct,
            newest,
        })
    }

    /// Shifts of RENORME, before a byte is given out.
    #[inline(always)]
    fn shifted(self, by: u32) -> Registers
        requires due { by ≤ self.ct }
        requires ct { self.ct ≤ 12 }
        requires wide { self.a % 65536 ≡ 0 }
        requires narrow { self.a / 65536 * 2 ^ by < 65536 }
        requires room { self.c * 2 ^ by < 268435456 }
        ensures registers { (older : List ℕ) → writer_of result older ≡ mq_moved_by by (writer_of self older) }
        ensures wide { result.a % 65536 ≡ 0 }
        ensures newest { result.newest ≡ self.newest }
    {
        Registers {
            a: self.a << by,
            c: self.c << by,
            ct: self.ct - by,
            newest: self.newest,
        }
    }

    /// RENORME (Annex C.2.6) by so many shifts, as A needs, of which at least one gives out a byte. A
    /// byte is given out as soon as it is whole.
    #[inline(always)]
    fn given_by(self, shifts: u32, older: &mut Vec<u8>) -> Result<Registers, NoMemory>
        requires coding { IsCoding (writer_of self older.old.items) }
        requires wide { self.a % 65536 ≡ 0 }
        requires shifts { IsShort (self.a / 65536) shifts }
        ensures registers { IfOk result (λ r. writer_of r older.new.items ≡ mq_renormalized 15 (writer_of self older.old.items)) }
        ensures coder { IfOk result (λ r. IsCoder (writer_of r older.new.items)) }
        ensures wide { IfOk result (λ r. r.a % 65536 ≡ 0) }
    {
        let mut now = self;
        let mut left = shifts;
        while left >= now.ct {
            let ready = now.ct;
            let moved = now.shifted(ready);
            now = moved.byte_out(older)?;
            left -= ready;
        }
        Ok(now.shifted(left))
    }

    /// RENORME (Annex C.2.6) by so many shifts, after which A and C are those of a part of the
    /// interval. They come as numbers, since a part that is lent would stand in memory at each
    /// decision.
    #[cold]
    #[inline(never)]
    fn give(&mut self, a: u32, c: u32, shifts: u32, older: &mut Vec<u8>) -> Result<(), NoMemory>
        requires coding { IsCoding (writer_of (record self.old { a = a; c = c }) older.old.items) }
        requires wide { a % 65536 ≡ 0 }
        requires shifts { IsShort (a / 65536) shifts }
        ensures registers { OnOk result (writer_of self.new older.new.items ≡ mq_renormalized 15 (writer_of (record self.old { a = a; c = c }) older.old.items)) }
        ensures coder { OnOk result (IsCoder (writer_of self.new older.new.items)) }
        ensures wide { OnOk result (self.new.a % 65536 ≡ 0) }
    {
        let part = Registers {
            a,
            c,
            ct: self.ct,
            newest: self.newest,
        };
        *self = part.given_by(shifts, older)?;
        Ok(())
    }

    /// RENORME (Annex C.2.6) of a part of the interval, in place: as a value that comes back with a
    /// result it would go through memory at each decision. Where A has bit 15 there are no shifts.
    #[inline(always)]
    fn renormalize(&mut self, part: Registers, older: &mut Vec<u8>) -> Result<(), NoMemory>
        requires same { part ≡ record self.old { a = part.a; c = part.c } }
        requires coding { IsCoding (writer_of part older.old.items) }
        requires wide { part.a % 65536 ≡ 0 }
        ensures registers { OnOk result (writer_of self.new older.new.items ≡ mq_renormalized 15 (writer_of part older.old.items)) }
        ensures coder { OnOk result (IsCoder (writer_of self.new older.new.items)) }
        ensures wide { OnOk result (self.new.a % 65536 ≡ 0) }
    {
        let shifts = part.a.leading_zeros();
        if shifts >= part.ct {
            return self.give(part.a, part.c, shifts, older);
        }
        let last = part.shifted(shifts);
        self.a = last.a;
        self.c = last.c;
        self.ct = last.ct;
        Ok(())
    }

    /// The interval narrowed to a symbol's part (Annex C.2.4 and C.2.5). Qe is in the upper half of
    /// 32 bits, and `lps` is 0 for the more probable symbol and 1 for the other.
    #[inline(always)]
    fn narrowed(self, qe: u32, lps: u32) -> Registers
        requires wide { self.a % 65536 ≡ 0 }
        requires wide_qe { qe % 65536 ≡ 0 }
        requires most { qe ≤ self.a }
        requires bit { lps < 2 }
        requires room { self.c < 268435456 }
        ensures registers { (older : List ℕ) → writer_of result older ≡ mq_part (writer_of self older) (qe / 65536) (lps == 0) }
        ensures wide { result.a % 65536 ≡ 0 }
        ensures same { result ≡ record self { a = result.a; c = result.c } }
    {
        let rest = self.a - qe;
        let low = lps ^ (rest < qe) as u32;
        Registers {
            a: by_bit(low, qe, rest),
            c: self.c + unless(low, qe >> 16),
            ct: self.ct,
            newest: self.newest,
        }
    }

    /// SETBITS (Annex C.2.9).
    #[tactic(auto, using(crate::proofs::Renormals::filled))]
    fn set_bits(self) -> Registers
        requires room { self.c < 268435456 }
        requires wide { self.a % 65536 ≡ 0 }
        ensures { (older : List ℕ) → writer_of result older ≡ record (writer_of self older) { c = mq_last_number (writer_of self older) } }
    {
        let end = self.c + (self.a >> 16);
        let mut last = self;
        last.c |= 0xFFFF;
        if last.c >= end {
            last.c -= 0x8000;
        }
        last
    }

    /// A step of FLUSH: C is shifted by CT and given out (Annex C.2.9).
    fn give_out(self, older: &mut Vec<u8>) -> Result<Registers, NoMemory>
        requires room { self.c * 2 ^ self.ct < 268435456 }
        requires ct { self.ct ≤ 12 }
        ensures { IfOk result (λ r. writer_of r older.new.items ≡ mq_given_out (writer_of self older.old.items)) }
    {
        let mut moved = self;
        moved.c <<= self.ct;
        moved.byte_out(older)
    }
}

/// An encoder of one segment.
#[derive(Drop)]
pub struct MqEncoder {
    registers: Registers,
    older: Vec<u8>,
}

impl Model for MqEncoder {
    ghost Value = { MqWriter };

    ghost view = { λ e. writer_of e.registers e.older.items };

    ghost invariant = { λ e. (e.registers.a % 65536 ≡ 0) × IsCoder (writer_of e.registers e.older.items) };
}

impl MqEncoder {
    /// An encoder that was given no decisions (Annex C.2.8).
    pub fn new(alloc: Global) -> MqEncoder
        ensures { result ≡ mq_writer }
    {
        MqEncoder::over(Vec::new(alloc))
    }

    /// Such an encoder, which takes room for a segment of so many bytes at once. No clause says so: it is for speed.
    pub fn with_room(alloc: Global, bytes: usize) -> Result<MqEncoder, NoMemory>
        ensures { IfOk result (λ e. e ≡ mq_writer) }
    {
        let Some(room) = bytes.checked_add(1) else {
            return Err(NoMemory);
        };
        let older = Vec::with_capacity(alloc, room)?;
        Ok(MqEncoder::over(older))
    }

    /// An encoder over a list that is empty.
    fn over(older: Vec<u8>) -> MqEncoder
        requires { older.items ≡ [] }
        ensures { result ≡ mq_writer }
    {
        MqEncoder {
            registers: Registers::first(),
            older,
        }
    }

    /// Codes a decision under a label, which is below 19. Where memory is refused the encoder has
    /// lost its decisions, and it and the contexts are given up.
    #[inline(always)]
    pub fn bit(&mut self, contexts: &mut Contexts, label: u8, bit: bool) -> Result<(), NoMemory>
        requires { label < 19 }
        ensures contexts { OnOk result (contexts.new ≡ mq_after_bit self.old contexts.old label bit) }
        ensures registers { OnOk result (self.new ≡ mq_wrote self.old contexts.old label bit) }
    {
        let state = contexts.state(label);
        let lps = (state % 2) as u32 ^ bit as u32;
        let part = self.registers.narrowed(width_of(state), lps);
        contexts.adapt(label, state, part.a, lps == 0);
        match self.registers.renormalize(part, &mut self.older) {
            Ok(()) => Ok(()),
            Err(refused) => {
                self.registers = Registers::first();
                self.older.clear();
                Err(refused)
            }
        }
    }

    /// How many bytes were given out so far.
    pub fn given_out(&self) -> usize
        ensures { result ≡ length self.now.bytes - 1 }
    {
        self.older.len()
    }

    /// How many places the bytes to come have of what was coded so far, in the scale of A: a decoder
    /// has looked at the bytes that have one of them.
    pub fn places(&self) -> u8
        ensures { result ≡ 27 - self.now.ct }
    {
        (27 - self.registers.ct) as u8
    }

    /// The segment of all decisions (Annex C.2.9): its last byte is never FF.
    pub fn flush(self) -> Result<Vec<u8>, NoMemory>
        ensures { IfOk result (λ bytes. bytes.items ≡ mq_segment self) }
    {
        let MqEncoder {
            registers,
            mut older,
        } = self;
        let last = registers.set_bits();
        let once = last.give_out(&mut older)?;
        let twice = once.give_out(&mut older)?;
        if twice.newest != 0xFF {
            older.push(twice.newest)?;
        }
        older.remove(0);
        Ok(older)
    }
}
