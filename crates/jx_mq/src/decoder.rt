ghost use Rattle.std.specs.Prelude.{◌≡◌, ◌*◌, ◌/◌, ◌%◌, ◌^◌, ◌<◌, ◌≤◌, min, length};
ghost use Rattle.jx_coder_specs.specs.MqTable.{mq_row_of};
ghost use Rattle.jx_coder_specs.specs.MqReading.{mq_byte, mq_byte_in, mq_reader, mq_refilled, mq_is_low, mq_reads_mps, mq_chosen, mq_read, mq_bit, mq_after};
ghost use Rattle.jx_mq.specs.Decoding.{MqDecoding, reader_of, IsWithin, IsReading};
ghost use Rattle.jx_mq.specs.Shifting.{mq_shifted_by, IsShort};

use crate::choice::either;
use crate::contexts::Contexts;
use crate::table::width_of;
use std::marker::Model;

/// The byte at a place, and FF past the end.
fn byte_at(bytes: &[u8], place: usize) -> u8
    ensures { result ≡ mq_byte bytes.now place }
{
    if place < bytes.len() {
        bytes[place]
    } else {
        0xFF
    }
}

/// The registers A (in the upper half of 32 bits), C and CT, the place of the byte B, and how many
/// bytes were read or compared. They come and go as values, so a caller can keep its own in the
/// machine's.
#[derive(Clone, Copy, Drop)]
struct Registers {
    a: u32,
    c: u32,
    ct: u32,
    place: usize,
    looked: usize,
}

impl Registers {
    /// BYTEIN (Annex C.3.4).
    fn fed(self, bytes: &[u8]) -> Registers
        requires { IsWithin bytes.now (reader_of self) }
        ensures registers { reader_of result ≡ mq_byte_in bytes.now (reader_of self) }
        ensures a { result.a ≡ self.a }
        ensures within { IsWithin bytes.now (reader_of result) }
    {
        let current = byte_at(bytes, self.place);
        let next = byte_at(bytes, self.place + 1);
        let mut fed = self;
        fed.looked = self.place + 2;
        if current != 0xFF {
            fed.c = self.c.wrapping_add(next as u32 * 256);
            fed.ct = 8;
            fed.place = self.place + 1;
        } else if next > 0x8F {
            fed.c = self.c.wrapping_add(0xFF00);
            fed.ct = 8;
        } else {
            fed.c = self.c.wrapping_add(next as u32 * 512);
            fed.ct = 7;
            fed.place = self.place + 1;
        }
        fed
    }

    /// Shifts of RENORMD for which no byte is due.
    #[inline(always)]
    fn shifted(self, by: u32) -> Registers
        requires due { by ≤ self.ct }
        requires ct { self.ct ≤ 8 }
        requires wide { self.a % 65536 ≡ 0 }
        requires room { self.a / 65536 * 2 ^ by < 65536 }
        ensures registers { reader_of result ≡ mq_shifted_by by (reader_of self) }
        ensures wide { result.a % 65536 ≡ 0 }
        ensures fits { self.c < 4294967296 }
        ensures place { result.place ≡ self.place }
        ensures looked { result.looked ≡ self.looked }
    {
        Registers {
            a: self.a << by,
            c: self.c << by,
            ct: self.ct - by,
            place: self.place,
            looked: self.looked,
        }
    }

    /// RENORMD (Annex C.3.3) by so many shifts, as A needs, of which CT has no room for all. A byte
    /// is read once a shift needs it, and no sooner.
    #[inline(always)]
    fn fed_by(self, shifts: u32, bytes: &[u8]) -> Registers
        requires within { IsWithin bytes.now (reader_of self) }
        requires wide { self.a % 65536 ≡ 0 }
        requires shifts { IsShort (self.a / 65536) shifts }
        ensures registers { reader_of result ≡ mq_refilled bytes.now 15 (reader_of self) }
        ensures wide { result.a % 65536 ≡ 0 }
        ensures reading { IsReading bytes.now (reader_of result) }
    {
        let mut now = self;
        let mut left = shifts;
        while left > now.ct {
            let ready = now.ct;
            now = now.shifted(ready).fed(bytes);
            left -= ready;
        }
        now.shifted(left)
    }

    /// RENORMD (Annex C.3.3) by so many shifts, after which A and C are those of a part of the
    /// interval. They come as numbers, since a part that is lent would stand in memory at each
    /// decision.
    #[cold]
    #[inline(never)]
    fn feed(&mut self, a: u32, c: u32, shifts: u32, bytes: &[u8])
        requires within { IsWithin bytes.now (reader_of (record self.old { a = a; c = c })) }
        requires wide { a % 65536 ≡ 0 }
        requires shifts { IsShort (a / 65536) shifts }
        ensures registers { reader_of self.new ≡ mq_refilled bytes.now 15 (reader_of (record self.old { a = a; c = c })) }
        ensures wide { self.new.a % 65536 ≡ 0 }
        ensures reading { IsReading bytes.now (reader_of self.new) }
    {
        let mut part = *self;
        part.a = a;
        part.c = c;
        *self = part.fed_by(shifts, bytes);
    }

    /// RENORMD (Annex C.3.3) of a part of the interval, in place. Where A has bit 15 there are no
    /// shifts.
    #[inline(always)]
    fn refill(&mut self, part: Registers, bytes: &[u8])
        requires same { part ≡ record self.old { a = part.a; c = part.c } }
        requires within { IsWithin bytes.now (reader_of part) }
        requires wide { part.a % 65536 ≡ 0 }
        requires some { 0 < part.a }
        ensures registers { reader_of self.new ≡ mq_refilled bytes.now 15 (reader_of part) }
        ensures wide { self.new.a % 65536 ≡ 0 }
        ensures reading { IsReading bytes.now (reader_of self.new) }
    {
        let shifts = part.a.leading_zeros();
        if shifts > part.ct {
            self.feed(part.a, part.c, shifts, bytes);
            return;
        }
        let last = part.shifted(shifts);
        self.a = last.a;
        self.c = last.c;
        self.ct = last.ct;
    }

    /// Whether the code lies in the lower part of the interval, whose width is in the upper half of
    /// 32 bits.
    #[inline(always)]
    fn is_low(self, qe: u32) -> bool
        requires { qe % 65536 ≡ 0 }
        ensures { result ≡ mq_is_low (reader_of self) (qe / 65536) }
    {
        self.c < qe
    }

    /// Whether the code lies in the part of the more probable symbol (Annex C.3.2).
    #[inline(always)]
    fn reads_mps(self, qe: u32) -> bool
        requires wide { self.a % 65536 ≡ 0 }
        requires wide_qe { qe % 65536 ≡ 0 }
        requires most { qe ≤ self.a }
        ensures { result ≡ mq_reads_mps (reader_of self) (qe / 65536) }
    {
        self.is_low(qe) == (self.a - qe < qe)
    }

    /// The interval narrowed to the part in which the code lies (Annex C.3.2).
    #[inline(always)]
    fn chosen(self, qe: u32) -> Registers
        requires wide { self.a % 65536 ≡ 0 }
        requires wide_qe { qe % 65536 ≡ 0 }
        requires most { qe ≤ self.a }
        ensures registers { reader_of result ≡ mq_chosen (reader_of self) (qe / 65536) }
        ensures wide { result.a % 65536 ≡ 0 }
        ensures same { result ≡ record self { a = result.a; c = result.c } }
    {
        let is_low = self.is_low(qe);
        let above = self.c.wrapping_sub(qe);
        Registers {
            a: either(is_low, qe, self.a - qe),
            c: either(is_low, self.c, above),
            ct: self.ct,
            place: self.place,
            looked: self.looked,
        }
    }
}

/// A decoder of one segment. It allocates nothing, and gives a decision for any bytes.
#[derive(Drop)]
pub struct MqDecoder<'a> {
    bytes: &'a [u8],
    registers: Registers,
}

impl<'a> Model for MqDecoder<'a> {
    ghost Value = { MqDecoding };

    ghost view = { λ d. record { bytes = d.bytes.now; reader = reader_of d.registers } };

    ghost invariant = { λ d. (d.registers.a % 65536 ≡ 0) × IsReading d.bytes.now (reader_of d.registers) };
}

impl<'a> MqDecoder<'a> {
    /// A decoder at the start of a segment (Annex C.3.5).
    pub fn new(bytes: &'a [u8]) -> MqDecoder<'a>
        ensures bytes { result.bytes ≡ bytes.now }
        ensures reader { result.reader ≡ mq_reader bytes.now }
    {
        let first = Registers {
            a: 0x8000_0000,
            c: byte_at(bytes, 0) as u32 * 65536,
            ct: 0,
            place: 0,
            looked: 1,
        };
        let mut registers = first.fed(bytes);
        registers.c = registers.c << 7;
        registers.ct -= 7;
        MqDecoder { bytes, registers }
    }

    /// The next decision under a label, which is below 19.
    #[inline(always)]
    pub fn bit(&mut self, contexts: &mut Contexts, label: u8) -> bool
        requires { label < 19 }
        ensures bit { result ≡ mq_bit self.old.reader contexts.old label }
        ensures contexts { contexts.new ≡ mq_after self.old.reader contexts.old label }
        ensures bytes { self.new.bytes ≡ self.old.bytes }
        ensures reader { self.new.reader ≡ mq_read self.old.bytes self.old.reader (mq_row_of contexts.old label).qe }
    {
        let state = contexts.state(label);
        let qe = width_of(state);
        let is_mps = self.registers.reads_mps(qe);
        let part = self.registers.chosen(qe);
        contexts.adapt(label, state, part.a, is_mps);
        self.registers.refill(part, self.bytes);
        (state % 2 == 1) == is_mps
    }

    /// How many bytes of the segment were read or compared so far.
    pub fn looked(&self) -> usize
        ensures { result ≡ min self.now.reader.looked (length self.now.bytes) }
    {
        self.registers.looked.min(self.bytes.len())
    }
}
