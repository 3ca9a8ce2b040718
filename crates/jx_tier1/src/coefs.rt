//! A list of coefficients: their bits, planes and signs apart.

ghost use Rattle.std.specs.Prelude.{◌≡◌, ◌+◌, ◌%◌, ◌^◌, ◌<◌, if◌then◌else◌, length, IfOk, replicate, slice_index_or, slice_set};
ghost use Rattle.jx_tier1_specs.specs.Cells.{zero_coef};
ghost use Rattle.jx_tier1.specs.Noting.{with_more};

use jx_base::NoMemory;
use jx_tier1_specs::{Coef, Plane};
use std::alloc::Global;
use std::marker::Model;

/// A list of coefficients, their bits, planes and signs apart.
#[derive(Drop)]
pub(crate) struct Coefs {
    bits: Vec<u128>,
    planes: Vec<u8>,
    negatives: Vec<bool>,
}

impl Model for Coefs {
    ghost use Rattle.std.specs.Prelude.{◌≡◌, List, length};
    ghost use Rattle.jx_tier1_specs.specs.declared.coef.Coef.{Coef};
    ghost use Rattle.jx_tier1.specs.Joined.{joined};

    ghost Value = { List Coef };

    ghost view = { λ c. joined c.bits.items c.planes.items c.negatives.items };

    ghost invariant = { λ c. (length c.planes.items ≡ length c.bits.items) × (length c.negatives.items ≡ length c.bits.items) };
}

#[tactic(auto, using(crate::proofs::JoinedLemmas::joined_length, crate::proofs::JoinedLemmas::joined_at, crate::proofs::JoinedLemmas::joined_set, crate::proofs::JoinedLemmas::joined_zeros))]
impl Coefs {
    /// So many zeros, of which no plane was decided.
    pub fn new(alloc: Global, count: usize) -> Result<Coefs, NoMemory>
        ensures { IfOk result (λ c. c ≡ replicate count zero_coef) }
    {
        Ok(Coefs {
            bits: vec![in alloc; 0u128; count]?,
            planes: vec![in alloc; 0u8; count]?,
            negatives: vec![in alloc; false; count]?,
        })
    }

    /// How many there are.
    #[inline(always)]
    pub fn len(&self) -> usize
        ensures { result ≡ length self.now }
    {
        self.bits.len()
    }

    /// The coefficient of a number.
    #[inline(always)]
    pub fn at(&self, i: usize) -> Coef
        requires { i < length self.now }
        ensures { result ≡ slice_index_or self.now i zero_coef }
    {
        Coef {
            negative: self.negatives[i],
            bits: self.bits[i],
            planes: self.planes[i],
        }
    }

    /// Changes the coefficient of a number, and no other.
    #[inline(always)]
    pub fn set(&mut self, i: usize, coef: Coef)
        requires { i < length self.old }
        ensures { self.new ≡ slice_set self.old i coef }
    {
        self.bits[i] = coef.bits;
        self.planes[i] = coef.planes;
        self.negatives[i] = coef.negative;
    }
}

/// The bits of a coefficient with one more. A shift of 0 or 1 makes the weight, where a choice would be
/// a branch that is guessed wrong half of the time.
#[inline(always)]
fn with_more_bits(bits: u128, shift: u8, bit: bool) -> u128
    requires { shift < 128 }
    ensures { result ≡ (if bit then (bits + 2 ^ shift) % 2 ^ 128 else bits) }
{
    bits.wrapping_add(u128::from(bit) << shift)
}

#[tactic(auto, using(crate::proofs::JoinedLemmas::joined_length, crate::proofs::JoinedLemmas::joined_more))]
impl Coefs {
    /// Changes all but the sign of the coefficient of a number.
    #[inline(always)]
    fn put(&mut self, i: usize, bits: u128, planes: u8)
        requires { i < length self.old }
        ensures { self.new ≡ slice_set self.old i (record (slice_index_or self.old i zero_coef) { bits = bits; planes = planes }) }
    {
        self.bits[i] = bits;
        self.planes[i] = planes;
    }
}

impl Coefs {
    /// Notes a bit of the coefficient of a number. Its sign isn't touched.
    #[inline(always)]
    pub fn note(&mut self, i: usize, plane: Plane, shift: u8, bit: bool)
        requires number { i < length self.old }
        requires shift { shift < 128 }
        requires plane { plane.number < 74 }
        ensures { self.new ≡ slice_set self.old i (with_more plane shift bit (slice_index_or self.old i zero_coef)) }
    {
        let bits = with_more_bits(self.at(i).bits, shift, bit);
        self.put(i, bits, plane.number + 1);
    }
}
