//! Context labels by tables, over words (T.800, Tables D.1 to D.3).

ghost use Rattle.std.specs.Prelude.{◌≡◌, ◌+◌, ◌/◌, ◌%◌, ◌<◌, ◌≤◌, ℕ};
ghost use Rattle.jx_tier1_specs.specs.declared.question.Plane.{Plane};
ghost use Rattle.jx_tier1_specs.specs.Cells.{Cells};
ghost use Rattle.jx_tier1_specs.specs.Labels.{sign_row};
ghost use Rattle.jx_tier1_specs.specs.Near.{across_of, down_of};
ghost use Rattle.jx_tier1_specs.specs.Pass.{label_at};
ghost use Rattle.jx_tier1.specs.Contexts.{sign_context, context_entry, HasFirsts};
ghost use Rattle.jx_tier1.specs.Sights.{IsSight, IsBit};

use crate::tables::{DIAGONAL, HIGH, LOW, SIGNS};
use crate::words::{label_index, sign_index};
use jx_base::Band;
use std::marker::Model;

/// The labels of first bits in a band, and the labels of signs.
#[derive(Drop)]
pub(crate) struct Tables {
    band: Band,
    firsts: &'static [u8],
}

impl Model for Tables {
    ghost use Rattle.jx_base.specs.declared.names.Band.{Band};
    ghost use Rattle.jx_tier1.specs.Contexts.{HasFirsts};

    ghost Value = { Band };

    ghost view = { λ t. t.band };

    ghost invariant = { λ t. HasFirsts t.band 512 t.firsts.now };
}

/// The labels of first bits in a band (T.800 table D.1).
fn firsts_of(band: Band) -> &'static [u8]
    ensures { HasFirsts band 512 result.now }
{
    match band {
        Band::LL | Band::LH => &LOW,
        Band::HL => &HIGH,
        Band::HH => &DIAGONAL,
    }
}

/// An entry of the table of signs (T.800 tables D.2 and D.3).
#[inline(always)]
fn sign_entry(n: usize) -> u8
    requires { n < 512 }
    ensures entry { result ≡ context_entry (sign_context n) }
    ensures few { (sign_context n).0 < 19 }
{
    SIGNS[n]
}

impl Tables {
    /// The tables of a band.
    pub fn new(band: Band) -> Tables
        ensures { result ≡ band }
    {
        Tables {
            band,
            firsts: firsts_of(band),
        }
    }

    /// The label of a first bit at a place of a window.
    #[inline(always)]
    pub fn label(&self, window: u64, place: u32) -> u8
        requires { IsBit place }
        ensures label { (k : Plane) → (g : Cells) → (x : ℕ) → (y : ℕ) → (signs : ℕ) → k.band ≡ self.now → IsSight k.causal g x y window signs → y % 4 ≡ 0
            → result ≡ label_at k g (x + place / 6) (y + place % 6) }
        ensures few { result ≤ 8 }
    {
        self.firsts[label_index(window, place)]
    }

    /// The label of a sign there, and whether its decision is turned over.
    #[inline(always)]
    pub fn sign(&self, window: u64, signs: u64, place: u32) -> (u8, bool)
        requires { IsBit place }
        ensures row { (k : Plane) → (g : Cells) → (x : ℕ) → (y : ℕ) → IsSight k.causal g x y window signs → y % 4 ≡ 0
            → result ≡ sign_row (across_of g k.causal (x + place / 6) (y + place % 6)) (down_of g k.causal (x + place / 6) (y + place % 6)) }
        ensures few { result.0 < 19 }
    {
        let _ = &self.band;
        let entry = sign_entry(sign_index(window, signs, place));
        (entry % 32, entry >= 32)
    }
}
