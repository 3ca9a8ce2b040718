//! What a coding pass decides at a place of a word (T.800, D.3).

ghost use Rattle.std.specs.Prelude.{◌≡◌, ◌≢◌, ◌+◌, ◌*◌, ◌/◌, ◌%◌, ◌<◌, ◌≤◌, ℕ, Bool, false, IfOk, OnOk};
ghost use Rattle.std.specs.Int.{bit_at};
ghost use Rattle.jx_tier1_specs.specs.declared.question.About.TheVariants.{Bit};
ghost use Rattle.jx_tier1_specs.specs.Cells.{Cells, coef_at};
ghost use Rattle.jx_tier1_specs.specs.Asking.{told};
ghost use Rattle.jx_tier1_specs.specs.Pass.{IsScan, question, label_at, sign_of};
ghost use Rattle.jx_tier1.specs.Sights.{IsSight, IsBit, IsPlaceIn, EndsIn};

use crate::contexts::Tables;
use crate::questions::asked;
use crate::words::{raised, signed};
use jx_base::NoMemory;
use jx_tier1_specs::{About, Plane, Source};

/// A word as a pass goes through it: the windows of what is significant and, one bit higher, of signs.
#[derive(Clone, Copy)]
pub(crate) struct Sight {
    pub window: u64,
    pub signs: u64,
}

/// Where a word stands: the column of its first place, and its first row.
#[derive(Clone, Copy)]
pub(crate) struct Corner {
    pub x: u16,
    pub y: u16,
}

impl Corner {
    /// The column of a place.
    #[inline(always)]
    pub fn column(self, place: u32) -> u16
        requires few { self.x < 1024 }
        requires place { place < 64 }
        ensures { result ≡ self.x + place / 6 }
    {
        self.x + (place / 6) as u16
    }

    /// Its row.
    #[inline(always)]
    pub fn row(self, place: u32) -> u16
        requires few { self.y < 1024 }
        ensures { result ≡ self.y + place % 6 }
    {
        self.y + (place % 6) as u16
    }
}

/// Asks for the bit of an insignificant coefficient (T.800 D.3.1).
#[inline(always)]
pub(crate) fn decide_bit<S: Source>(
    source: &mut S,
    tables: &Tables,
    plane: Plane,
    corner: Corner,
    sight: Sight,
    place: u32,
) -> Result<bool, NoMemory>
    requires scan { IsScan plane }
    requires band { tables.now ≡ plane.band }
    requires place { IsBit place }
    requires wide { corner.x < 1024 }
    requires high { corner.y < 1024 }
    requires first { corner.y % 4 ≡ 0 }
    ensures answer { (g : Cells) → IsSight plane.causal g corner.x corner.y sight.window sight.signs
        → IfOk result (λ bit. bit ≡ (S.ask source.old (question plane (label_at plane g (corner.x + place / 6) (corner.y + place % 6)) false (Bit (corner.x + place / 6) (corner.y + place % 6)))).0) }
    ensures after { (g : Cells) → IsSight plane.causal g corner.x corner.y sight.window sight.signs
        → OnOk result (source.new ≡ (S.ask source.old (question plane (label_at plane g (corner.x + place / 6) (corner.y + place % 6)) false (Bit (corner.x + place / 6) (corner.y + place % 6)))).1) }
{
    let label = tables.label(sight.window, place);
    let about = About::Bit(corner.column(place), corner.row(place));
    source.ask(asked(plane, label, false, about))
}

/// Asks for the sign of a coefficient that becomes significant (T.800 D.3.2).
#[inline(always)]
pub(crate) fn decide_sign<S: Source>(
    source: &mut S,
    tables: &Tables,
    plane: Plane,
    corner: Corner,
    sight: Sight,
    place: u32,
) -> Result<Sight, NoMemory>
    requires scan { IsScan plane }
    requires band { tables.now ≡ plane.band }
    requires place { IsBit place }
    requires wide { corner.x < 1024 }
    requires high { corner.y < 1024 }
    requires first { corner.y % 4 ≡ 0 }
    ensures walk { (g : Cells) → IsSight plane.causal g corner.x corner.y sight.window sight.signs
        → IsPlaceIn g (corner.x + place / 6) (corner.y + place % 6) → (coef_at g (corner.x + place / 6) (corner.y + place % 6)).negative ≡ false
        → IfOk result (λ after. EndsIn plane.causal corner.x corner.y (told S.ask (sign_of plane g (corner.x + place / 6) (corner.y + place % 6)) source.old) after.window after.signs source.new) }
    ensures there { IfOk result (λ after. bit_at after.window (place + 7) ≡ 1) }
    ensures others { IfOk result (λ after. (i : ℕ) → i ≢ place + 7 → bit_at after.window i ≡ bit_at sight.window i) }
{
    let (label, turned) = tables.sign(sight.window, sight.signs, place);
    let about = About::Sign(corner.column(place), corner.row(place));
    let negative = source.ask(asked(plane, label, turned, about))?;
    Ok(Sight {
        window: raised(sight.window, place),
        signs: signed(sight.signs, place, negative),
    })
}
