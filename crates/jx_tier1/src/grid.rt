//! The coefficients of a code-block.

ghost use Rattle.std.specs.Prelude.{◌≡◌, ◌+◌, ◌*◌, ◌<◌, ◌≤◌, length, IfOk, replicate};
ghost use Rattle.jx_tier1_specs.specs.Cells.{Cells, zero_coef, coef_at, with_coef};
ghost use Rattle.jx_tier1_specs.specs.Pass.{changed};
ghost use Rattle.jx_tier1.specs.Noting.{with_more};

use crate::coefs::Coefs;
use jx_base::NoMemory;
use jx_tier1_specs::{Coef, Plane};
use std::alloc::Global;
use std::marker::Model;

/// The coefficients of a code-block.
#[derive(Drop)]
pub struct FlagGrid {
    width: u16,
    height: u16,
    coefs: Coefs,
}

impl Model for FlagGrid {
    ghost use Rattle.std.specs.Prelude.{◌≡◌, ◌*◌, length};
    ghost use Rattle.jx_tier1_specs.specs.Cells.{Cells};

    ghost Value = { Cells };

    ghost view = { λ g. record { width = g.width; height = g.height; coefs = g.coefs } };

    ghost invariant = { λ g. length g.coefs ≡ g.height * g.width };
}

/// Where a place stands in the list of rows.
#[inline(always)]
fn index(width: u16, height: u16, x: u16, y: u16) -> usize
    requires column { x < width }
    requires row { y < height }
    ensures place { result ≡ y * width + x }
    ensures within { result < height * width }
{
    usize::from(y) * usize::from(width) + usize::from(x)
}

impl FlagGrid {
    /// A grid of zeros, of which no plane was decided.
    pub fn new(alloc: Global, width: u16, height: u16) -> Result<FlagGrid, NoMemory>
        ensures { IfOk result (λ g. g ≡ record { width = width; height = height; coefs = replicate (height * width) zero_coef }) }
    {
        let coefs = Coefs::new(alloc, usize::from(height) * usize::from(width))?;
        Ok(FlagGrid {
            width,
            height,
            coefs,
        })
    }

    /// The coefficient in column `x` and row `y`, which are in the grid.
    #[inline(always)]
    pub fn at(&self, x: u16, y: u16) -> Coef
        requires column { x < self.now.width }
        requires row { y < self.now.height }
        ensures { result ≡ coef_at self.now x y }
    {
        let index = index(self.width, self.height, x, y);
        self.coefs.at(index)
    }

    /// What stands in column `x` and row `y`. Where there is no such place, this is whatever the list of
    /// rows has at y·width + x, and zero past its end.
    #[inline(always)]
    pub fn get(&self, x: u16, y: u32) -> Coef
        ensures { result ≡ coef_at self.now x y }
    {
        let index = y as usize * usize::from(self.width) + usize::from(x);
        if index < self.coefs.len() {
            return self.coefs.at(index);
        }
        Coef {
            negative: false,
            bits: 0,
            planes: 0,
        }
    }

    /// Changes the coefficient in column `x` and row `y`, which are in the grid, and no other.
    #[inline(always)]
    pub fn set(&mut self, x: u16, y: u16, coef: Coef)
        requires column { x < self.old.width }
        requires row { y < self.old.height }
        ensures { self.new ≡ with_coef self.old x y coef }
    {
        let index = index(self.width, self.height, x, y);
        self.coefs.set(index, coef);
    }

    /// The same, where there may be no such place: then whatever the list of rows has at y·width + x is
    /// changed, and nothing past its end.
    #[inline(always)]
    pub(crate) fn change(&mut self, x: u16, y: u32, coef: Coef)
        ensures { self.new ≡ with_coef self.old x y coef }
    {
        let index = y as usize * usize::from(self.width) + usize::from(x);
        if index < self.coefs.len() {
            self.coefs.set(index, coef);
        }
    }

    /// Notes a bit of what stands in column `x` and row `y`, as `change` would.
    #[inline(always)]
    pub(crate) fn note(&mut self, x: u16, y: u32, plane: Plane, shift: u8, bit: bool)
        requires shift { shift < 128 }
        requires plane { plane.number < 74 }
        ensures { self.new ≡ changed self.old x y (with_more plane shift bit) }
    {
        let index = y as usize * usize::from(self.width) + usize::from(x);
        if index < self.coefs.len() {
            self.coefs.note(index, plane, shift, bit);
        }
    }

    /// How many columns it has.
    #[inline(always)]
    pub fn width(&self) -> u16
        ensures { result ≡ self.now.width }
    {
        self.width
    }

    /// How many rows it has.
    #[inline(always)]
    pub fn height(&self) -> u16
        ensures { result ≡ self.now.height }
    {
        self.height
    }
}
