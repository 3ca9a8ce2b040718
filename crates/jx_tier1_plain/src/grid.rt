//! The coefficients of a code-block.

ghost use Rattle.std.specs.Prelude.{◌≡◌, ◌+◌, ◌*◌, ◌<◌, ◌≤◌, length, IfOk, replicate};
ghost use Rattle.jx_tier1_specs.specs.Cells.{Cells, zero_coef, coef_at, with_coef};

use jx_base::NoMemory;
use jx_tier1_specs::Coef;
use std::alloc::Global;
use std::marker::Model;

/// The coefficients of a code-block.
#[derive(Drop)]
pub struct Grid {
    width: u16,
    height: u16,
    coefs: Vec<Coef>,
}

impl Model for Grid {
    ghost use Rattle.std.specs.Prelude.{◌≡◌, ◌<◌, ◌*◌, length};
    ghost use Rattle.jx_tier1_specs.specs.Cells.{Cells};

    ghost Value = { Cells };

    ghost view = { λ g. record { width = g.width; height = g.height; coefs = g.coefs.items } };

    ghost invariant = { λ g. length g.coefs.items ≡ g.height * g.width };
}

/// Where a place stands in the list of rows.
fn index(width: u16, height: u16, x: u16, y: u16) -> usize
    requires column { x < width }
    requires row { y < height }
    ensures place { result ≡ y * width + x }
    ensures within { result < height * width }
{
    usize::from(y) * usize::from(width) + usize::from(x)
}

impl Grid {
    /// A grid of zeros, of which no plane was decided.
    pub fn new(alloc: Global, width: u16, height: u16) -> Result<Grid, NoMemory>
        ensures { IfOk result (λ g. g ≡ record { width = width; height = height; coefs = replicate (height * width) zero_coef }) }
    {
        let zero = Coef {
            negative: false,
            bits: 0,
            planes: 0,
        };
        let coefs = vec![in alloc; zero; usize::from(height) * usize::from(width)]?;
        Ok(Grid {
            width,
            height,
            coefs,
        })
    }

    /// The coefficient in column `x` and row `y`, which are in the grid.
    pub fn at(&self, x: u16, y: u16) -> Coef
        requires column { x < self.now.width }
        requires row { y < self.now.height }
        ensures { result ≡ coef_at self.now x y }
    {
        let index = index(self.width, self.height, x, y);
        self.coefs[index]
    }

    /// What stands in column `x` and row `y`. Where there is no such place, this is whatever the list of
    /// rows has at y·width + x, and zero past its end.
    pub fn get(&self, x: u16, y: u32) -> Coef
        ensures { result ≡ coef_at self.now x y }
    {
        let index = y as usize * usize::from(self.width) + usize::from(x);
        if index < self.coefs.len() {
            return self.coefs[index];
        }
        Coef {
            negative: false,
            bits: 0,
            planes: 0,
        }
    }

    /// Changes the coefficient in column `x` and row `y`, which are in the grid, and no other.
    pub fn set(&mut self, x: u16, y: u16, coef: Coef)
        requires column { x < self.old.width }
        requires row { y < self.old.height }
        ensures { self.new ≡ with_coef self.old x y coef }
    {
        let index = index(self.width, self.height, x, y);
        self.coefs[index] = coef;
    }

    /// How many columns it has.
    pub fn width(&self) -> u16
        ensures { result ≡ self.now.width }
    {
        self.width
    }

    /// How many rows it has.
    pub fn height(&self) -> u16
        ensures { result ≡ self.now.height }
    {
        self.height
    }
}
