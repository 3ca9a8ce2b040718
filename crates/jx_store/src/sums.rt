//! The running sums of a store's sizes, and what a store asks of them.
ghost use Rattle.std.specs.Prelude.{◌≡◌, ◌<◌, ◌≤◌, ◌+◌, IfOk, length};
ghost use Rattle.std.specs.List.{sum};
ghost use Rattle.jx_store.specs.Setup.{load, end_of, is_over};
ghost use Rattle.jx_store.specs.Sums.{sums_from};
ghost use Rattle.jx_base.specs.Limits.{most_blocks, most_bytes};

use jx_base::NoMemory;
use std::alloc::Global;
use std::marker::Model;

/// What a store is made with, each size kept as the sum of all up to it. Contracts see the numbers
/// from the first on with their sizes, and the two windows.
#[derive(Drop)]
pub struct Sums {
    first: u32,
    window: u32,
    most: u32,
    sums: Vec<u32>,
}

impl Model for Sums {
    ghost use Rattle.std.specs.Prelude.{◌≡◌, ◌<◌, ◌≤◌, ◌+◌, length};
    ghost use Rattle.jx_store.specs.Setup.{Setup};
    ghost use Rattle.jx_store.specs.Sums.{items_of, sums_from};
    ghost use Rattle.jx_base.specs.Limits.{most_blocks};

    ghost Value = { Setup };

    ghost view = { λ s. record { first = s.first; sizes = items_of s.sums.items; window = s.window; most = s.most } };

    ghost invariant = { λ s. record {
      some : 0 < length (items_of s.sums.items);
      range : s.first + length (items_of s.sums.items) ≤ most_blocks;
      window : (0 < s.window) × (s.window ≤ 1024);
      sums : s.sums.items ≡ sums_from 0 (items_of s.sums.items);
    } };
}

impl Sums {
    /// The sums of the sizes of the numbers from `first` on. There is at least one size, the numbers
    /// end at 2^22 and the sizes sum to at most 2^32 - 1. `window` is 1 to 1,024, `most` 1 to 2^32 - 1.
    pub fn new(
        alloc: Global,
        first: u32,
        sizes: &[u32],
        window: u32,
        most: u32,
    ) -> Result<Sums, NoMemory>
        requires count { (0 < length sizes.now) × (first + length sizes.now ≤ most_blocks) }
        requires sizes { sum sizes.now ≤ most_bytes }
        requires window { (0 < window) × (window ≤ 1024) }
        requires most { (0 < most) × (most ≤ most_bytes) }
        ensures { IfOk result (λ s. s ≡ record { first = first; sizes = sizes.now; window = window; most = most }) }
    {
        let sums = running_sums(alloc, sizes)?;
        Ok(Sums {
            first,
            window,
            most,
            sums,
        })
    }

    /// The first number.
    pub fn first(&self) -> u32
        ensures { result ≡ self.now.first }
    {
        self.first
    }

    /// The first number after all, at most 2^22.
    pub fn end(&self) -> u32
        ensures is { result ≡ end_of self.now }
        ensures range { (self.now.first < result) × (result ≤ most_blocks) }
    {
        self.first + (self.sums.len() - 1) as u32
    }

    /// How many numbers may stand between claim and sequence, 1 to 1,024.
    pub fn window(&self) -> u32
        ensures is { result ≡ self.now.window }
        ensures range { (0 < result) × (result ≤ 1024) }
    {
        self.window
    }

    /// The sum of the sizes of the numbers `from` to `to - 1`.
    pub fn load(&self, from: u32, to: u32) -> u32
        requires { (self.now.first ≤ from) × (from ≤ to) × (to ≤ end_of self.now) }
        ensures { result ≡ load self.now from to }
    {
        self.sums[(to - self.first) as usize] - self.sums[(from - self.first) as usize]
    }

    /// Whether the sizes of the numbers `drained` to `next` sum to more than `most`.
    pub fn is_over(&self, drained: u32, next: u32) -> bool
        requires { (self.now.first ≤ drained) × (drained ≤ next) × (next < end_of self.now) }
        ensures { result ≡ is_over self.now drained next }
    {
        prove!(next < self.end());
        self.load(drained, next + 1) > self.most
    }
}

// The sums of the first sizes, from none to all.
fn running_sums(alloc: Global, sizes: &[u32]) -> Result<Vec<u32>, NoMemory>
    requires { (sum sizes.now ≤ most_bytes) × (length sizes.now ≤ most_blocks) }
    ensures { IfOk result (λ v. v.items ≡ sums_from 0 sizes.now) }
{
    let mut sums = Vec::with_capacity(alloc, sizes.len() + 1)?;
    let mut total = 0;
    sums.push_reserved(total);
    for size in sizes {
        total += *size;
        sums.push_reserved(total);
    }
    Ok(sums)
}
