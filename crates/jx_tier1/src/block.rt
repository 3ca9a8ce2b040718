//! What coding passes look at of a code-block, in words of eight columns of a stripe.

ghost use Rattle.std.specs.Prelude.{◌≡◌, ◌+◌, ◌-◌, ◌*◌, ◌/◌, ◌<◌, ◌≤◌, ℕ, length, slice_index_or, slice_set, if◌then◌else◌, IfOk};
ghost use Rattle.std.specs.Int.{bit_at};
ghost use Rattle.jx_tier1.specs.Blocks.{BlockWords, HasLists, AreWords, Draws, Sees, seen_if, bit_in, wide_for, count_for, blank, place_in};
ghost use Rattle.jx_tier1.specs.Places.{IsWord, AreColumns};

use crate::words::{columns, window};
use jx_base::NoMemory;
use std::alloc::Global;
use std::marker::Model;

/// What coding passes look at of a code-block, as four lists of words: what is significant, what of
/// it is negative, what the plane's significance pass decided, and what was refined. Around the block
/// stand words of 0: a stripe above and below, and a word to each side of a stripe.
#[derive(Drop)]
pub(crate) struct BlockState {
    width: u16,
    height: u16,
    significant: Vec<u64>,
    negative: Vec<u64>,
    visited: Vec<u64>,
    refined: Vec<u64>,
}

impl Model for BlockState {
    ghost use Rattle.std.specs.Prelude.{◌≡◌, length};
    ghost use Rattle.jx_tier1.specs.Blocks.{BlockWords, AreWords, count_for};

    ghost Value = { BlockWords };

    ghost view = { λ b. record {
      width = b.width;
      height = b.height;
      significant = b.significant.items;
      negative = b.negative.items;
      visited = b.visited.items;
      refined = b.refined.items;
    } };

    ghost invariant = { λ b. (length b.significant.items ≡ count_for b.width b.height) × (length b.negative.items ≡ count_for b.width b.height)
        × (length b.visited.items ≡ count_for b.width b.height) × (length b.refined.items ≡ count_for b.width b.height)
        × AreWords b.significant.items × AreWords b.negative.items };
}

/// A word of a list.
#[inline(always)]
fn word_at(words: &[u64], index: usize) -> u64
    requires { index < length words.now }
    ensures { result ≡ slice_index_or words.now index 0 }
{
    words[index]
}

/// The word below another one, of which nothing is seen with causal contexts (T.800 D.7).
#[inline(always)]
fn below_at(words: &[u64], index: usize, causal: bool) -> u64
    requires { index < length words.now }
    ensures { result ≡ (if causal then 0 else slice_index_or words.now index 0) }
{
    if causal {
        return 0;
    }
    words[index]
}

/// The columns of a word in its window, by where it stands.
#[inline(always)]
fn columns_at(words: &[u64], at: usize, wide: usize, causal: bool) -> u64
    requires words { AreWords words.now }
    requires above { wide ≤ at }
    requires below { at + wide < length words.now }
    ensures { AreColumns (slice_index_or words.now at 0) (slice_index_or words.now (at - wide) 0) (if causal then 0 else slice_index_or words.now (at + wide) 0) result }
{
    let own = word_at(words, at);
    let above = word_at(words, at - wide);
    let below = below_at(words, at + wide, causal);
    columns(own, above, below)
}

/// The window of a word, by where it stands.
#[inline(always)]
fn window_at(words: &[u64], at: usize, wide: usize, causal: bool) -> u64
    requires words { AreWords words.now }
    requires above { wide + 1 ≤ at }
    requires below { at + wide + 1 < length words.now }
    ensures { (s : ℕ) → (t : ℕ) → at ≡ place_in wide s t → (column : ℕ) → (row : ℕ) → column < 10 → row < 6
        → bit_at result (6 * column + row) ≡ seen_if causal row (bit_in wide words.now (8 * t + column) (4 * s + row)) }
{
    let left = columns_at(words, at - 1, wide, causal);
    let own = columns_at(words, at, wide, causal);
    let right = columns_at(words, at + 1, wide, causal);
    window(left, own, right)
}

impl BlockState {
    /// A block of which nothing was decided.
    pub fn new(alloc: Global, width: u16, height: u16) -> Result<BlockState, NoMemory>
        ensures { IfOk result (λ b. b ≡ blank width height) }
    {
        let count = ((usize::from(height) + 3) / 4 + 2) * ((usize::from(width) + 7) / 8 + 2);
        Ok(BlockState {
            width,
            height,
            significant: vec![in alloc; 0u64; count]?,
            negative: vec![in alloc; 0u64; count]?,
            visited: vec![in alloc; 0u64; count]?,
            refined: vec![in alloc; 0u64; count]?,
        })
    }

    /// How many columns the block has.
    #[inline(always)]
    pub fn width(&self) -> u16
        ensures { result ≡ self.now.width }
    {
        self.width
    }

    /// How many rows it has.
    #[inline(always)]
    pub fn height(&self) -> u16
        ensures { result ≡ self.now.height }
    {
        self.height
    }

    /// How many stripes it has.
    #[inline(always)]
    pub fn stripes(&self) -> u16
        ensures { result ≡ (self.now.height + 3) / 4 }
    {
        ((u32::from(self.height) + 3) / 4) as u16
    }

    /// How many words a stripe has.
    #[inline(always)]
    pub fn groups(&self) -> u16
        ensures { result ≡ (self.now.width + 7) / 8 }
    {
        ((u32::from(self.width) + 7) / 8) as u16
    }

    /// How many words a stripe has, with one to each side of it.
    #[inline(always)]
    pub fn wide(&self) -> usize
        ensures { result ≡ wide_for self.now.width }
    {
        (usize::from(self.width) + 7) / 8 + 2
    }

    /// Where a word stands, its stripe and its group counted from 0.
    #[inline(always)]
    pub fn spot(&self, stripe: u16, group: u16) -> usize
        requires stripe { stripe < (self.now.height + 3) / 4 }
        requires group { group < (self.now.width + 7) / 8 }
        requires wide { self.now.width ≤ 1024 }
        requires high { self.now.height ≤ 1024 }
        ensures at { result ≡ place_in (wide_for self.now.width) stripe group }
        ensures above { wide_for self.now.width + 1 ≤ result }
        ensures below { result + wide_for self.now.width + 1 < count_for self.now.width self.now.height }
        ensures lists { HasLists self.now }
    {
        let _ = &self.width;
        (usize::from(stripe) + 1) * self.wide() + usize::from(group) + 1
    }

    /// The window of a word's significant places.
    #[inline(always)]
    pub fn window(&self, at: usize, causal: bool) -> u64
        requires above { wide_for self.now.width + 1 ≤ at }
        requires below { at + wide_for self.now.width + 1 < count_for self.now.width self.now.height }
        ensures { (F : ℕ → ℕ → ℕ) → (s : ℕ) → (t : ℕ) → at ≡ place_in (wide_for self.now.width) s t → t + 2 < wide_for self.now.width
            → Draws (wide_for self.now.width) F self.now.significant → Sees causal F (8 * t) (4 * s) result }
    {
        window_at(&self.significant, at, self.wide(), causal)
    }

    /// The window of its signs, each place one bit higher.
    #[inline(always)]
    pub fn signs(&self, at: usize, causal: bool) -> u64
        requires above { wide_for self.now.width + 1 ≤ at }
        requires below { at + wide_for self.now.width + 1 < count_for self.now.width self.now.height }
        ensures { (F : ℕ → ℕ → ℕ) → (s : ℕ) → (t : ℕ) → at ≡ place_in (wide_for self.now.width) s t → t + 2 < wide_for self.now.width
            → Draws (wide_for self.now.width) F self.now.negative → Sees causal F (8 * t) (4 * s) (result / 2) }
    {
        window_at(&self.negative, at, self.wide(), causal) << 1
    }

    /// What is significant in a word.
    #[inline(always)]
    pub fn significant(&self, at: usize) -> u64
        requires { at < count_for self.now.width self.now.height }
        ensures value { result ≡ slice_index_or self.now.significant at 0 }
        ensures word { IsWord result }
    {
        word_at(&self.significant, at)
    }

    /// What the plane's significance pass decided of it.
    #[inline(always)]
    pub fn visited(&self, at: usize) -> u64
        requires { at < count_for self.now.width self.now.height }
        ensures { result ≡ slice_index_or self.now.visited at 0 }
    {
        word_at(&self.visited, at)
    }

    /// What was refined of it.
    #[inline(always)]
    pub fn refined(&self, at: usize) -> u64
        requires { at < count_for self.now.width self.now.height }
        ensures { result ≡ slice_index_or self.now.refined at 0 }
    {
        word_at(&self.refined, at)
    }

    /// Changes what is significant and what is negative in a word.
    #[inline(always)]
    pub fn put(&mut self, at: usize, significant: u64, negative: u64)
        requires at { at < count_for self.old.width self.old.height }
        requires significant { IsWord significant }
        requires negative { IsWord negative }
        ensures { self.new ≡ record self.old {
          significant = slice_set self.old.significant at significant;
          negative = slice_set self.old.negative at negative;
        } }
    {
        self.significant[at] = significant;
        self.negative[at] = negative;
    }

    /// Changes what was visited of it.
    #[inline(always)]
    pub fn visit(&mut self, at: usize, places: u64)
        requires { at < count_for self.old.width self.old.height }
        ensures { self.new ≡ record self.old { visited = slice_set self.old.visited at places } }
    {
        self.visited[at] = places;
    }

    /// Changes what was refined of it.
    #[inline(always)]
    pub fn refine(&mut self, at: usize, places: u64)
        requires { at < count_for self.old.width self.old.height }
        ensures { self.new ≡ record self.old { refined = slice_set self.old.refined at places } }
    {
        self.refined[at] = places;
    }
}
