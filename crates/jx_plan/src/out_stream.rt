//! A planned codestream.

ghost use Rattle.std.specs.Prelude.{◌≡◌, ◌<◌, ◌≤◌, ◌+◌, ℕ, true, false, length};
ghost use Rattle.jx_geom.specs.Counts.{tile_blocks};
ghost use Rattle.jx_geom.specs.Numbering.{blocks_below};
ghost use Rattle.jx_geom.specs.Rects.{tile_rect};
ghost use Rattle.jx_codestream.specs.First.{canvas_of, tile_number};
ghost use Rattle.jx_codestream.specs.Shapes.{shapes_of};
ghost use Rattle.jx_plan.specs.Plan.{IsPlan, headers_of};
ghost use Rattle.jx_plan.specs.TileJobs.{AreJobsBelow, AreTileJobs};
ghost use Rattle.jx_base.specs.Limits.{most_blocks};

use jx_base::Block;
use jx_codeblock::Job;
use jx_codestream::Stream;
use jx_options::{Marks, Options};
use std::marker::Model;

/// What is planned of a codestream: the headers that are written, and what is asked of each code-block.
#[derive(Drop)]
pub struct OutStream<'a> {
    pub(crate) stream: &'a Stream,
    pub(crate) blocks: &'a [Block<'a>],
    pub(crate) options: &'a Options,
    pub(crate) layers: u16,
    pub(crate) written: Stream,
    pub(crate) jobs: Vec<Job<'a>>,
}

impl<'a> Model for OutStream<'a> {
    ghost use Rattle.std.specs.Prelude.{◌≡◌};
    ghost use Rattle.jx_plan.specs.Plan.{IsPlan, Plan, headers_with};

    ghost Value = { Plan };

    ghost view = { λ p. record { stream = p.stream.now; blocks = p.blocks.now; wanted = p.options.now; layers = p.layers; jobs = p.jobs.items } };

    ghost invariant = { λ p. IsPlan (record { stream = p.stream.now; blocks = p.blocks.now; wanted = p.options.now; layers = p.layers; jobs = p.jobs.items })
        × (p.written ≡ headers_with p.options.now p.layers p.stream.now) };
}

/// Whether the job of a number is of a tile below one; then the jobs of these tiles are more than its number, where they stand
/// before all others.
#[tactic(auto, using(crate::proofs::TileJobLemmas::not_behind, crate::proofs::TileJobLemmas::not_before))]
fn is_below(jobs: &[Job<'_>], number: usize, tile: u32) -> bool
    requires { number < length jobs.now }
    ensures below { result ≡ true → (count : ℕ) → AreJobsBelow jobs.now tile count → number < count }
    ensures past { result ≡ false → (count : ℕ) → AreJobsBelow jobs.now tile count → count ≤ number }
{
    u32::from(jobs[number].block.name.tile) < tile
}

/// How many jobs are of tiles below one, where they stand before all others.
fn jobs_below(jobs: &[Job<'_>], tile: u32) -> usize
    ensures { (count : ℕ) → AreJobsBelow jobs.now tile count → result ≡ count }
{
    let mut low = 0;
    let mut high = jobs.len();
    while low < high {
        let middle = low + (high - low) / 2;
        if is_below(jobs, middle, tile) {
            low = middle + 1;
        } else {
            high = middle;
        }
    }
    low
}

impl<'a> OutStream<'a> {
    /// The stream that was read.
    pub fn stream(&self) -> &'a Stream
        ensures { result.now ≡ self.now.stream }
    {
        self.stream
    }

    /// Its code-blocks, by their numbers.
    pub fn blocks(&self) -> &'a [Block<'a>]
        ensures { result.now ≡ self.now.blocks }
    {
        self.blocks
    }

    /// How it is to be written.
    pub fn options(&self) -> &'a Options
        ensures { result.now ≡ self.now.wanted }
    {
        self.options
    }

    /// What stands in its tile-parts beside headers and code-blocks, and where they begin.
    pub fn marks(&self) -> Marks
        ensures { result ≡ self.now.wanted.marks }
    {
        let options = self.options;
        options.marks
    }

    /// The number of layers of each tile, 1 to 65,535.
    pub fn layers(&self) -> u16
        ensures { result ≡ self.now.layers }
    {
        self.layers
    }

    /// The headers that are written, as a stream without tile data.
    pub fn headers(&self) -> &Stream
        ensures value { result.now ≡ headers_of self.now }
        ensures plan { IsPlan self.now }
    {
        &self.written
    }

    /// What is asked of each code-block, by its number.
    pub fn jobs(&self) -> &[Job<'a>]
        ensures value { result.now ≡ self.now.jobs }
        ensures plan { IsPlan self.now }
    {
        &self.jobs
    }

    /// How many jobs are of tiles below one, or of all tiles.
    fn jobs_before(&self, tile: u32) -> u32
        requires { tile ≤ tile_number self.now.stream.siz }
        ensures count { result ≡ blocks_below (canvas_of self.now.stream.siz) (shapes_of self.now.stream) tile }
        ensures below { AreJobsBelow self.now.jobs tile result }
        ensures few { result ≤ most_blocks }
        ensures plan { IsPlan self.now }
    {
        jobs_below(self.jobs(), tile) as u32
    }

    /// The number of a tile's first job, and the number after its last; the two are equal where it has none. The time grows with
    /// the binary digits of the number of all jobs.
    pub fn tile_jobs(&self, tile: u16) -> (u32, u32)
        requires tile { tile < tile_number self.now.stream.siz }
        ensures own { AreTileJobs self.now.jobs tile result.0 result.1 }
        ensures first { result.0 ≡ blocks_below (canvas_of self.now.stream.siz) (shapes_of self.now.stream) tile }
        ensures count { result.1 ≡ result.0 + tile_blocks (tile_rect (canvas_of self.now.stream.siz) tile) (shapes_of self.now.stream tile) }
        ensures few { result.1 ≤ most_blocks }
        ensures plan { IsPlan self.now }
    {
        let tile = u32::from(tile);
        (self.jobs_before(tile), self.jobs_before(tile + 1))
    }
}
