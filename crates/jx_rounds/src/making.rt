//! A plan that is carried out.

ghost use Rattle.std.specs.Prelude.{◌≡◌, ◌≤◌, ◌<◌, ◌+◌, drop, length, take};
ghost use Rattle.jx_workers.specs.Tapes.{AreAsked};
ghost use Rattle.jx_codestream.specs.First.{tile_number};
ghost use Rattle.jx_codestream.specs.Shapes.{tile_at};
ghost use Rattle.jx_plan.specs.Plan.{IsPlan, headers_of};
ghost use Rattle.jx_tier2_writer.specs.Tile.{blocks_in};

use jx_codeblock::Job;
use jx_codestream::{MainView, Tile};
use jx_plan::OutStream;
use std::marker::Model;

/// A plan, with the view of the main header that is written.
#[derive(Drop)]
pub struct Making<'a, 'p> {
    plan: &'a OutStream<'p>,
    written: &'a MainView<'a>,
}

impl<'a, 'p> Model for Making<'a, 'p> {
    ghost use Rattle.std.specs.Prelude.{◌≡◌};
    ghost use Rattle.jx_plan.specs.Plan.{Plan, headers_of};

    ghost Value = { Plan };

    ghost view = { λ m. m.plan.now };

    ghost invariant = { λ m. m.written.now ≡ record {
      siz = (headers_of m.plan.now).siz;
      main =
          (headers_of m.plan.now).main;
    } };
}

impl<'a, 'p> Making<'a, 'p> {
    pub fn new(plan: &'a OutStream<'p>, written: &'a MainView<'a>) -> Making<'a, 'p>
        requires written { written.now ≡ record { siz = (headers_of plan.now).siz; main = (headers_of plan.now).main } }
        ensures { result ≡ plan.entry.now }
    {
        Making { plan, written }
    }

    pub fn plan(&self) -> &'a OutStream<'p>
        ensures value { result.now ≡ self.now }
        ensures plan { IsPlan self.now }
    {
        // For what is known of its value.
        let _ = self.plan.jobs();
        self.plan
    }

    /// The main header that is written.
    pub fn written(&self) -> &'a MainView<'a>
        ensures { result.now ≡ record { siz = (headers_of self.now).siz; main = (headers_of self.now).main } }
    {
        self.written
    }

    /// What is asked of each code-block, by its number.
    pub fn jobs(&self) -> &'a [Job<'a>]
        ensures value { result.now ≡ self.now.jobs }
        ensures plan { IsPlan self.now }
    {
        self.plan.jobs()
    }

    /// What is asked of so many code-blocks from one on.
    pub fn jobs_from(&self, first: u32, count: u32) -> &'a [Job<'a>]
        requires { first + count ≤ length self.now.jobs }
        ensures value { result.now ≡ take count (drop first self.now.jobs) }
        ensures asked { AreAsked first result.now }
        ensures count { length result.now ≡ count }
        ensures plan { IsPlan self.now }
    {
        let from = first as usize;
        &self.jobs()[from..from + count as usize]
    }

    /// How many tiles the picture has, at most 65,535.
    pub fn tile_count(&self) -> u16
        ensures count { result ≡ tile_number self.now.stream.siz }
        ensures plan { IsPlan self.now }
    {
        let _ = self.plan.jobs();
        self.plan.stream().tile_count()
    }

    /// A tile as it was read.
    pub fn tile(&self, tile: u16) -> &'a Tile
        requires { tile < tile_number self.now.stream.siz }
        ensures { result.now ≡ tile_at self.now.stream tile }
    {
        let _ = self.plan.jobs();
        self.plan.stream().tile(tile)
    }

    /// How many code-blocks a tile has.
    pub fn blocks_in(&self, tile: u16) -> u32
        requires { tile < tile_number self.now.stream.siz }
        ensures { result ≡ blocks_in self.now tile }
    {
        let (first, end) = self.plan.tile_jobs(tile);
        end - first
    }
}
