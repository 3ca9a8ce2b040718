//! The segments of a code-block that weren't begun.

ghost use Rattle.std.specs.Prelude.{◌≡◌, ◌^◌, ◌<◌, length, map, drop};
ghost use Rattle.jx_tier1_specs.specs.Reading.{first_segment};
ghost use Rattle.jx_tier1_specs.specs.Segments.{bytes_of};
ghost use Rattle.jx_tier1_specs.specs.Short.{AreShort};

use std::marker::Model;

/// Segments, each with fewer than 2^32 bytes, of which some were taken.
#[derive(Drop)]
pub struct Rest<'a> {
    segments: &'a [&'a [u8]],
    next: usize,
}

impl<'a> Model for Rest<'a> {
    ghost use Rattle.std.specs.Prelude.{List, ℕ, map, drop};
    ghost use Rattle.jx_tier1_specs.specs.Segments.{bytes_of};
    ghost use Rattle.jx_tier1_specs.specs.Short.{AreShort};

    ghost Value = { List (List ℕ) };

    ghost view = { λ r. map bytes_of (drop r.next r.segments.now) };

    ghost invariant = { λ r. AreShort (map bytes_of (drop r.next r.segments.now)) };
}

impl<'a> Rest<'a> {
    /// All segments.
    pub fn new(segments: &'a [&'a [u8]]) -> Rest<'a>
        requires { AreShort (map bytes_of segments.now) }
        ensures { result ≡ map bytes_of segments.entry.now }
    {
        Rest { segments, next: 0 }
    }

    /// The next segment; one of no bytes where none is left.
    pub fn take(&mut self) -> &'a [u8]
        ensures segment { result.now ≡ first_segment self.old }
        ensures short { length result.now < 2 ^ 32 }
        ensures rest { self.new ≡ drop 1 self.old }
    {
        if self.next < self.segments.len() {
            let segment = self.segments[self.next];
            self.next += 1;
            return segment;
        }
        &[]
    }
}
