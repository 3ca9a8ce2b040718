//! The index of tile-parts.

ghost use Rattle.std.specs.Prelude.{◌≤◌, length};

use crate::checks::equal;
use crate::hex::bytes_of;
use jx_tier2_writer::{PartLength, index_bytes};
use std::alloc::Global;
use std::test::Fail;

/// Whether the index of these tile-parts has so many bytes, of which these are the first and the last. None for want of memory.
fn is_index(
    alloc: Global,
    lengths: &[PartLength],
    size: usize,
    first: &str,
    last: &str,
) -> Option<bool>
    requires { length lengths.now ≤ 2795776 }
{
    let index = index_bytes(alloc, lengths).ok()?;
    let first = bytes_of(alloc, first)?;
    let last = bytes_of(alloc, last)?;
    Some(index.len() == size && index.starts_with(&first) && index.ends_with(&last))
}

// A segment has room for 10,921 tile-parts.
#[test]
fn one_tile_part(rt: HostRuntime) -> Result<(), Fail> {
    let one = [PartLength {
        tile: 0,
        length: 100,
    }];
    let all = "FF55 000A 00 60 0000 00000064";
    equal(&rt, is_index(rt.alloc(), &one, 12, all, all), Some(true));
    equal(&rt, is_index(rt.alloc(), &[], 0, "", ""), Some(true));
    Ok(())
}

#[test]
fn two_segments(rt: HostRuntime) -> Result<(), Fail> {
    let many = [PartLength {
        tile: 258,
        length: 65_537,
    }; 10_922];
    let first = "FF55 FFFA 00 60 0102 00010001 0102 00010001";
    let last = "0102 00010001 FF55 000A 01 60 0102 00010001";
    equal(
        &rt,
        is_index(rt.alloc(), &many, 65_544, first, last),
        Some(true),
    );
    Ok(())
}
