//! Whether so many resolutions can be left out (ITU-T T.800, Tables A.9 and A.15).

ghost use Rattle.std.specs.Prelude.{◌≡◌, ◌≤◌, ◌*◌, ◌^◌, length, nat_lt, IfErr, None, OnOk, Some};
ghost use Rattle.std.specs.List.{list_any, position};
ghost use Rattle.jx_reduce.specs.Unreducible.{first_choice, first_fewer, first_passing, has_fewer, passes_byte, tile_has_fewer};

use crate::ReduceFault;
use jx_codestream::{Stream, Tile};
use jx_marker::{CompSize, Segment};

/// How many times a subsampling factor grows.
pub(crate) fn times(d: u8) -> u64
    requires { d ≤ 32 }
    ensures value { result ≡ 2 ^ d }
    ensures bound { result ≤ 4294967296 }
{
    1u64 << d
}

/// A factor of a component would pass 255.
fn passes_byte(size: &CompSize, d: u8) -> bool
    requires { d ≤ 32 }
    ensures { result ≡ passes_byte d size.now }
{
    let times = times(d);
    u64::from(size.dx) * times > 255 || u64::from(size.dy) * times > 255
}

/// The lowest component of which a factor would pass 255.
fn first_passing(sizes: &[CompSize], d: u8) -> Option<u32>
    requires some { d ≤ 32 }
    requires few { length sizes.now ≤ 16384 }
    ensures { result ≡ first_passing d sizes.now }
{
    for comp in 0..sizes.len() {
        if passes_byte(&sizes[comp], d) {
            return Some(comp as u32);
        }
    }
    None
}

/// A COD or a COC that has fewer levels.
fn has_fewer(segment: &Segment, d: u8) -> bool
    ensures { result ≡ has_fewer d segment.now }
{
    match segment {
        Segment::Cod(cod) => cod.shape.levels < d,
        Segment::Coc { comp: _, shape } => shape.levels < d,
        _ => false,
    }
}

fn header_has_fewer(header: &[Segment], d: u8) -> bool
    ensures { result ≡ list_any (has_fewer d) header.now }
{
    for segment in header {
        if has_fewer(segment, d) {
            return true;
        }
    }
    false
}

fn tile_has_fewer(tile: &Tile, d: u8) -> bool
    ensures { result ≡ tile_has_fewer d tile.now }
{
    header_has_fewer(tile.header.as_slice(), d)
}

/// The lowest tile of which a header has a COD or a COC with fewer levels.
fn fewer_tile(tiles: &[Tile], d: u8) -> Option<u32>
    requires { length tiles.now ≤ 65535 }
    ensures { result ≡ position (tile_has_fewer d) tiles.now }
{
    for tile in 0..tiles.len() {
        if tile_has_fewer(&tiles[tile], d) {
            return Some(tile as u32);
        }
    }
    None
}

/// Where a COD or a COC has fewer levels.
fn first_fewer(stream: &Stream, d: u8) -> Option<u32>
    requires { length stream.now.tiles ≤ 65535 }
    ensures { result ≡ first_fewer d stream.now }
{
    if header_has_fewer(stream.main.as_slice(), d) {
        return Some(0);
    }
    fewer_tile(stream.tiles.as_slice(), d)
}

/// The first choice that is in the way of leaving out `d` resolutions.
///
/// # Errors
///
/// Choice 8 at the lowest component of which a factor would pass 255; else choice 9 at 0 where a COD or a COC of the main header has
/// fewer than `d` levels, else at the lowest tile of which one has. It takes no memory.
pub(crate) fn check(stream: &Stream, d: u8) -> Result<(), ReduceFault>
    requires some { d ≤ 32 }
    requires few { length stream.now.siz.comps ≤ 16384 }
    requires tiles { length stream.now.tiles ≤ 65535 }
    ensures ok { OnOk result (first_choice d stream.now ≡ None) }
    ensures err { IfErr result (λ e. first_choice d stream.now ≡ Some e) }
{
    if let Some(place) = first_passing(stream.siz.comps.as_slice(), d) {
        return Err(ReduceFault::Choice { number: 8, place });
    }
    match first_fewer(stream, d) {
        Some(place) => Err(ReduceFault::Choice { number: 9, place }),
        None => Ok(()),
    }
}
