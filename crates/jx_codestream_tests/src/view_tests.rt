//! Parameters by precedence, as a tile's view gives them.

ghost use Rattle.std.specs.Prelude.{◌<◌};
ghost use Rattle.jx_codestream.specs.InRange.{StreamInRange};
ghost use Rattle.jx_codestream.specs.First.{tile_number};

use crate::checks::{check, equal_at};
use crate::stream_tests::{DEFAULTS, stream_of};
use jx_base::Band;
use jx_codestream::{Stream, TileView};
use std::alloc::Global;
use std::process::Abort;
use std::test::Fail;

// What a view says of the first band of a component: style, order, layers, shift, planes, exponent.
fn first_band(view: &TileView) -> (u8, u8, u16, u8, u32, u8) {
    let params = view.params(0);
    (
        view.style(0).bits,
        params.order,
        view.layers(),
        params.shift,
        view.planes(0, 0, Band::LL),
        view.step(0, 0, Band::LL).0,
    )
}

// The view of a tile says this of its first band.
fn view_is(
    rt: &impl Abort,
    alloc: Global,
    stream: &Stream,
    tile: u16,
    want: (u8, u8, u16, u8, u32, u8),
) -> Result<(), Fail>
    requires range { StreamInRange stream.now }
    requires tile { tile < tile_number stream.now.siz }
{
    let main = stream.main_view(alloc)?;
    let view = stream.tile_view(alloc, &main, tile)?;
    equal_at(rt, &tile, first_band(&view), want);
    let sizes = (view.comps(), view.canvas().x1, view.shapes().len());
    equal_at(rt, &tile, sizes, (1, 2, 1));
    Ok(())
}

#[test]
fn views_of_tiles(rt: HostRuntime) -> Result<(), Fail> {
    let stream = stream_of(rt.alloc(), &DEFAULTS)?;
    let two = stream.tiles.as_slice().len() == 2;
    check(&rt, two);
    view_is(&rt, rt.alloc(), &stream, 0, (1, 0, 1, 0, 11, 10))?;
    view_is(&rt, rt.alloc(), &stream, 1, (2, 3, 9, 0, 10, 9))
}
