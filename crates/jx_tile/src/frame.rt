//! A tile with its headers and its geometry, made once (ITU-T T.800, A.6 and B.3).

ghost use Rattle.std.specs.Prelude.{◌≡◌, ◌<◌, None, length, IfOk};
ghost use Rattle.jx_codestream.specs.First.{tile_number};
ghost use Rattle.jx_codestream.specs.InRange.{StreamInRange};
ghost use Rattle.jx_codestream.specs.Params.{headers_at};
ghost use Rattle.jx_codestream.specs.Shapes.{geometry, tile_at};
ghost use Rattle.jx_tile.specs.Frame.{AreOfTile};
ghost use Rattle.jx_tile.specs.Totals.{totals_fault};

use jx_base::NoMemory;
use jx_codestream::{MainView, Stream, Tile, TileView};
use jx_geom::TileGeom;
use std::alloc::Global;
use std::marker::Model;

/// One tile of a stream within limits 5 and 6, with its headers and its geometry. It is made once for all that is asked of the tile,
/// and let go before the next one is made: together the tiles of a small file may have more geometry than memory.
#[derive(Drop)]
pub struct TileFrame<'a> {
    stream: &'a Stream,
    headers: TileView<'a>,
    geom: TileGeom,
}

impl<'a> Model for TileFrame<'a> {
    ghost use Rattle.jx_tile.specs.Frame.{AreOfTile, TileOf};

    ghost Value = { TileOf };

    ghost view = { λ f. record { stream = f.stream.now; number = f.geom.tile } };

    ghost invariant = { λ f. AreOfTile f.stream.now f.headers f.geom };
}

/// The geometry of a tile.
fn geometry_of(
    alloc: Global,
    stream: &Stream,
    view: &TileView<'_>,
    tile: u16,
) -> Result<TileGeom, NoMemory>
    requires view { view.now ≡ headers_at stream.now tile }
    requires range { StreamInRange stream.now }
    requires tile { tile < tile_number stream.now.siz }
    requires totals { totals_fault stream.now ≡ None }
    ensures { IfOk result (λ geom. geom ≡ geometry stream.now tile) }
{
    let shapes = view.shared_shapes().share()?;
    TileGeom::sharing(alloc, &view.canvas(), tile, shapes)
}

impl<'a> TileFrame<'a> {
    /// The tile of a number, with the view of the main header.
    ///
    /// # Errors
    ///
    /// `NoMemory` where memory is refused.
    pub fn new(
        alloc: Global,
        stream: &'a Stream,
        main: &'a MainView<'a>,
        tile: u16,
    ) -> Result<TileFrame<'a>, NoMemory>
        requires main { main.now ≡ record { siz = stream.now.siz; main = stream.now.main } }
        requires range { StreamInRange stream.now }
        requires totals { totals_fault stream.now ≡ None }
        requires tile { tile < tile_number stream.now.siz }
        ensures { IfOk result (λ frame. frame ≡ record { stream = stream.entry.now; number = tile }) }
    {
        let headers = stream.tile_view(alloc, main, tile)?;
        let geom = geometry_of(alloc, stream, &headers, tile)?;
        Ok(TileFrame {
            stream,
            headers,
            geom,
        })
    }

    /// The stream, what its headers say of the tile, and the tile's geometry.
    pub fn parts(&self) -> (&Stream, &TileView<'a>, &TileGeom)
        ensures stream { result.0.now ≡ self.now.stream }
        ensures view { result.1.now ≡ headers_at self.now.stream self.now.number }
        ensures geometry { result.2.now ≡ geometry self.now.stream self.now.number }
        ensures tile { AreOfTile result.0.now result.1.now result.2.now }
    {
        (self.stream, &self.headers, &self.geom)
    }

    /// The tile as its tile-parts were read.
    pub fn tile(&self) -> &Tile
        ensures { result.now ≡ tile_at self.now.stream self.now.number }
    {
        self.stream.tile(self.geom.number())
    }

    /// The geometry alone, for who needs no more of the tile.
    pub fn into_geometry(self) -> TileGeom
        ensures { result ≡ geometry self.entry.stream self.entry.number }
    {
        self.geom
    }
}
