//! What the headers say of a tile, each answer in constant time.

ghost use Rattle.std.specs.Prelude.{◌≡◌, ◌≤◌, ◌<◌, ◌∷◌, List, length, IfOk, []};
ghost use Rattle.jx_geom.specs.Geometry.{ShapesInRange};
ghost use Rattle.jx_geom.specs.Ranges.{CanvasInRange, HasBand, ShapeInRange};
ghost use Rattle.jx_marker.specs.declared.Segment.{Segment};
ghost use Rattle.jx_codestream.specs.First.{canvas_of, tile_number};
ghost use Rattle.jx_codestream.specs.InRange.{HeadersInRange, StreamInRange};
ghost use Rattle.jx_codestream.specs.Params.{headers_at, params_in, planes_in, step_in};
ghost use Rattle.jx_codestream.specs.Shapes.{HasShapes, layers_in, layers_of, shapes_in, style_in};
ghost use Rattle.jx_codestream.specs.TileHeaders.{with_own};

use crate::component::{params_by, planes_by, step_by};
use crate::index::{Index, comp_named, has_shape};
use crate::precedence::{cod_of, shape_of};
use crate::reading::canvas_of;
use crate::shapes::{comp_shape, comps_of, shape_by, shapes_of, sized_shapes};
use crate::{Params, Stream, slots};
use jx_base::{Band, NoMemory, Style};
use jx_geom::{Canvas, CompShape, Shapes};
use jx_marker::{Segment, Siz};
use std::alloc::Global;
use std::marker::Model;

/// The main header with its tables: made once for a picture, and lent to the views of its tiles.
#[derive(Drop)]
pub struct MainView<'a> {
    siz: &'a Siz,
    index: Index<'a>,
    shapes: Shapes,
}

impl<'a> Model for MainView<'a> {
    ghost use Rattle.std.specs.Prelude.{◌≡◌, ◌≤◌, length, []};
    ghost use Rattle.jx_codestream.specs.TileHeaders.{MainHeaders};
    ghost use Rattle.jx_codestream.specs.Shapes.{shapes_in};

    ghost Value = { MainHeaders };

    ghost view = { λ m. record { siz = m.siz.now; main = m.index.segments.now } };

    ghost invariant = { λ m. (m.shapes ≡ shapes_in (record { siz = m.siz.now; main = m.index.segments.now; own = [] })) × (length m.siz.now.comps ≤ 16384) };
}

/// What the headers say of a tile (ITU-T T.800, A.6). A tile whose header has no COD and no COC shares the shapes of
/// the main header; another one has its own.
#[derive(Drop)]
pub struct TileView<'a> {
    main: &'a MainView<'a>,
    own: Index<'a>,
    shapes: Shapes,
}

impl<'a> Model for TileView<'a> {
    ghost use Rattle.std.specs.Prelude.{◌≡◌};
    ghost use Rattle.jx_codestream.specs.TileHeaders.{TileHeaders, with_own};
    ghost use Rattle.jx_codestream.specs.Shapes.{shapes_in};
    ghost use Rattle.jx_codestream.specs.InRange.{HeadersInRange};

    ghost Value = { TileHeaders };

    ghost view = { λ t. with_own t.main.now t.own.segments.now };

    ghost invariant = { λ t. HeadersInRange (with_own t.main.now t.own.segments.now)
        × (t.shapes ≡ shapes_in (with_own t.main.now t.own.segments.now)) };
}

impl<'a> MainView<'a> {
    /// The view of a picture's SIZ and of the segments after it in the main header.
    pub fn new(alloc: Global, siz: &'a Siz, main: &'a [Segment]) -> Result<Self, NoMemory>
        requires { length siz.now.comps ≤ 16384 }
        ensures { IfOk result (λ view. view ≡ record { siz = siz.entry.now; main = main.entry.now }) }
    {
        let index = Index::new(alloc, main, comps_of(siz))?;
        let shapes = Shapes::new(shapes_of(alloc, siz, &Index::listed(&[]), &index)?)?;
        Ok(MainView { siz, index, shapes })
    }

    /// How many components there are.
    fn comps(&self) -> u16
        ensures value { result ≡ length self.now.siz.comps }
        ensures bound { result ≤ 16384 }
    {
        comps_of(self.siz)
    }

    fn siz(&self) -> &Siz
        ensures { result.now ≡ self.now.siz }
    {
        self.siz
    }

    fn index(&self) -> &Index<'a>
        ensures { result.now.segments.now ≡ self.now.main }
    {
        &self.index
    }

    /// The shapes of a tile whose header has no COD and no COC.
    fn shapes(&self) -> &Shapes
        ensures { result.now ≡ shapes_in (with_own self.now []) }
    {
        &self.shapes
    }
}

/// The shapes of a tile but for the components that its header names: by its COD, or else those of the main header. They are
/// found once, or copied whole, whatever stands in the headers.
fn default_shapes(alloc: Global, main: &MainView, own: &Index) -> Result<Vec<CompShape>, NoMemory>
    requires { length main.now.siz.comps ≤ 16384 }
    ensures { IfOk result (λ shapes. HasShapes (with_own main.now own.now.segments.now) own.now.segments.now shapes.items) }
{
    let Some(segment) = own.in_slot(slots::COD) else {
        return Ok(Vec::from_slice(alloc, main.shapes().as_slice())?);
    };
    let shapes = sized_shapes(alloc, main.siz(), &shape_by(segment))?;
    Ok(shapes)
}

/// Puts the shape of the component that a segment names.
fn put_named(main: &MainView, own: &Index, segment: &Segment, shapes: &mut Vec<CompShape>)
    ensures { (left : List Segment) → HasShapes (with_own main.now own.now.segments.now) (segment.now ∷ left) shapes.old.items
        → HasShapes (with_own main.now own.now.segments.now) left shapes.new.items }
{
    let Some(comp) = comp_named(segment) else {
        return;
    };
    if usize::from(comp) >= shapes.len() {
        return;
    }
    shapes[usize::from(comp)] = comp_shape(main.siz(), own, main.index(), comp);
}

/// The shapes of a tile whose header has a COD or a COC. Only the components that it names are looked up one by one.
fn coded_shapes(alloc: Global, main: &MainView, own: &Index) -> Result<Vec<CompShape>, NoMemory>
    requires { length main.now.siz.comps ≤ 16384 }
    ensures { IfOk result (λ shapes. shapes.items ≡ shapes_in (with_own main.now own.now.segments.now)) }
{
    let mut shapes = default_shapes(alloc, main, own)?;
    for segment in own.segments {
        put_named(main, own, segment, &mut shapes);
    }
    Ok(shapes)
}

/// The shapes of a tile: those of the main header where its own has no COD and no COC.
#[tactic(auto, using(crate::proofs::CodingLemmas::view_uncoded))]
fn tile_shapes(alloc: Global, main: &MainView, own: &Index) -> Result<Shapes, NoMemory>
    requires { length main.now.siz.comps ≤ 16384 }
    ensures { IfOk result (λ shapes. shapes ≡ shapes_in (with_own main.now own.now.segments.now)) }
{
    if !has_shape(own.segments) {
        return main.shapes().share();
    }
    Shapes::new(coded_shapes(alloc, main, own)?)
}

impl<'a> TileView<'a> {
    /// The view of a tile whose first tile-part has these segments in its header.
    pub fn new(
        alloc: Global,
        main: &'a MainView<'a>,
        header: &'a [Segment],
    ) -> Result<Self, NoMemory>
        requires { HeadersInRange (with_own main.now header.now) }
        ensures { IfOk result (λ view. view ≡ with_own main.entry.now header.entry.now) }
    {
        let own = Index::new(alloc, header, main.comps())?;
        let shapes = tile_shapes(alloc, main, &own)?;
        Ok(TileView { main, own, shapes })
    }

    /// How many components there are, 1 to 16,384.
    pub fn comps(&self) -> u16
        ensures value { result ≡ length self.now.siz.comps }
        ensures range { (1 ≤ result) × (result ≤ 16384) }
    {
        self.main.comps()
    }

    /// The picture and its tiles on the reference grid.
    pub fn canvas(&self) -> Canvas
        ensures value { result ≡ canvas_of self.now.siz }
        ensures range { CanvasInRange result }
    {
        canvas_of(self.main.siz())
    }

    /// The parameters of a component.
    pub fn params(&self, comp: u16) -> Params
        ensures { result ≡ params_in self.now comp }
    {
        params_by(&self.own, self.main.index(), comp)
    }

    /// How all components are divided.
    pub fn shapes(&self) -> &[CompShape]
        ensures value { result.now ≡ shapes_in self.now }
        ensures range { ShapesInRange result.now }
    {
        self.shapes.as_slice()
    }

    /// The same list, for who shares it.
    pub fn shared_shapes(&self) -> &Shapes
        ensures value { result.now ≡ shapes_in self.now }
        ensures range { ShapesInRange result.now }
    {
        &self.shapes
    }

    /// The number of layers, at least 1.
    pub fn layers(&self) -> u16
        ensures value { result ≡ layers_in self.now }
        ensures range { 1 ≤ result }
    {
        match cod_of(&self.own, self.main.index()) {
            Some(cod) => cod.layers,
            None => 0,
        }
    }

    /// The style of a component's code-blocks.
    pub fn style(&self, comp: u16) -> Style
        ensures { result.bits ≡ style_in self.now comp }
    {
        match shape_of(&self.own, self.main.index(), comp) {
            Some(shape) => Style { bits: shape.style },
            None => Style { bits: 0 },
        }
    }

    /// The exponent and the mantissa of the step of a band (T.800, E.1).
    pub fn step(&self, comp: u16, res: u8, band: Band) -> (u8, u16)
        requires { HasBand res band }
        ensures exponent { result.0 ≡ (step_in self.now comp res band).0 }
        ensures mantissa { result.1 ≡ (step_in self.now comp res band).1 }
    {
        step_by(&self.own, self.main.index(), comp, res, band)
    }

    /// The planes of a band, the shift of a region of interest among them; at most 74 where there is such a band.
    pub fn planes(&self, comp: u16, res: u8, band: Band) -> u32
        requires { HasBand res band }
        ensures value { result ≡ planes_in self.now comp res band }
        ensures range { comp < length self.now.siz.comps → res ≤ (params_in self.now comp).levels → result ≤ 74 }
    {
        planes_by(&self.own, self.main.index(), comp, res, band)
    }
}

impl Stream {
    /// The view of the main header.
    pub fn main_view<'a>(&'a self, alloc: Global) -> Result<MainView<'a>, NoMemory>
        requires { StreamInRange self.now }
        ensures { IfOk result (λ view. view ≡ record { siz = self.entry.now.siz; main = self.entry.now.main }) }
    {
        MainView::new(alloc, &self.siz, self.main.as_slice())
    }

    /// The view of a tile, over that of the main header.
    pub fn tile_view<'a>(
        &'a self,
        alloc: Global,
        main: &'a MainView<'a>,
        tile: u16,
    ) -> Result<TileView<'a>, NoMemory>
        requires main { main.now ≡ record { siz = self.now.siz; main = self.now.main } }
        requires range { StreamInRange self.now }
        requires tile { tile < tile_number self.now.siz }
        ensures { IfOk result (λ view. view ≡ headers_at self.entry.now tile) }
    {
        TileView::new(alloc, main, self.header(tile))
    }

    /// The layers of a tile, for who asks no more of it.
    pub fn tile_layers(&self, main: &MainView<'_>, tile: u16) -> u16
        requires { main.now ≡ record { siz = self.now.siz; main = self.now.main } }
        ensures { result ≡ layers_of self.now tile }
    {
        match cod_of(&Index::listed(self.header(tile)), main.index()) {
            Some(cod) => cod.layers,
            None => 0,
        }
    }
}
