//! Which segment a tile-component follows (ITU-T T.800, A.6): the first that is there of the tile's own, the tile's
//! default, the main header's own and the main default.

ghost use Rattle.std.specs.Prelude.{◌≡◌, ◌+◌, ◌*◌, MatchOption, Some, None, true};
ghost use Rattle.std.specs.Option.{option_or};
ghost use Rattle.jx_codestream.specs.Index.{gives};
ghost use Rattle.jx_codestream.specs.Params.{chosen, cod_of, quant_of, shape_in, shape_of, shift_in, shift_of};
ghost use Rattle.jx_codestream.specs.Tiles.{in_slot};

use crate::index::Index;
use crate::slots;
use jx_marker::{Cod, Quant, Segment, Shape};

/// The first that is there.
fn first_of<'a>(tile: &'a Index<'a>, main: &'a Index<'a>, slot: usize) -> Option<&'a Segment>
    requires { gives slot ≡ true }
    ensures { MatchOption result (option_or (in_slot slot tile.now.segments.now) (in_slot slot main.now.segments.now) ≡ None) (λ segment. option_or (in_slot slot tile.now.segments.now) (in_slot slot main.now.segments.now) ≡ Some segment.now) }
{
    if let Some(segment) = tile.in_slot(slot) {
        return Some(segment);
    }
    main.in_slot(slot)
}

fn chosen<'a>(
    tile: &'a Index<'a>,
    main: &'a Index<'a>,
    own: usize,
    default: usize,
) -> Option<&'a Segment>
    requires own { gives own ≡ true }
    requires default { gives default ≡ true }
    ensures { MatchOption result (chosen own default tile.now.segments.now main.now.segments.now ≡ None) (λ segment. chosen own default tile.now.segments.now main.now.segments.now ≡ Some segment.now) }
{
    if let Some(segment) = tile.in_slot(own) {
        return Some(segment);
    }
    if let Some(segment) = tile.in_slot(default) {
        return Some(segment);
    }
    if let Some(segment) = main.in_slot(own) {
        return Some(segment);
    }
    main.in_slot(default)
}

/// The coding of a component: tile COC, tile COD, main COC, main COD.
pub fn shape_of<'a>(tile: &'a Index<'a>, main: &'a Index<'a>, comp: u16) -> Option<&'a Shape>
    ensures { MatchOption result (shape_of tile.now.segments.now main.now.segments.now comp ≡ None) (λ shape. shape_of tile.now.segments.now main.now.segments.now comp ≡ Some shape.now) }
{
    match chosen(tile, main, slots::coc(comp), slots::COD) {
        Some(segment) => shape_in(segment),
        None => None,
    }
}

/// How a COD or COC says that components are divided.
pub fn shape_in(segment: &Segment) -> Option<&Shape>
    ensures { MatchOption result (shape_in (Some segment.now) ≡ None) (λ shape. shape_in (Some segment.now) ≡ Some shape.now) }
{
    match segment {
        Segment::Cod(cod) => Some(&cod.shape),
        Segment::Coc { shape, .. } => Some(shape),
        _ => None,
    }
}

/// The quantization of a component: tile QCC, tile QCD, main QCC, main QCD.
pub fn quant_of<'a>(tile: &'a Index<'a>, main: &'a Index<'a>, comp: u16) -> Option<&'a Quant>
    ensures { MatchOption result (quant_of tile.now.segments.now main.now.segments.now comp ≡ None) (λ quant. quant_of tile.now.segments.now main.now.segments.now comp ≡ Some quant.now) }
{
    match chosen(tile, main, slots::qcc(comp), slots::QCD) {
        Some(Segment::Qcd(quant)) => Some(quant),
        Some(Segment::Qcc { quant, .. }) => Some(quant),
        _ => None,
    }
}

/// The shift of a region of interest of a component, or 0: tile RGN, main RGN.
pub fn shift_of(tile: &Index, main: &Index, comp: u16) -> u8
    ensures { result ≡ shift_of tile.now.segments.now main.now.segments.now comp }
{
    match first_of(tile, main, slots::rgn(comp)) {
        Some(segment) => shift_in(segment),
        None => 0,
    }
}

fn shift_in(segment: &Segment) -> u8
    ensures { result ≡ shift_in (Some segment.now) }
{
    match segment {
        Segment::Rgn { shift, .. } => *shift,
        _ => 0,
    }
}

/// What gives the order, the layers and the component transform: tile COD, main COD.
pub fn cod_of<'a>(tile: &'a Index<'a>, main: &'a Index<'a>) -> Option<&'a Cod>
    ensures { MatchOption result (cod_of tile.now.segments.now main.now.segments.now ≡ None) (λ cod. cod_of tile.now.segments.now main.now.segments.now ≡ Some cod.now) }
{
    match first_of(tile, main, slots::COD) {
        Some(Segment::Cod(cod)) => Some(cod),
        _ => None,
    }
}
