//! What the headers of two codestreams say: the picture, its components, how a tile-component is transformed and quantized.

ghost use Rattle.std.specs.Prelude.{◌≡◌, ◌<◌, ◌≤◌, find, length};
ghost use Rattle.jx_codestream.specs.Shapes.{size_in};
ghost use Rattle.jx_plan.specs.Meaning.{component_of};
ghost use Rattle.jx_same.specs.Items.{coding_fields, differs, picture_fields, picture_items, same_canvas, size_fields, size_items, spot_of_band, spot_of_component, step_fields};
ghost use Rattle.jx_same.specs.Sides.{IsInput, meaning_in, unlike_coding, unlike_picture, unlike_size, unlike_step};

use crate::input::Input;
use crate::side::BandName;
use crate::{Field, Spot};
use jx_base::Band;
use jx_codestream::{Params, comps_of};
use jx_marker::{CompSize, Siz};

/// The spot of what is said of a component, or of the picture, which has that of tile 0 and component 0.
pub(crate) fn spot_of_component(tile: u16, comp: u16, field: Field) -> Spot
    ensures { result ≡ spot_of_component tile comp field }
{
    Spot {
        field,
        tile,
        comp,
        res: 0,
        band: Band::LL,
        x: 0,
        y: 0,
    }
}

/// The spot of what is said of a band.
pub(crate) fn spot_of_band(tile: u16, name: BandName, field: Field) -> Spot
    ensures { result ≡ spot_of_band tile name.comp name.res name.band field }
{
    Spot {
        field,
        tile,
        comp: name.comp,
        res: name.res,
        band: name.band,
        x: 0,
        y: 0,
    }
}

/// Whether two pictures lie on the reference grid with the same tiles (T.800, B.2 and B.3).
fn same_canvas(a: &Siz, b: &Siz) -> bool
    ensures { result ≡ same_canvas a.now b.now }
{
    let picture = (a.x1 == b.x1 && a.y1 == b.y1) && (a.x0 == b.x0 && a.y0 == b.y0);
    let tiles = (a.tw == b.tw && a.th == b.th) && (a.tx == b.tx && a.ty == b.ty);
    picture && tiles
}

/// What differs of two pictures before their components are looked at.
fn unlike_picture(a: &Siz, b: &Siz) -> Option<Field>
    requires a { length a.now.comps ≤ 16384 }
    requires b { length b.now.comps ≤ 16384 }
    ensures { result ≡ find (unlike_picture a.now b.now) picture_fields }
{
    if !same_canvas(a, b) {
        return Some(Field::Canvas);
    }
    if comps_of(a) != comps_of(b) {
        return Some(Field::Components);
    }
    None
}

/// What differs of a component in SIZ.
fn unlike_size(a: CompSize, b: CompSize) -> Option<Field>
    ensures { result ≡ find (unlike_size a b) size_fields }
{
    if a.ssiz != b.ssiz {
        return Some(Field::Depth);
    }
    let same = a.dx == b.dx && a.dy == b.dy;
    if !same {
        return Some(Field::Sampling);
    }
    None
}

/// What differs in how a tile-component is transformed and quantized.
pub(crate) fn unlike_coding(a: &Params, b: &Params) -> Option<Field>
    ensures { result ≡ find (unlike_coding (component_of a.now) (component_of b.now)) coding_fields }
{
    if a.levels != b.levels {
        return Some(Field::Levels);
    }
    if a.wavelet != b.wavelet {
        return Some(Field::Wavelet);
    }
    if a.transform != b.transform {
        return Some(Field::Transform);
    }
    if a.quant != b.quant {
        return Some(Field::Quant);
    }
    if a.guard != b.guard {
        return Some(Field::Guard);
    }
    if a.shift != b.shift {
        return Some(Field::Shift);
    }
    None
}

/// What differs of the step of a band, by its exponent and its mantissa.
pub(crate) fn unlike_step(a: (u8, u16), b: (u8, u16)) -> Option<Field>
    ensures { result ≡ find (unlike_step a b) step_fields }
{
    if a.0 != b.0 {
        return Some(Field::Exponent);
    }
    if a.1 != b.1 {
        return Some(Field::Mantissa);
    }
    None
}

/// The size of a component.
fn size_at(siz: &Siz, comp: u16) -> CompSize
    requires { comp < length siz.now.comps }
    ensures { result ≡ size_in siz.now comp }
{
    siz.comps.as_slice()[usize::from(comp)]
}

/// What is first found to differ of a component in SIZ.
fn compare_size(a: &Input<'_>, b: &Input<'_>, comp: u16) -> Option<Spot>
    requires a { comp < length a.now.stream.now.siz.comps }
    requires b { comp < length b.now.stream.now.siz.comps }
    ensures { result ≡ find (differs (meaning_in a.now) (meaning_in b.now)) (size_items comp) }
{
    let one = size_at(&a.stream.siz, comp);
    match unlike_size(one, size_at(&b.stream.siz, comp)) {
        Some(field) => Some(spot_of_component(0, comp, field)),
        None => None,
    }
}

/// What is first found to differ of the picture and its components.
pub(crate) fn compare_pictures(a: &Input<'_>, b: &Input<'_>) -> Option<Spot>
    requires a { IsInput a.now }
    requires b { IsInput b.now }
    ensures { result ≡ find (differs (meaning_in a.now) (meaning_in b.now)) (picture_items a.now.stream.now.siz) }
{
    if let Some(field) = unlike_picture(&a.stream.siz, &b.stream.siz) {
        return Some(spot_of_component(0, 0, field));
    }
    for comp in 0..comps_of(&a.stream.siz) {
        if let Some(spot) = compare_size(a, b, comp) {
            return Some(spot);
        }
    }
    None
}
