//! The first value in which two codestreams differ, in words.
ghost use Rattle.std.specs.Prelude.{◌≡◌, IfOk, string_bytes};
ghost use Rattle.jx_messages.specs.Differences.{band_words, coef_words, column_words, component_words, depth_words, differs_sentence, field_section, field_words, number_words, picture_words, place_words, quant_words, spot_words, step_words, tile_words, tiles_words, transform_words, value_words, values_words, wavelet_words};

use jx_base::Band;
use jx_same::{Difference, Field, Spot, Value};
use std::alloc::{AllocError, Global};

/// A field.
fn field_words(field: Field) -> &'static str
    ensures { result.now ≡ field_words field }
{
    match field {
        Field::Canvas => "the picture's size, its offset or its tiles",
        Field::Components => "the number of components",
        Field::Depth => "the samples' depth or sign",
        Field::Sampling => "the subsampling",
        Field::Levels => "the decomposition levels",
        Field::Wavelet => "the wavelet",
        Field::Transform => "the component transform",
        Field::Quant => "the style of quantization",
        Field::Guard => "the guard bits",
        Field::Shift => "the shift of a region of interest",
        Field::Exponent => "the exponent of the step",
        Field::Mantissa => "the mantissa of the step",
        Field::Coef => "the coefficient",
    }
}

/// Where T.800 speaks of a field.
fn field_section(field: Field) -> &'static str
    ensures { result.now ≡ field_section field }
{
    match field {
        Field::Canvas => "B.2",
        Field::Components => "A.5.1",
        Field::Depth => "A.5.1",
        Field::Sampling => "A.5.1",
        Field::Levels => "A.6.1",
        Field::Wavelet => "A.6.1",
        Field::Transform => "A.6.1",
        Field::Quant => "A.6.4",
        Field::Guard => "A.6.4",
        Field::Shift => "A.6.3",
        Field::Exponent => "E.1",
        Field::Mantissa => "E.1",
        Field::Coef => "D",
    }
}

fn band_words(band: Band) -> &'static str
    ensures { result.now ≡ band_words band }
{
    match band {
        Band::LL => "LL",
        Band::HL => "HL",
        Band::LH => "LH",
        Band::HH => "HH",
    }
}

/// Of a component.
fn component_text(alloc: Global, spot: Spot) -> Result<String, AllocError>
    ensures { IfOk result (λ text. string_bytes text ≡ component_words spot) }
{
    let comp = spot.comp;
    format!(in alloc; " of component {comp}")
}

/// Of a component in a tile.
fn tile_text(alloc: Global, spot: Spot) -> Result<String, AllocError>
    ensures { IfOk result (λ text. string_bytes text ≡ tile_words spot) }
{
    let comp = spot.comp;
    let tile = spot.tile;
    format!(in alloc; " of component {comp} in tile {tile}")
}

/// Of a band.
fn step_text(alloc: Global, spot: Spot) -> Result<String, AllocError>
    ensures { IfOk result (λ text. string_bytes text ≡ step_words spot) }
{
    let band = band_words(spot.band);
    let res = spot.res;
    let comp = spot.comp;
    let tile = spot.tile;
    format!(in alloc; " of band {band},\n    resolution {res}, component {comp}, tile {tile}")
}

/// In a band.
fn column_text(alloc: Global, spot: Spot) -> Result<String, AllocError>
    ensures { IfOk result (λ text. string_bytes text ≡ column_words spot) }
{
    let step = step_text(alloc, spot)?;
    let x = spot.x;
    let y = spot.y;
    format!(in alloc; " in column {x}, row {y}{step}")
}

/// Where a value stands, as far as its field has a place.
fn place_text(alloc: Global, spot: Spot) -> Result<String, AllocError>
    ensures { IfOk result (λ text. string_bytes text ≡ place_words spot.field spot) }
{
    match spot.field {
        Field::Canvas => String::from_str(alloc, ""),
        Field::Components => String::from_str(alloc, ""),
        Field::Depth => component_text(alloc, spot),
        Field::Sampling => component_text(alloc, spot),
        Field::Levels => tile_text(alloc, spot),
        Field::Wavelet => tile_text(alloc, spot),
        Field::Transform => tile_text(alloc, spot),
        Field::Quant => tile_text(alloc, spot),
        Field::Guard => tile_text(alloc, spot),
        Field::Shift => tile_text(alloc, spot),
        Field::Exponent => step_text(alloc, spot),
        Field::Mantissa => step_text(alloc, spot),
        Field::Coef => column_text(alloc, spot),
    }
}

/// The bits of samples, and whether they have a sign, by Ssiz (Table A.11).
fn depth_text(alloc: Global, ssiz: u16) -> Result<String, AllocError>
    ensures { IfOk result (λ text. string_bytes text ≡ depth_words ssiz) }
{
    let bits = ssiz % 128 + 1;
    let sign = if ssiz < 128 {
        " bits without a sign"
    } else {
        " bits with a sign"
    };
    format!(in alloc; "{bits}{sign}")
}

/// A wavelet (Table A.20).
fn wavelet_words(number: u16) -> &'static str
    ensures { result.now ≡ wavelet_words number }
{
    if number == 0 { "9-7" } else { "5-3" }
}

/// A component transform (Table A.17).
fn transform_words(number: u16) -> &'static str
    ensures { result.now ≡ transform_words number }
{
    if number == 0 {
        "none"
    } else {
        "one of the first three"
    }
}

/// A style of quantization (Table A.28).
fn quant_words(number: u16) -> &'static str
    ensures { result.now ≡ quant_words number }
{
    if number == 0 {
        return "none";
    }
    if number == 1 {
        "derived steps"
    } else {
        "expounded steps"
    }
}

/// A number of a field.
fn number_text(alloc: Global, field: Field, number: u16) -> Result<String, AllocError>
    ensures { IfOk result (λ text. string_bytes text ≡ number_words field number) }
{
    match field {
        Field::Depth => depth_text(alloc, number),
        Field::Wavelet => String::from_str(alloc, wavelet_words(number)),
        Field::Transform => String::from_str(alloc, transform_words(number)),
        Field::Quant => String::from_str(alloc, quant_words(number)),
        _ => format!(in alloc; "{number}"),
    }
}

/// A coefficient.
fn coef_text(alloc: Global, negative: bool, bits: u128, planes: u16) -> Result<String, AllocError>
    ensures { IfOk result (λ text. string_bytes text ≡ coef_words negative bits planes) }
{
    let sign = if negative { "-" } else { "" };
    format!(in alloc; "{sign}{bits} in {planes} planes")
}

/// Where the picture lies.
fn picture_text(alloc: Global, x1: u32, y1: u32, x0: u32, y0: u32) -> Result<String, AllocError>
    ensures { IfOk result (λ text. string_bytes text ≡ picture_words x1 y1 x0 y0) }
{
    format!(in alloc; "{x0},{y0} to {x1},{y1}")
}

/// The tiles' size, and where the first begins.
fn tiles_text(alloc: Global, tw: u32, th: u32, tx: u32, ty: u32) -> Result<String, AllocError>
    ensures { IfOk result (λ text. string_bytes text ≡ tiles_words tw th tx ty) }
{
    format!(in alloc; "{tw} by {th} from {tx},{ty}")
}

/// A value of a field.
fn value_text(alloc: Global, field: Field, value: Value) -> Result<String, AllocError>
    ensures { IfOk result (λ text. string_bytes text ≡ value_words field value) }
{
    match value {
        Value::Canvas {
            x1,
            y1,
            x0,
            y0,
            tw,
            th,
            tx,
            ty,
        } => {
            let picture = picture_text(alloc, x1, y1, x0, y0)?;
            let tiles = tiles_text(alloc, tw, th, tx, ty)?;
            format!(in alloc; "{picture}, tiles of {tiles}")
        }
        Value::Factors { dx, dy } => format!(in alloc; "{dx} by {dy}"),
        Value::Coef {
            negative,
            bits,
            planes,
        } => coef_text(alloc, negative, bits, planes),
        Value::Number(number) => number_text(alloc, field, number),
    }
}

/// What the first file has, and what the second has.
fn values_text(alloc: Global, difference: Difference) -> Result<String, AllocError>
    ensures { IfOk result (λ text. string_bytes text ≡ values_words difference) }
{
    let first = value_text(alloc, difference.spot.field, difference.first)?;
    let second = value_text(alloc, difference.spot.field, difference.second)?;
    format!(in alloc; "the first has {first},\n    the second has {second}")
}

/// What a value is, where it stands, and where T.800 speaks of it.
fn spot_text(alloc: Global, spot: Spot) -> Result<String, AllocError>
    ensures { IfOk result (λ text. string_bytes text ≡ spot_words spot) }
{
    let what = field_words(spot.field);
    let place = place_text(alloc, spot)?;
    let section = field_section(spot.field);
    format!(in alloc; "{what}{place} (T.800 {section})")
}

/// Two files that aren't the same, by the first value that differs, as both have it.
pub(crate) fn differs_text(
    alloc: Global,
    difference: Difference,
    first: &str,
    second: &str,
) -> Result<String, AllocError>
    ensures { IfOk result (λ text. string_bytes text ≡ differs_sentence first.now second.now difference) }
{
    let what = spot_text(alloc, difference.spot)?;
    let values = values_text(alloc, difference)?;
    format!(in alloc;
        "jx: {first} and {second} aren't the same; the first value that differs is\n    {what}:\n    {values}\n"
    )
}
