//! What a codestream says at a spot: what its headers have there, or the coefficient of the place.

ghost use Rattle.std.specs.Prelude.{◌≡◌, ◌≤◌, IfOk, find, length, option_map};
ghost use Rattle.jx_codestream.specs.Params.{step_of};
ghost use Rattle.jx_codestream.specs.Shapes.{size_in};
ghost use Rattle.jx_plan.specs.Meaning.{is_band, lies_in};
ghost use Rattle.jx_progression.specs.Loops.{is_in};
ghost use Rattle.jx_same.specs.Items.{canvas_value, coef_at_spot, coef_value, difference_at, place_of, value_at};
ghost use Rattle.jx_same.specs.Sides.{IsInput, meaning_in};

use crate::decoded::Decoded;
use crate::input::Input;
use crate::{Difference, Field, Spot, Value};
use jx_base::{Band, Block, NoMemory, Span};
use jx_codestream::{Stream, comps_of};
use jx_marker::{CompSize, Siz};
use std::alloc::Global;

/// The picture and its tiles on the reference grid.
fn canvas_value(siz: &Siz) -> Value
    ensures { result ≡ canvas_value siz.now }
{
    Value::Canvas {
        x1: siz.x1,
        y1: siz.y1,
        x0: siz.x0,
        y0: siz.y0,
        tw: siz.tw,
        th: siz.th,
        tx: siz.tx,
        ty: siz.ty,
    }
}

/// What SIZ says of a component.
fn size_of(siz: &Siz, comp: u16) -> CompSize
    ensures { result ≡ size_in siz.now comp }
{
    match siz.comps.as_slice().get(usize::from(comp)) {
        Some(size) => *size,
        None => CompSize {
            ssiz: 0,
            dx: 1,
            dy: 1,
        },
    }
}

/// The exponent and the mantissa of the step of a spot's band. Where resolution 0 hasn't got the band they are those of the lowest one.
#[tactic(auto, using(crate::proofs::ValueLemmas::lowest_step))]
fn step_value(stream: &Stream, spot: Spot) -> (u8, u16)
    ensures exponent { result.0 ≡ (step_of stream.now spot.tile spot.comp spot.res spot.band).0 }
    ensures mantissa { result.1 ≡ (step_of stream.now spot.tile spot.comp spot.res spot.band).1 }
{
    if spot.res == 0 {
        return stream.step(spot.tile, spot.comp, 0, Band::LL);
    }
    match spot.band {
        Band::LL => stream.step(spot.tile, spot.comp, 0, Band::LL),
        Band::HL => stream.step(spot.tile, spot.comp, spot.res, Band::HL),
        Band::LH => stream.step(spot.tile, spot.comp, spot.res, Band::LH),
        Band::HH => stream.step(spot.tile, spot.comp, spot.res, Band::HH),
    }
}

/// Whether two bands are one.
fn is_band(a: Band, b: Band) -> bool
    ensures { result ≡ is_band a b }
{
    match a {
        Band::LL => matches!(b, Band::LL),
        Band::HL => matches!(b, Band::HL),
        Band::LH => matches!(b, Band::LH),
        Band::HH => matches!(b, Band::HH),
    }
}

/// Whether a number lies in a span.
fn is_in(span: Span, at: u32) -> bool
    ensures { result ≡ is_in span at }
{
    span.low <= at && at < span.high
}

/// Whether a spot's place lies in a code-block.
fn lies_in(spot: Spot, block: &Block<'_>) -> bool
    ensures { result ≡ lies_in (place_of spot) block.now }
{
    let name = &block.name;
    let comp = spot.comp == name.comp && spot.res == name.res;
    let tile = spot.tile == name.tile && comp;
    let rect = is_in(block.rect.x, spot.x) && is_in(block.rect.y, spot.y);
    let band = is_band(spot.band, name.band) && rect;
    tile && band
}

/// The code-block that has a spot's place.
fn block_at<'a>(blocks: &'a [Block<'a>], spot: Spot) -> Option<&'a Block<'a>>
    ensures { option_map (λ b. b.now) result ≡ find (lies_in (place_of spot)) blocks.entry.now }
{
    for block in blocks {
        if lies_in(spot, block) {
            return Some(block);
        }
    }
    None
}

/// The coefficient of a spot's place.
fn coef_value_at(alloc: Global, input: &Input<'_>, spot: Spot) -> Result<Value, NoMemory>
    requires { IsInput input.now }
    ensures { IfOk result (λ value. value ≡ coef_value (coef_at_spot (meaning_in input.now) spot)) }
{
    let Some(block) = block_at(input.blocks, spot) else {
        return Ok(Value::Coef {
            negative: false,
            bits: 0,
            planes: 0,
        });
    };
    let decoded = Decoded::new(alloc, block)?;
    Ok(decoded.value(spot.x, spot.y))
}

/// What a codestream says at a spot.
///
/// # Errors
///
/// `NoMemory` where memory is refused.
#[tactic(auto, unfolding(jx_plan::specs::Meaning::meaning_of))]
fn value_at(alloc: Global, input: &Input<'_>, spot: Spot) -> Result<Value, NoMemory>
    requires { IsInput input.now }
    ensures { IfOk result (λ value. value ≡ value_at spot.field (meaning_in input.now) spot) }
{
    let siz = &input.stream.siz;
    let size = size_of(siz, spot.comp);
    let params = input.stream.params(spot.tile, spot.comp);
    let step = step_value(input.stream, spot);
    Ok(match spot.field {
        Field::Canvas => canvas_value(siz),
        Field::Components => Value::Number(comps_of(siz)),
        Field::Depth => Value::Number(u16::from(size.ssiz)),
        Field::Sampling => Value::Factors {
            dx: size.dx,
            dy: size.dy,
        },
        Field::Levels => Value::Number(u16::from(params.levels)),
        Field::Wavelet => Value::Number(u16::from(params.wavelet)),
        Field::Transform => Value::Number(u16::from(params.transform)),
        Field::Quant => Value::Number(u16::from(params.quant)),
        Field::Guard => Value::Number(u16::from(params.guard)),
        Field::Shift => Value::Number(u16::from(params.shift)),
        Field::Exponent => Value::Number(u16::from(step.0)),
        Field::Mantissa => Value::Number(step.1),
        Field::Coef => return coef_value_at(alloc, input, spot),
    })
}

/// A spot with what two codestreams say there.
///
/// # Errors
///
/// `NoMemory` where memory is refused.
pub(crate) fn difference_at(
    alloc: Global,
    a: &Input<'_>,
    b: &Input<'_>,
    spot: Spot,
) -> Result<Difference, NoMemory>
    requires a { IsInput a.now }
    requires b { IsInput b.now }
    ensures { IfOk result (λ difference. difference ≡ difference_at (meaning_in a.now) (meaning_in b.now) spot) }
{
    let first = value_at(alloc, a, spot)?;
    let second = value_at(alloc, b, spot)?;
    Ok(Difference {
        spot,
        first,
        second,
    })
}
