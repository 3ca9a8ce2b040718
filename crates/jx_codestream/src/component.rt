//! The parameters of a tile-component, the step of a band and its planes, by the headers that give them.

ghost use Rattle.std.specs.Prelude.{◌≡◌, ◌≤◌, ◌<◌, ◌+◌, ◌*◌, ◌/◌, ◌%◌};
ghost use Rattle.jx_geom.specs.Ranges.{HasBand};
ghost use Rattle.jx_codestream.specs.Params.{cod_of, cod_or, number_of, params_by, planes_by, precincts_of, quant_of, quant_or, shape_of, shape_or, step_by};

use crate::Params;
use crate::index::Index;
use crate::precedence::{cod_of, quant_of, shape_of, shift_of};
use crate::steps::{exponent_of, mantissa_of, planes_of};
use jx_base::{Band, Style};

/// The exponents of each resolution's precincts, 15 and 15 where no bytes are there.
pub fn precincts_of(bytes: &[u8]) -> [u8; 33]
    ensures { result ≡ precincts_of bytes.now }
{
    let mut precincts = [255u8; 33];
    if bytes.is_empty() {
        return precincts;
    }
    for res in 0..33 {
        precincts[res] = if res < bytes.len() { bytes[res] } else { 0 };
    }
    precincts
}

/// The number of a band among those of its component.
fn number_of(res: u8, band: Band) -> usize
    requires { HasBand res band }
    ensures { result ≡ number_of res band }
{
    let res = usize::from(res);
    match band {
        Band::LL => 0,
        Band::HL => 3 * res - 2,
        Band::LH => 3 * res - 1,
        Band::HH => 3 * res,
    }
}

/// The parameters with those of a component's shape.
fn with_shape(params: Params, tile: &Index, main: &Index, comp: u16) -> Params
    ensures { let shape = shape_or (shape_of tile.now.segments.now main.now.segments.now comp) in result ≡ record params {
      levels = shape.levels;
      xcb = shape.xcb;
      ycb = shape.ycb;
      style = record { bits = shape.style };
      wavelet = shape.wavelet;
      precincts = precincts_of shape.precincts;
    } }
{
    let Some(shape) = shape_of(tile, main, comp) else {
        return Params {
            levels: 0,
            xcb: 0,
            ycb: 0,
            style: Style { bits: 0 },
            wavelet: 0,
            precincts: precincts_of(&[]),
            ..params
        };
    };
    Params {
        levels: shape.levels,
        xcb: shape.xcb,
        ycb: shape.ycb,
        style: Style { bits: shape.style },
        wavelet: shape.wavelet,
        precincts: precincts_of(shape.precincts.as_slice()),
        ..params
    }
}

/// The parameters with those of a tile's COD.
fn with_cod(params: Params, tile: &Index, main: &Index) -> Params
    ensures { let cod = cod_or (cod_of tile.now.segments.now main.now.segments.now) in result ≡ record params { order = cod.order; layers = cod.layers; transform = cod.transform } }
{
    let Some(cod) = cod_of(tile, main) else {
        return Params {
            order: 0,
            layers: 0,
            transform: 0,
            ..params
        };
    };
    Params {
        order: cod.order,
        layers: cod.layers,
        transform: cod.transform,
        ..params
    }
}

/// The parameters with those of a component's quantization.
fn with_quant(params: Params, tile: &Index, main: &Index, comp: u16) -> Params
    ensures { let quant = quant_or (quant_of tile.now.segments.now main.now.segments.now comp) in result ≡ record params { guard = quant.sqcd / 32; quant = quant.sqcd % 32 } }
{
    let Some(quant) = quant_of(tile, main, comp) else {
        return Params {
            guard: 0,
            quant: 0,
            ..params
        };
    };
    Params {
        guard: quant.sqcd / 32,
        quant: quant.sqcd % 32,
        ..params
    }
}

fn levels_of(tile: &Index, main: &Index, comp: u16) -> u8
    ensures { result ≡ (shape_or (shape_of tile.now.segments.now main.now.segments.now comp)).levels }
{
    match shape_of(tile, main, comp) {
        Some(shape) => shape.levels,
        None => 0,
    }
}

/// The parameters of a component.
pub fn params_by(tile: &Index, main: &Index, comp: u16) -> Params
    ensures { result ≡ params_by tile.now.segments.now main.now.segments.now comp }
{
    let empty = Params {
        levels: 0,
        xcb: 0,
        ycb: 0,
        style: Style { bits: 0 },
        wavelet: 0,
        precincts: [0; 33],
        order: 0,
        layers: 0,
        transform: 0,
        guard: 0,
        quant: 0,
        shift: shift_of(tile, main, comp),
    };
    with_quant(
        with_cod(with_shape(empty, tile, main, comp), tile, main),
        tile,
        main,
        comp,
    )
}

/// The exponent and the mantissa of the step of a band.
pub fn step_by(tile: &Index, main: &Index, comp: u16, res: u8, band: Band) -> (u8, u16)
    requires { HasBand res band }
    ensures exponent { result.0 ≡ (step_by tile.now.segments.now main.now.segments.now comp res band).0 }
    ensures mantissa { result.1 ≡ (step_by tile.now.segments.now main.now.segments.now comp res band).1 }
{
    let number = number_of(res, band);
    let Some(quant) = quant_of(tile, main, comp) else {
        return (0, 0);
    };
    let levels = levels_of(tile, main, comp);
    (
        exponent_of(quant, levels, number) as u8,
        mantissa_of(quant, number),
    )
}

/// The planes of a band.
pub fn planes_by(tile: &Index, main: &Index, comp: u16, res: u8, band: Band) -> u32
    requires { HasBand res band }
    ensures { result ≡ planes_by tile.now.segments.now main.now.segments.now comp res band }
{
    let number = number_of(res, band);
    let shift = shift_of(tile, main, comp);
    let Some(quant) = quant_of(tile, main, comp) else {
        return u32::from(shift);
    };
    planes_of(quant, levels_of(tile, main, comp), shift, number)
}
