//! The step of a band and its planes (ITU-T T.800, E.1 and H.1).

ghost use Rattle.std.specs.Prelude.{◌≡◌, ◌≤◌, ◌<◌, slice_index};
ghost use Rattle.jx_codestream.specs.Params.{level_of, exponent_of, mantissa_of, planes_of};

use jx_marker::Quant;

/// The entry of a number, or 0 where there is none.
fn entry_of(quant: &Quant, number: usize) -> u16
    ensures { result ≡ slice_index quant.now.entries number }
{
    let entries = quant.entries.as_slice();
    if number < entries.len() {
        return entries[number];
    }
    0
}

/// The level of the band of a number.
fn level_of(levels: u8, number: usize) -> usize
    ensures value { result ≡ level_of levels number }
    ensures most { result ≤ levels }
{
    usize::from(levels).saturating_sub(number.saturating_sub(1) / 3)
}

/// The exponent of the step of the band of a number.
pub fn exponent_of(quant: &Quant, levels: u8, number: usize) -> u16
    ensures value { result ≡ exponent_of quant.now levels number }
    ensures most { result < 32 }
{
    match quant.sqcd % 32 {
        0 => entry_of(quant, number) % 256 / 8,
        1 => {
            let level = level_of(levels, number) as u16;
            (entry_of(quant, 0) / 2048 + level).saturating_sub(u16::from(levels))
        }
        _ => entry_of(quant, number) / 2048,
    }
}

/// The mantissa of the step of the band of a number.
pub fn mantissa_of(quant: &Quant, number: usize) -> u16
    ensures { result ≡ mantissa_of quant.now number }
{
    match quant.sqcd % 32 {
        0 => 0,
        1 => entry_of(quant, 0) % 2048,
        _ => entry_of(quant, number) % 2048,
    }
}

/// The planes of the band of a number.
pub fn planes_of(quant: &Quant, levels: u8, shift: u8, number: usize) -> u32
    ensures { result ≡ planes_of quant.now levels shift number }
{
    let exponent = u32::from(exponent_of(quant, levels, number));
    (u32::from(quant.sqcd / 32) + exponent).saturating_sub(1) + u32::from(shift)
}
