//! Which markers have a length, and the sizes that depend on the number of components or on the quantization style.

ghost use Rattle.std.specs.Prelude.{◌≡◌, ◌≤◌};
ghost use Rattle.jx_marker.specs.Markers.{has_length, stands_alone, index_size, entry_size, progression_size};

use crate::codes::{
    COC, COD, COM, CRG, EOC, PLM, PLT, POC, PPM, PPT, QCC, QCD, RGN, SIZ, SOC, SOD, SOT, TLM,
};

/// Whether a length follows this marker.
pub fn has_length(code: u8) -> bool
    ensures { result ≡ has_length code }
{
    matches!(
        code,
        SIZ | COD | COC | TLM | PLM | PLT | QCD | QCC | RGN | POC | PPM | PPT | CRG | COM | SOT
    )
}

/// Whether this is a marker that no length follows.
pub fn stands_alone(code: u8) -> bool
    ensures { result ≡ stands_alone code }
{
    matches!(code, SOC | SOD | EOC | 0x30..=0x3F)
}

/// The bytes of a component's index.
pub fn index_size(comps: u16) -> usize
    ensures value { result ≡ index_size comps }
    ensures some { 1 ≤ result }
    ensures most { result ≤ 2 }
{
    if comps < 257 { 1 } else { 2 }
}

/// The bytes of an entry of a quantization style.
pub fn entry_size(sqcd: u8) -> usize
    ensures value { result ≡ entry_size sqcd }
    ensures some { 1 ≤ result }
    ensures most { result ≤ 2 }
{
    if sqcd % 32 == 0 { 1 } else { 2 }
}

/// The bytes of an entry of POC.
pub fn progression_size(comps: u16) -> usize
    ensures value { result ≡ progression_size comps }
    ensures some { 7 ≤ result }
    ensures most { result ≤ 9 }
{
    5 + 2 * index_size(comps)
}
