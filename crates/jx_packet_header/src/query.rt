//! A code-block's inclusion and its zero planes, read from the tag trees (T.800, B.10.4, B.10.5).

ghost use Rattle.std.specs.Prelude.{◌≡◌, ◌<◌, ◌^◌, Some, None, IfOk, IfErr, OnOk};
ghost use Rattle.jx_tagtree.specs.Header.{to_come};
ghost use Rattle.jx_packet_header.specs.Scan.{ask, scan_first, scan_more_zeros, scan_zeros};
ghost use Rattle.jx_packet_header.specs.Frame.{frame};
ghost use Rattle.jx_packet_header.specs.Kept.{IsLeafOf};

use crate::HeadFault;
use crate::words::flag;
use jx_tagtree::{BitReader, TagReader};

/// Whether the value of a leaf is below a threshold.
pub(crate) fn query(
    tree: &mut TagReader,
    leaf: u32,
    threshold: u32,
    bits: &mut BitReader<'_>,
) -> Result<bool, HeadFault>
    requires { IsLeafOf tree.old leaf }
    ensures ok { IfOk result (λ below. ask tree.old leaf threshold (to_come bits.old) ≡ Some (record { below = below; tree = tree.new; rest = to_come bits.new })) }
    ensures leaf { OnOk result (IsLeafOf tree.new leaf) }
    ensures frame { OnOk result (frame bits.new ≡ frame bits.old) }
    ensures err { IfErr result (λ e. (e ≡ HeadFault.Bits) × (ask tree.old leaf threshold (to_come bits.old) ≡ None)) }
{
    match tree.reach(leaf, threshold, bits) {
        Ok(below) => Ok(below),
        Err(_) => Err(HeadFault::Bits),
    }
}

/// Whether a packet of a layer includes a block, whose zero planes are known once one has (T.800 B.10.4).
pub(crate) fn read_inclusion(
    tree: &mut TagReader,
    zero: Option<u8>,
    leaf: u32,
    layer: u16,
    bits: &mut BitReader<'_>,
) -> Result<bool, HeadFault>
    requires { IsLeafOf tree.old leaf }
    ensures ok { IfOk result (λ below. scan_first zero tree.old leaf layer (to_come bits.old) ≡ Some (record { below = below; tree = tree.new; rest = to_come bits.new })) }
    ensures frame { OnOk result (frame bits.new ≡ frame bits.old) }
    ensures err { IfErr result (λ e. (e ≡ HeadFault.Bits) × (scan_first zero tree.old leaf layer (to_come bits.old) ≡ None)) }
{
    match zero {
        None => query(tree, leaf, u32::from(layer) + 1, bits),
        Some(_) => flag(bits),
    }
}

/// A block's zero planes, or the band's planes where these are reached (T.800 B.10.5).
pub(crate) fn read_zero(
    tree: &mut TagReader,
    zero: Option<u8>,
    leaf: u32,
    planes: u32,
    bits: &mut BitReader<'_>,
) -> Result<u32, HeadFault>
    requires { IsLeafOf tree.old leaf }
    ensures ok { IfOk result (λ z. scan_zeros zero tree.old leaf planes (to_come bits.old) ≡ Some (record { zeros = z; tree = tree.new; rest = to_come bits.new })) }
    ensures frame { OnOk result (frame bits.new ≡ frame bits.old) }
    ensures err { IfErr result (λ e. (e ≡ HeadFault.Bits) × (scan_zeros zero tree.old leaf planes (to_come bits.old) ≡ None)) }
{
    match zero {
        None => count_zeros(tree, leaf, planes, bits),
        Some(zero) => Ok(u32::from(zero)),
    }
}

/// The zero planes of a block that is included for the first time.
fn count_zeros(
    tree: &mut TagReader,
    leaf: u32,
    planes: u32,
    bits: &mut BitReader<'_>,
) -> Result<u32, HeadFault>
    requires { IsLeafOf tree.old leaf }
    ensures ok { IfOk result (λ z. scan_more_zeros tree.old leaf 0 planes (to_come bits.old) ≡ Some (record { zeros = z; tree = tree.new; rest = to_come bits.new })) }
    ensures frame { OnOk result (frame bits.new ≡ frame bits.old) }
    ensures err { IfErr result (λ e. (e ≡ HeadFault.Bits) × (scan_more_zeros tree.old leaf 0 planes (to_come bits.old) ≡ None)) }
{
    for zeros in 0..planes {
        match query(tree, leaf, zeros + 1, bits) {
            Ok(true) => return Ok(zeros),
            Ok(false) => {}
            Err(fault) => return Err(fault),
        }
    }
    Ok(planes)
}
