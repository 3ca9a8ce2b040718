//! Where the coding passes of a code-block in a packet are cut, and the lengths of the parts (T.800, B.10.7).

ghost use Rattle.std.specs.Prelude.{◌≡◌, ◌∷◌, ◌<◌, ◌≤◌, ◌+◌, ◌-◌, ◌^◌, IfOk, IfErr, OnOk};
ghost use Rattle.jx_tagtree.specs.Header.{to_come};
ghost use Rattle.jx_packet_header.specs.Words.{size};
ghost use Rattle.jx_packet_header.specs.Parts.{cut, width};
ghost use Rattle.jx_packet_header.specs.Scan.{or_bits, scan_parts};
ghost use Rattle.jx_packet_header.specs.Frame.{frame};
ghost use Rattle.jx_packet_header.specs.Said.{Refuses, PartsSaid};

use crate::words::read_number;
use crate::{HeadFault, HeaderPart};
use jx_base::{Style, ends_segment};
use jx_tagtree::BitReader;

/// How many binary digits a number has.
#[tactic(auto, using(crate::proofs::PutLemmas::zeros_few))]
pub(crate) fn digits(number: u32) -> u32
    ensures value { result ≡ size number }
    ensures few { result ≤ 32 }
{
    32 - number.leading_zeros()
}

/// How many bits the length of a part takes (T.800 B.10.7).
pub(crate) fn length_width(lblock: u128, passes: u16) -> u128
    requires { lblock < 2 ^ 127 }
    ensures value { result ≡ width lblock passes }
    ensures few { result ≤ lblock + 31 }
{
    lblock + u128::from(digits(u32::from(passes)).saturating_sub(1))
}

/// How many of `left` passes, from `first` on, lie in the first's segment.
pub(crate) fn first_run(style: Style, first: u16, left: u16) -> u16
    requires some { 1 ≤ left }
    requires few { first + left < 2 ^ 16 }
    ensures some { 1 ≤ result }
    ensures within { result ≤ left }
    ensures cut { cut style.bits first left ≡ result ∷ cut style.bits (first + result) (left - result) }
{
    if left == 1 || ends_segment(style, first) {
        return 1;
    }
    1 + first_run(style, first + 1, left - 1)
}

/// Takes the lengths of a block's passes, `count` from `first` on, and appends their parts.
pub(crate) fn read_parts(
    style: Style,
    lblock: u128,
    block: u32,
    first: u16,
    count: u16,
    bits: &mut BitReader<'_>,
    parts: &mut Vec<HeaderPart>,
) -> Result<(), HeadFault>
    requires lblock { lblock < 2 ^ 127 }
    requires few { first + count < 2 ^ 16 }
    ensures ok { OnOk result (PartsSaid (scan_parts lblock block first (cut style.bits first count) (to_come bits.old)) parts.old.items parts.new.items (to_come bits.new)) }
    ensures frame { OnOk result (frame bits.new ≡ frame bits.old) }
    ensures err { IfErr result (λ e. Refuses e (or_bits (scan_parts lblock block first (cut style.bits first count) (to_come bits.old)))) }
{
    let mut at = first;
    let mut left = count;
    while left > 0 {
        let passes = first_run(style, at, left);
        let length = match read_number(length_width(lblock, passes), bits) {
            Ok(length) => length,
            Err(fault) => return Err(fault),
        };
        let part = HeaderPart {
            block,
            first: at,
            passes,
            length,
        };
        if parts.push(part).is_err() {
            return Err(HeadFault::NoMemory);
        }
        at += passes;
        left -= passes;
    }
    Ok(())
}
