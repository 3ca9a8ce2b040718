//! One packet (ITU-T T.800, B.9 and B.10).

ghost use Rattle.std.specs.Prelude.{◌≡◌, ◌≤◌, ◌<◌, ◌+◌, ◌^◌, length, IfOk, IfErr, OnOk};
ghost use Rattle.jx_packet_header.specs.Packet.{IsPacket};
ghost use Rattle.jx_packet_header.specs.Precinct.{IsState, all_blocks};
ghost use Rattle.jx_tile.specs.Faults.{HasCause};
ghost use Rattle.jx_tier2_reader.specs.Cuts.{IsCut, Breaks, BreaksHeader};
ghost use Rattle.jx_tier2_reader.specs.Reading.{HasBytes, cut_of, seen};

use crate::StreamFault;
use crate::data::{check_body, header_in, read_sop};
use jx_codestream::violated;
use jx_marker::rule_numbers;
use jx_packet_header::{HeadFault, HeaderPart, Precinct};
use jx_progression::PacketName;

/// What stands in one packet.
#[derive(Drop)]
pub(crate) struct Packet<'a> {
    /// How many bytes the packet has in the tile data.
    pub(crate) count: usize,
    /// How many bytes its header has, without SOP and EPH.
    pub(crate) used: usize,
    /// What it has of the blocks of its precinct.
    pub(crate) parts: Vec<HeaderPart>,
    /// Its coded bytes, those of each part after those of the part before.
    pub(crate) bytes: &'a [u8],
}

/// Reads the header of a layer's packet that begins at a place in the tile data. One that is none violates rule 26 or 27.
fn read_head(
    precinct: &mut Precinct,
    layer: u16,
    bytes: &[u8],
    at: usize,
) -> Result<(Vec<HeaderPart>, usize), StreamFault>
    requires state { IsState precinct.old }
    requires layer { precinct.old.layer ≡ layer }
    requires place { at < 2 ^ 32 }
    ensures ok { IfOk result (λ r. IsPacket bytes.now precinct.old r.0.items r.1 precinct.new) }
    ensures err { IfErr result (λ e. HasCause (BreaksHeader bytes.now at precinct.old) e) }
    ensures state { OnOk result (IsState precinct.new) }
    ensures blocks { OnOk result (length (all_blocks precinct.new.bands) ≡ length (all_blocks precinct.old.bands)) }
{
    match precinct.read_header(layer, bytes) {
        Ok(read) => Ok(read),
        Err(HeadFault::Bits) => Err(violated(rule_numbers::PACKET_HEADER, at)),
        Err(HeadFault::Planes) => Err(violated(rule_numbers::PLANES, at)),
        Err(HeadFault::NoMemory) => Err(StreamFault::NoMemory),
    }
}

/// Reads the packet of a name, with this number in its tile, at the front of the bytes that are left of a
/// tile-part, which begin at a place, and of the packed headers, where the tile has such. The precinct is
/// given up after an `Err`.
pub(crate) fn read_packet<'a>(
    precinct: &mut Precinct,
    name: PacketName,
    number: usize,
    packed: Option<&[u8]>,
    window: &'a [u8],
    at: usize,
) -> Result<Packet<'a>, StreamFault>
    requires state { IsState precinct.old }
    requires layer { precinct.old.layer ≡ name.layer }
    requires fits { at + length window.now < 2 ^ 32 }
    ensures ok { IfOk result (λ p. IsCut (seen packed.entry) window.now number precinct.old (cut_of name p precinct.new)) }
    ensures within { IfOk result (λ p. p.count ≤ length window.now) }
    ensures used { IfOk result (λ p. HasBytes (seen packed.entry) p.used) }
    ensures err { IfErr result (λ e. HasCause (Breaks (seen packed.entry) window.now at number precinct.old) e) }
    ensures state { OnOk result (IsState precinct.new) }
    ensures blocks { OnOk result (length (all_blocks precinct.new.bands) ≡ length (all_blocks precinct.old.bands)) }
{
    let sop = match read_sop(window, at, number) {
        Ok(sop) => sop,
        Err(fault) => return Err(fault),
    };
    let header = header_in(packed, window, sop);
    let (parts, used) = match read_head(precinct, name.layer, header, at) {
        Ok(read) => read,
        Err(fault) => return Err(fault),
    };
    let (front, length) = match check_body(packed, window, at, sop, used, &parts) {
        Ok(lengths) => lengths,
        Err(fault) => return Err(fault),
    };
    let coded = window.split_at(front).1;
    Ok(Packet {
        count: front + length,
        used,
        parts,
        bytes: coded.split_at(length).0,
    })
}
