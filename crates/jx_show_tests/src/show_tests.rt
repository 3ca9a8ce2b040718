//! Codestreams and their lines.

ghost use Rattle.std.specs.Prelude.{IfSome};
ghost use Rattle.std.specs.List.{All};
ghost use Rattle.jx_base.specs.Sound.{IsSound};
ghost use Rattle.jx_codestream.specs.InRange.{StreamInRange};

use crate::checks::check;
use crate::hex::bytes_of;
use jx_base::Block;
use jx_codestream::{Stream, read_stream};
use jx_show::show_file;
use jx_tier2_reader::gather;
use std::alloc::Global;
use std::test::Fail;

// One place of one component in one tile, without levels; each code-block of 64 by 64; an empty packet.
const PLAIN: &str = "
    FF4F FF51 0029 0000 00000001 00000001 00000000 00000000 00000001 00000001 00000000 00000000 0001 07 01 01
    FF52 000C 00 00 0001 00 00 04 04 00 01 FF5C 0004 40 40
    FF90 000A 0000 0000000F 00 01 FF93 00 FFD9";

const PLAIN_LINES: &str = "file: codestream
profile: 0
size: 1 x 1
offset: 0, 0
tile size: 1 x 1
tile offset: 0, 0
tiles: 1
components: 1
depth: 8
sign: unsigned
sampling: 1 x 1
order: LRCP
layers: 1
component transform: no
SOP: no
EPH: no
levels: 0
wavelet: 5-3 reversible
code-block size: 64 x 64
code-block style: none
precincts: 32768 x 32768
quantization: none
guard bits: 2
packets: 1
code-blocks: 1
tile-parts: 1
PLT: no
PLM: no
PPM: no
PPT: no
TLM: no
comments: 0
coded bytes: 0
coded bytes of component 0: 0
";

// Two places in two tiles, three components of unlike samples; in the main header COD with precincts, SOP and EPH, QCD, COC and QCC of
// component 1, RGN of component 2, POC with two entries, and a comment.
const MAIN: &str = "
    FF4F FF51 002F 0000 00000002 00000001 00000000 00000000 00000001 00000001 00000000 00000000
    0003 07 01 01 8B 01 01 07 02 01
    FF52 000E 07 02 0001 00 01 04 03 2D 01 77 88 FF5C 0007 40 40 40 40 40
    FF53 0009 01 00 00 04 04 00 00 FF5D 0006 01 22 4000 FF5E 0005 02 00 03
    FF5F 0010 00 00 0001 01 03 02 01 00 0001 21 00 00 FF64 0006 0001 4A58";

// Tile 0: five empty packets with EPH. Tile 1: COD, COC, QCD, RGN and POC of its own; a packet with a byte, then in another tile-part
// PLT, a comment and an empty packet.
const TILES: &str = "
    FF90 000A 0000 0000001D 00 01 FF93 00 FF92 00 FF92 00 FF92 00 FF92 00 FF92
    FF90 000A 0001 00000042 00 02 FF52 000C 00 00 0001 00 00 04 04 00 01 FF53 0009 01 00 00 03 03 00 01
    FF5C 0004 20 48 FF5E 0005 02 00 04 FF5F 0009 00 00 0001 21 00 03 FF93 C0 21 03
    FF90 000A 0001 0000001D 01 02 FF58 0004 00 01 FF64 0006 0001 4A58 FF93 00 FFD9";

const MAIN_LINES: &str = "file: codestream
profile: 0
size: 2 x 1
offset: 0, 0
tile size: 1 x 1
tile offset: 0, 0
tiles: 2
components: 3
depth: 8
sign: unsigned
sampling: 1 x 1
depth of component 1: 12
sign of component 1: signed
sampling of component 2: 2 x 1
layers: 1
component transform: no
SOP: yes
EPH: yes
levels: 1
wavelet: 5-3 reversible
code-block size: 64 x 32
code-block style: bypass terminate causal segment
precincts: 128 x 128, 256 x 256
quantization: none
guard bits: 2
levels of component 1: 0
wavelet of component 1: 9-7 irreversible
code-block size of component 1: 64 x 64
code-block style of component 1: none
precincts of component 1: 32768 x 32768
quantization of component 1: scalar expounded
guard bits of component 1: 1
region shift of component 2: 3
progression 0: RPCL, layers below 1, resolutions from 0 below 1, components from 0 below 3
progression 1: LRCP, layers below 1, resolutions from 1 below 33, components from 0
packets: 7
code-blocks: 5
tile-parts: 1
PLT: yes
PLM: no
PPM: no
PPT: no
TLM: no
comments: 2
coded bytes: 1
coded bytes of component 0: 1
coded bytes of component 1: 0
coded bytes of component 2: 0
";

const TILE_LINES: &str = "tile-parts of tile 1: 2
layers of tile 1: 1
component transform of tile 1: no
SOP of tile 1: no
EPH of tile 1: no
levels of tile 1: 0
wavelet of tile 1: 5-3 reversible
code-block size of tile 1: 64 x 64
code-block style of tile 1: none
precincts of tile 1: 32768 x 32768
quantization of tile 1: none
guard bits of tile 1: 1
levels of component 1 of tile 1: 0
wavelet of component 1 of tile 1: 5-3 reversible
code-block size of component 1 of tile 1: 32 x 32
code-block style of component 1 of tile 1: none
precincts of component 1 of tile 1: 32768 x 32768
region shift of component 2 of tile 1: 4
progression 0 of tile 1: PCRL, layers below 1, resolutions from 0 below 33, components from 0
";

// A file's headers and blocks, where it isn't refused.
#[tactic(auto, using(jx_codestream::proofs::RangeLemmas::read_in_range))]
fn input<'a>(alloc: Global, file: &'a [u8]) -> Option<(Stream, Vec<Block<'a>>)>
    ensures range { IfSome result (λ r. StreamInRange r.0) }
    ensures sound { IfSome result (λ r. All IsSound r.1.items) }
{
    if file.len() > 1 << 28 {
        return None;
    }
    let Ok(stream) = read_stream(alloc, file) else {
        return None;
    };
    let Ok(blocks) = gather(alloc, file, &stream) else {
        return None;
    };
    Some((stream, blocks))
}

// The lines of a file in two parts; none where it is refused.
fn lines(alloc: Global, front: &str, rest: &str) -> Option<String> {
    let file = joined(alloc, front, rest)?;
    let bytes = bytes_of(alloc, file.as_str())?;
    let (stream, blocks) = input(alloc, &bytes)?;
    show_file(alloc, None, "", &stream, &blocks, false).ok()
}

// Two texts, one behind the other.
fn joined(alloc: Global, front: &str, rest: &str) -> Option<String> {
    format!(in alloc; "{front}{rest}").ok()
}

#[test]
fn a_line_for_each_fact(rt: HostRuntime) -> Result<(), Fail> {
    let found = lines(rt.alloc(), PLAIN, "");
    let want = joined(rt.alloc(), PLAIN_LINES, "");
    check(&rt, found.is_some());
    check(&rt, found == want);
    Ok(())
}

#[test]
fn headers_of_components_and_tiles(rt: HostRuntime) -> Result<(), Fail> {
    let found = lines(rt.alloc(), MAIN, TILES);
    let want = joined(rt.alloc(), MAIN_LINES, TILE_LINES);
    check(&rt, found.is_some());
    check(&rt, found == want);
    Ok(())
}
