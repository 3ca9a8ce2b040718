//! Made files: their lengths, their blocks and their bytes, as a second program of the same text gives them.

use crate::checks::equal_at;
use crate::files::file_of;
use crate::gather_tests::facts_in;
use jx_generate::make;
use std::test::Fail;

// A number of all bytes and of their order (Fowler, Noll and Vo: FNV-1a).
fn hash_of(bytes: &[u8]) -> u64 {
    let mut hash = 0xCBF2_9CE4_8422_2325u64;
    for byte in bytes {
        hash = (hash ^ u64::from(*byte)).wrapping_mul(0x0100_0000_01B3);
    }
    hash
}

// Seed, width and height, then length, blocks and hash.
static FILES: [((u64, u32, u32), (usize, usize, u64)); 5] = [
    ((5, 1, 1), (1_101, 3, 0xF84A_8CE5_6B04_D5B0)),
    ((7, 65, 3), (4_453, 30, 0x986E_BCF1_3EE0_9E74)),
    ((u64::MAX, 200, 130), (10_018, 75, 0x234B_25F1_205A_A3D7)),
    ((0, 1, 300), (3_694, 27, 0x1A82_C50B_B5B8_3FCA)),
    ((1, 2048, 1536), (281_161, 2_316, 0x06B5_7600_15BB_0BED)),
];

#[test]
fn files(rt: HostRuntime) -> Result<(), Fail> {
    for (asked, want) in &FILES {
        let (seed, width, height) = *asked;
        if 1 <= width && width <= 4096 && 1 <= height && height <= 4096 {
            let bytes = make(rt.alloc(), seed, width, height).map_err(|_| "memory")?;
            let facts = facts_in(rt.alloc(), &bytes)?;
            equal_at(
                &rt,
                asked,
                (bytes.len(), facts.len(), hash_of(&bytes)),
                *want,
            );
        }
    }
    Ok(())
}

// A file of one sample with 252 bytes of packets: in each of 12 layers those of the three components' one block, and then
// those of 15 resolutions without blocks. In all layers but four the blocks' packets are empty too.
static WHOLE: [(&str, u16); 13] = [
    (
        "FF4F FF51 002F 0000 00000001 00000001 00000000 00000000 00000001 00000001 00000000 00000000",
        1,
    ),
    (
        "0003 070101 070101 070101 FF52 000C 00 00 000C 01 05 04 04 00 00 FF5C 0023 22",
        1,
    ),
    ("6F00", 16),
    ("FF64 0006 0001 6A78 FF90 000A 0000 0000010A 00 01 FF93", 1),
    (
        "C00480361A7B4CC0 108033 C00568B5D41B60BDB454713612DB5875",
        1,
    ),
    ("00", 51),
    ("00 00 C34D3E8F", 1),
    ("00", 51),
    ("CCDBA866E931F7 00 C0", 1),
    ("00", 51),
    ("00 00 C33DAC27", 1),
    ("00", 51),
    ("FFD9", 1),
];

#[test]
fn whole_file(rt: HostRuntime) -> Result<(), Fail> {
    let bytes = make(rt.alloc(), 2832, 1, 1).map_err(|_| "memory")?;
    let wanted = file_of(rt.alloc(), &WHOLE)?;
    equal_at(&rt, &2832, bytes.as_slice(), wanted.as_slice());
    Ok(())
}
