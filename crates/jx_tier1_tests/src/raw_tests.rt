//! Raw bits.

ghost use Rattle.std.specs.Prelude.{◌<◌};

use crate::checks::{check, check_at, equal, equal_at};
use crate::samples::next;
use jx_base::NoMemory;
use jx_raw::{RawReader, RawWriter};
use std::alloc::Global;
use std::test::Fail;

/// The segment of some bits, the highest first.
fn written(alloc: Global, count: u32, bits: u32) -> Result<Vec<u8>, NoMemory>
    requires { count < 32 }
{
    let mut writer = RawWriter::new(alloc);
    for i in (0..count).rev() {
        writer.bit(bits >> i & 1 == 1)?;
    }
    writer.finish()
}

/// The segment of as many bits, of which about one in eight is 0.
fn drawn(alloc: Global, count: u64) -> Result<Vec<u8>, NoMemory> {
    let mut writer = RawWriter::new(alloc);
    let mut x: u64 = count;
    for _ in 0..count {
        x = next(x);
        writer.bit(x >> 33 & 7 != 0)?;
    }
    writer.finish()
}

#[test]
fn vectors(rt: HostRuntime) -> Result<(), Fail> {
    let cases: [(u32, u32, &[u8]); 5] = [
        (3, 0b101, &[0xA0]),
        (8, 0xFF, &[0xFF, 0x00]),
        (9, 0x1FF, &[0xFF, 0x40]),
        (15, 0x7FFF, &[0xFF, 0x7F]),
        (0, 0, &[]),
    ];
    for (count, bits, want) in cases {
        check(&rt, count < 32);
        let bytes = written(rt.alloc(), count, bits)?;
        equal_at(&rt, &count, bytes.as_slice(), want);
        let mut reader = RawReader::new(&bytes);
        for i in (0..count).rev() {
            equal_at(&rt, &(i, count), reader.bit(), bits >> i & 1 == 1);
        }
    }
    Ok(())
}

#[test]
fn lists_of_many_lengths(rt: HostRuntime) -> Result<(), Fail> {
    for count in [1, 7, 16, 17, 100, 1000, 3000] {
        let bytes = drawn(rt.alloc(), count)?;
        let mut reader = RawReader::new(&bytes);
        equal(&rt, reader.looked(), 0);
        let mut x: u64 = count;
        for i in 0..count {
            x = next(x);
            equal_at(&rt, &(i, count), reader.bit(), x >> 33 & 7 != 0);
        }
    }
    Ok(())
}

#[test]
fn ends(rt: HostRuntime) {
    let mut reader = RawReader::new(&[0xFF, 0x00]);
    for _ in 0..8 {
        check(&rt, reader.bit());
    }
    equal(&rt, reader.looked(), 1);
    for _ in 0..7 {
        check(&rt, !reader.bit());
    }
    equal(&rt, reader.looked(), 2);
    check(&rt, reader.bit());
    equal(&rt, reader.looked(), 2);
}
