//! Segments of over 64 KiB through both coders.

ghost use Rattle.std.specs.Prelude.{◌<◌};

use crate::checks::{equal, equal_at};
use crate::samples::next;
use jx_mq::{Contexts, MqDecoder, MqEncoder};
use jx_raw::{RawReader, RawWriter};
use std::alloc::Global;
use std::test::Fail;

const DECISIONS: u32 = 1_200_000;

const BITS: u32 = 600_000;

fn sum_of(bytes: &[u8]) -> u64 {
    let mut sum: u64 = 0;
    for byte in bytes {
        sum = sum.wrapping_add(u64::from(*byte));
    }
    sum
}

fn label_of(x: u64) -> u8
    ensures { result < 19 }
{
    ((x >> 50) % 19) as u8
}

/// The bit of a decision: 1 once in 2, 8, 100 or 10,000 times, by its label.
fn bit_of(x: u64, label: u8) -> bool {
    let most = match label % 4 {
        0 => 5_000,
        1 => 1_250,
        2 => 100,
        _ => 1,
    };
    (x >> 20) % 10_000 < most
}

fn coded(alloc: Global) -> Result<Vec<u8>, Fail> {
    let mut encoder = MqEncoder::new(alloc);
    let mut contexts = Contexts::new();
    let mut x: u64 = 1;
    for _ in 0..DECISIONS {
        x = next(x);
        let label = label_of(x);
        encoder.bit(&mut contexts, label, bit_of(x, label))?;
    }
    Ok(encoder.flush()?)
}

// These decisions reach all 47 rows of the table. The length and the sum of the bytes are those of a second program, which says
// so of the rows too.
#[test]
fn a_long_coded_segment(rt: HostRuntime) -> Result<(), Fail> {
    let bytes = coded(rt.alloc())?;
    equal(&rt, (bytes.len(), sum_of(&bytes)), (73_069, 9_313_987));
    let mut decoder = MqDecoder::new(&bytes);
    let mut contexts = Contexts::new();
    let mut x: u64 = 1;
    for i in 0..DECISIONS {
        x = next(x);
        let label = label_of(x);
        let read = decoder.bit(&mut contexts, label);
        equal_at(&rt, &i, read, bit_of(x, label));
    }
    Ok(())
}

// Of about eight bits one is 0, so many bytes are FF. The length and the sum are those of a second program.
#[test]
fn a_long_raw_segment(rt: HostRuntime) -> Result<(), Fail> {
    let mut writer = RawWriter::new(rt.alloc());
    let mut x: u64 = 1;
    for _ in 0..BITS {
        x = next(x);
        writer.bit(x >> 33 & 7 != 0)?;
    }
    let bytes = writer.finish()?;
    equal(&rt, (bytes.len(), sum_of(&bytes)), (77_482, 15_064_774));
    let mut reader = RawReader::new(&bytes);
    let mut x: u64 = 1;
    for i in 0..BITS {
        x = next(x);
        equal_at(&rt, &i, reader.bit(), x >> 33 & 7 != 0);
    }
    equal(&rt, reader.looked(), 77_482);
    Ok(())
}
