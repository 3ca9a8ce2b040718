//! The arithmetic coder, by the sequence of ITU-T T.88, H.2.

ghost use Rattle.std.specs.Prelude.{◌<◌};

use crate::checks::{check, check_at, equal, equal_at};
use crate::samples::next;
use jx_base::NoMemory;
use jx_mq::{Contexts, MqDecoder, MqEncoder};
use std::alloc::Global;
use std::process::Abort;
use std::test::Fail;

/// The decisions of ITU-T T.88, Annex H.2, thirty-two in a word.
const DECISIONS: [u32; 8] = [
    0x0002_0051,
    0x0000_00C0,
    0x0352_872A,
    0xAAAA_AAAA,
    0x82C0_2000,
    0xFCD7_9EF6,
    0xBF7F_ED90,
    0x4F46_A3BF,
];

/// The bytes that the same annex codes them as.
const CODED: [u8; 28] = [
    0x84, 0xC7, 0x3B, 0xFC, 0xE1, 0xA1, 0x43, 0x04, 0x02, 0x20, 0x00, 0x00, 0x41, 0x0D, 0xBB, 0x86,
    0xF4, 0x31, 0x7F, 0xFF, 0x88, 0xFF, 0x37, 0x47, 0x1A, 0xDB, 0x6A, 0xDF,
];

/// Decision i of a word.
fn decision(word: u32, i: u32) -> bool
    requires { i < 32 }
{
    word >> (31 - i) & 1 == 1
}

/// The segment of these decisions, under one label.
fn coded(mut encoder: MqEncoder) -> Result<Vec<u8>, NoMemory> {
    let mut contexts = Contexts::new();
    for word in DECISIONS {
        for i in 0..32 {
            encoder.bit(&mut contexts, 1, decision(word, i))?;
        }
    }
    encoder.flush()
}

#[test]
fn published_vector(rt: HostRuntime) -> Result<(), Fail> {
    let bytes = coded(MqEncoder::new(rt.alloc()))?;
    equal(&rt, bytes.as_slice(), CODED.as_slice());
    published_vector_is_read(&rt);
    Ok(())
}

/// The bytes are read as the decisions.
fn published_vector_is_read(rt: &impl Abort) {
    let mut decoder = MqDecoder::new(&CODED);
    let mut contexts = Contexts::new();
    for word in DECISIONS {
        for i in 0..32 {
            let read = decoder.bit(&mut contexts, 1);
            equal_at(rt, &(i, word), read, decision(word, i));
        }
    }
    equal(rt, decoder.looked(), 28);
}

#[test]
fn ends(rt: HostRuntime) -> Result<(), Fail> {
    equal(
        &rt,
        MqEncoder::new(rt.alloc()).flush()?.as_slice(),
        [0xFF, 0x7F].as_slice(),
    );
    for room in [0, 1, 100] {
        equal(
            &rt,
            MqEncoder::with_room(rt.alloc(), room)?.flush()?.as_slice(),
            [0xFF, 0x7F].as_slice(),
        );
    }
    Ok(())
}

// No bytes are read as FF without an end.
#[test]
fn reads_past_the_end(rt: HostRuntime) {
    let mut none = MqDecoder::new(&[]);
    let mut ones = MqDecoder::new(&[0xFF, 0xFF]);
    let mut first = Contexts::new();
    let mut second = Contexts::new();
    for i in 0..1000u32 {
        let label = (i % 19) as u8;
        equal_at(
            &rt,
            &i,
            none.bit(&mut first, label),
            ones.bit(&mut second, label),
        );
    }
    equal(&rt, none.looked(), 0);
}

/// Whether the contexts start anew before a decision.
fn is_reset(x: u64) -> bool {
    x >> 40 & 0xFF == 7
}

/// The bit of a decision: mostly the one that its label's parity has.
fn bit_of(x: u64, label: u8) -> bool {
    (x >> 33 & 7 == 0) != (label % 2 == 0)
}

/// The segment of a list of decisions under all labels, with resets among them.
fn with_resets(alloc: Global, count: u32, seed: u64) -> Result<Vec<u8>, NoMemory> {
    let mut encoder = MqEncoder::new(alloc);
    let mut contexts = Contexts::new();
    let mut x = seed;
    for _ in 0..count {
        x = next(x);
        if is_reset(x) {
            contexts = Contexts::new();
        }
        let label = ((x >> 50) % 19) as u8;
        encoder.bit(&mut contexts, label, bit_of(x, label))?;
    }
    encoder.flush()
}

/// Whether a segment is read as that list.
fn is_read(bytes: &[u8], count: u32, seed: u64) -> bool {
    let mut decoder = MqDecoder::new(bytes);
    let mut contexts = Contexts::new();
    let mut x = seed;
    let mut same = true;
    for _ in 0..count {
        x = next(x);
        if is_reset(x) {
            contexts = Contexts::new();
        }
        let label = ((x >> 50) % 19) as u8;
        same = same && decoder.bit(&mut contexts, label) == bit_of(x, label);
    }
    same
}

#[test]
fn lists_of_many_lengths(rt: HostRuntime) -> Result<(), Fail> {
    for count in [0, 1, 2, 3, 10, 19, 50, 100, 200, 500, 1000, 2000, 3000] {
        for seed in [1, 2, 3, 4, 5] {
            let bytes = with_resets(rt.alloc(), count, seed)?;
            check_at(&rt, &(count, seed), is_read(&bytes, count, seed));
        }
    }
    Ok(())
}

#[test]
fn room_of_a_whole_segment(rt: HostRuntime) -> Result<(), Fail> {
    let bytes = coded(MqEncoder::with_room(rt.alloc(), 28)?)?;
    equal(&rt, bytes.len(), 28);
    equal(&rt, bytes.capacity(), 29);
    Ok(())
}
