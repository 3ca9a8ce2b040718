//! Devices that take and give one byte at a time, and each of their calls failing.

use crate::bytes::{joined, put_all};
use crate::checks::equal;
use crate::run_tests::{GOOD, SMALL};
use crate::runs::{Devices, Made, Want, ending, ends, holding, made_of, rewrites};
use jx_io_memory::Call;
use jx_transcode::Status;
use std::alloc::{AllocError, Global};
use std::test::Fail;

const PLAIN: [&str; 4] = ["jx", "transcode", "in", "out"];

// Devices that take and give one byte at a time, of which this call fails.
fn slow_and_failing(call: &[(Call, u32)]) -> Devices<'_> {
    Devices {
        failing: call,
        most: Some(1),
        ..holding(&SMALL)
    }
}

#[test]
fn each_read_fails(rt: HostRuntime) -> Result<(), Fail> {
    let want = ending(Status::ReadFault, "read fault\n");
    for nth in 1..=83 {
        let failing = [(Call::Read, nth)];
        ends(&rt, &GOOD, &slow_and_failing(&failing), &want)?;
    }
    Ok(())
}

// What the device says of the input's length changes nothing, whether it says too little, too much, or what is true.
#[test]
fn any_length_may_be_said(rt: HostRuntime) -> Result<(), Fail> {
    let want = Want {
        made: Made::Length(88),
        ..ending(Status::Done, "done: 1 blocks, 88 bytes\n")
    };
    for (length, most) in [(0, 82), (82, 1), (5, 7), (81, 1_000), (1_000_000, 82)] {
        let devices = Devices {
            length: Some(length),
            most: Some(most),
            ..holding(&SMALL)
        };
        ends(&rt, &GOOD, &devices, &want)?;
    }
    Ok(())
}

// Of a file that is too long one byte more is read than it may have, and no more, whatever is said of its length.
#[test]
fn no_more_than_one_more_is_read(rt: HostRuntime) -> Result<(), Fail> {
    let words = ["jx", "transcode", "in", "out", "--limit-bytes", "81"];
    let status = Status::Limit {
        number: 1,
        found: 82,
    };
    let failing = [(Call::Read, 83)];
    for length in [0, 5, 81, 82, 1_000_000] {
        let devices = Devices {
            length: Some(length),
            ..slow_and_failing(&failing)
        };
        ends(&rt, &words, &devices, &ending(status, "limit 1: 82\n"))?;
    }
    Ok(())
}

// The bytes that were written before the call failed are the first ones of the file that is written where none fails.
#[test]
fn each_write_fails(rt: HostRuntime) -> Result<(), Fail> {
    let whole = made_of(&rt, &GOOD, &SMALL)?;
    equal(&rt, whole.len(), 88);
    for nth in 1..=88 {
        let failing = [(Call::Write, nth)];
        let want = Want {
            made: Made::Front(&whole, nth as usize - 1),
            ..ending(Status::WriteFault, "")
        };
        ends(&rt, &GOOD, &slow_and_failing(&failing), &want)?;
    }
    Ok(())
}

#[test]
fn each_other_call_fails(rt: HostRuntime) -> Result<(), Fail> {
    for (call, status, said, made) in [
        (Call::Open, Status::ReadFault, "read fault\n", Made::Nothing),
        (Call::Create, Status::WriteFault, "", Made::Nothing),
        (Call::Finish, Status::WriteFault, "", Made::Length(88)),
    ] {
        let failing = [(call, 1)];
        let want = Want {
            made,
            ..ending(status, said)
        };
        ends(&rt, &GOOD, &slow_and_failing(&failing), &want)?;
    }
    Ok(())
}

// The smallest codestream with 257 components, this segment before SOT, and these packets in a tile-part of so many bytes.
fn wide_with(
    alloc: Global,
    segment: &[u8],
    psot: u32,
    packets: &[u8],
) -> Result<Vec<u8>, AllocError> {
    let mut bytes = joined(alloc, &[&SMALL[..4], &[3, 0x29], &SMALL[6..40], &[1, 1]])?;
    for _ in 0..257 {
        put_all(&mut bytes, &[&[7, 1, 1]])?;
    }
    put_all(
        &mut bytes,
        &[
            &SMALL[45..65],
            segment,
            &[0xFF, 0x90, 0, 10, 0, 0],
            &psot.to_be_bytes(),
            &[0, 1, 0xFF, 0x93],
            packets,
            &[0xFF, 0xD9],
        ],
    )?;
    Ok(bytes)
}

// The same with a packet of 803 bytes for each component: its header, and 800 bytes of one coding pass.
fn heavy(alloc: Global) -> Result<Vec<u8>, AllocError> {
    let mut packets = Vec::new(alloc);
    for number in 0..257_u16 {
        put_packet(&mut packets, number)?;
    }
    wide_with(alloc, &[], 206_385, &packets)
}

fn put_packet(packets: &mut Vec<u8>, number: u16) -> Result<(), AllocError> {
    put_all(packets, &[&[0xEF, 0xEC, 0x80]])?;
    for _ in 0..400_u32 {
        put_all(packets, &[&number.to_le_bytes()])?;
    }
    Ok(())
}

// A tile-part of 206,385 bytes comes in four writes; where one fails, those before it were made.
#[test]
fn each_write_of_a_long_tile_part_fails(rt: HostRuntime) -> Result<(), Fail> {
    let bytes = heavy(rt.alloc())?;
    let line = "done: 257 blocks, 207220 bytes\n";
    rewrites(&rt, &PLAIN, &bytes, &bytes, line)?;
    for (nth, left, taped) in [
        (1, 0, 0),
        (2, 833, 0),
        (3, 66_693, 0),
        (4, 132_539, 0),
        (5, 198_385, 0),
        (6, 207_218, 257),
    ] {
        let devices = Devices {
            failing: &[(Call::Write, nth)],
            ..holding(&bytes)
        };
        let want = Want {
            taped: Some(taped),
            made: Made::Front(&bytes, left),
            ..ending(Status::WriteFault, "")
        };
        ends(&rt, &PLAIN, &devices, &want)?;
    }
    Ok(())
}
