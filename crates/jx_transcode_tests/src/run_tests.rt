//! Runs over files in memory: what is said, written and answered, and devices that fail.

use crate::bytes::spliced;
use crate::checks::{check, equal};
use crate::runs::{Devices, Left, Made, Want, ending, ends, holding, run_words};
use jx_io::{Files, Refused};
use jx_io_memory::{Call, MemFiles};
use jx_transcode::{Status, TapeEntry};
use std::test::Fail;

// A canvas of one sample, one tile, component and code-block, and an empty packet.
pub const SMALL: [u8; 82] = [
    0xFF, 0x4F, // SOC
    0xFF, 0x51, 0, 0x29, 0, 0, 0, 0, 0, 1, 0, 0, 0, 1, 0, 0, 0, 0, 0, 0, 0, 0, // SIZ
    0, 0, 0, 1, 0, 0, 0, 1, 0, 0, 0, 0, 0, 0, 0, 0, 0, 1, 7, 1, 1, //
    0xFF, 0x52, 0, 0x0C, 0, 0, 0, 1, 0, 0, 4, 4, 0, 1, // COD
    0xFF, 0x5C, 0, 4, 0x40, 0x40, // QCD
    0xFF, 0x90, 0, 0x0A, 0, 0, 0, 0, 0, 0x0F, 0, 1, // SOT
    0xFF, 0x93, 0, // SOD and the packet
    0xFF, 0xD9, // EOC
];

// What follows QCD once an SOP is put in.
const END: [u8; 23] = [
    0xFF, 0x90, 0, 0x0A, 0, 0, 0, 0, 0, 0x15, 0, 1, 0xFF, 0x93, 0xFF, 0x91, 0, 4, 0, 0, 0, 0xFF,
    0xD9,
];

pub const GOOD: [&str; 5] = ["jx", "transcode", "in", "out", "--sop"];

#[test]
fn sop_is_put_in(rt: HostRuntime) -> Result<(), Fail> {
    let left = run_words(&rt, &GOOD, &holding(&SMALL))?;
    equal(&rt, left.report.status, Status::Done);
    equal(&rt, left.report.status.number(), 0);
    equal(&rt, left.report.blocks, 1);
    let entry = TapeEntry {
        number: 0,
        worker: 0,
        seen: 0,
    };
    equal(&rt, left.report.tape.as_slice(), [entry].as_slice());
    equal(&rt, left.say.said(), "done: 1 blocks, 88 bytes\n");
    Ok(())
}

// What is written stands under its name, and is read there.
#[test]
fn the_output_is_read(rt: HostRuntime) -> Result<(), Fail> {
    let want = spliced(rt.alloc(), &SMALL[..65], &[(49, 1, &[2]), (65, 0, &END)])?;
    let mut left = run_words(&rt, &GOOD, &holding(&SMALL))?;
    check(&rt, is_under(&left, "out", &want));
    let (count, byte) = read_again(&mut left.files)?;
    equal(&rt, (count, byte), (88, 2));
    Ok(())
}

// Whether these bytes stand under this name.
pub fn is_under(left: &Left, name: &str, bytes: &[u8]) -> bool {
    match left.files.made() {
        Some(made) => made == (name, bytes),
        None => false,
    }
}

// How many bytes a read of the output gives, and the byte of the marks.
fn read_again(files: &mut MemFiles) -> Result<(usize, u8), Refused> {
    files.open("out")?;
    let mut found = [0u8; 100];
    let count = files.read(&mut found)?;
    Ok((count, found[49]))
}

#[test]
fn faults_of_the_files(rt: HostRuntime) -> Result<(), Fail> {
    for (call, nth, status, said, made) in [
        (
            Call::Open,
            1,
            Status::ReadFault,
            "read fault\n",
            Made::Nothing,
        ),
        (
            Call::Read,
            1,
            Status::ReadFault,
            "read fault\n",
            Made::Nothing,
        ),
        (
            Call::Read,
            2,
            Status::ReadFault,
            "read fault\n",
            Made::Nothing,
        ),
        (Call::Create, 1, Status::WriteFault, "", Made::Nothing),
        (Call::Write, 1, Status::WriteFault, "", Made::Length(0)),
        (Call::Write, 2, Status::WriteFault, "", Made::Length(65)),
        (Call::Write, 3, Status::WriteFault, "", Made::Length(86)),
        (Call::Finish, 1, Status::WriteFault, "", Made::Length(88)),
    ] {
        let devices = Devices {
            failing: &[(call, nth)],
            ..holding(&SMALL)
        };
        let want = Want {
            made,
            ..ending(status, said)
        };
        ends(&rt, &GOOD, &devices, &want)?;
    }
    Ok(())
}

// The line of a file that is written, and of one that is refused.
#[test]
fn the_line_is_not_said(rt: HostRuntime) -> Result<(), Fail> {
    equal(&rt, Status::WriteFault.number(), 8);
    for (length, blocks, made) in [(82, 1, Made::Length(88)), (81, 0, Made::Nothing)] {
        let devices = Devices {
            unsaid: Some(1),
            ..holding(&SMALL[..length])
        };
        let want = Want {
            blocks: Some(blocks),
            made,
            ..ending(Status::WriteFault, "")
        };
        ends(&rt, &GOOD, &devices, &want)?;
    }
    Ok(())
}
