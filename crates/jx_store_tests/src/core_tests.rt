//! Worked runs on the sums and on the core.

use crate::checks::{check, equal};
use crate::works::{ALL_CLAIMED, full};
use jx_store::{Event, Reply, Sums};
use jx_store_plain::Core;
use std::process::Abort;
use std::test::Fail;

fn claimed(number: u32, seen: u32) -> Reply {
    Reply::Claimed { number, seen }
}

fn drained(number: u32) -> Reply {
    Reply::Drained { number }
}

fn claim_by(worker: u32) -> Event<u8> {
    Event::Claim { worker }
}

fn commit_by(worker: u32, number: u32, value: u8) -> Event<u8> {
    Event::Commit {
        worker,
        number,
        value,
    }
}

#[test]
fn sums_answer_what_a_store_asks(rt: HostRuntime) -> Result<(), Fail> {
    let sums = Sums::new(rt.alloc(), 3, &[5, 0, 20], 2, 10)?;
    equal(&rt, (sums.first(), sums.end(), sums.window()), (3, 6, 2));
    equal(
        &rt,
        (sums.load(3, 5), sums.load(3, 6), sums.load(5, 5)),
        (5, 25, 0),
    );
    equal(
        &rt,
        (sums.is_over(3, 4), sums.is_over(3, 5), sums.is_over(4, 4)),
        (false, true, false),
    );
    Ok(())
}

fn expect(rt: &impl Abort, core: &mut Core<u8>, event: Event<u8>, reply: Reply) {
    equal(rt, core.step(event), reply);
}

#[test]
fn the_core_keeps_its_window(rt: HostRuntime) -> Result<(), Fail> {
    let mut core = Core::new(rt.alloc(), 0, &[0, 0, 0], 2, 1)?;
    expect(&rt, &mut core, claim_by(0), claimed(0, 0));
    expect(&rt, &mut core, claim_by(1), claimed(1, 0));
    expect(&rt, &mut core, claim_by(0), full(2, 0));
    expect(&rt, &mut core, commit_by(1, 1, 11), Reply::Committed);
    expect(&rt, &mut core, Event::Drain, Reply::Nothing);
    expect(&rt, &mut core, commit_by(0, 0, 10), Reply::Committed);
    expect(&rt, &mut core, Event::Drain, drained(0));
    expect(&rt, &mut core, Event::Drain, drained(1));
    expect(&rt, &mut core, claim_by(0), claimed(2, 2));
    expect(&rt, &mut core, claim_by(1), ALL_CLAIMED);
    expect(&rt, &mut core, commit_by(1, 1, 12), Reply::Foreign);
    let tape = core.into_tape();
    equal(&rt, tape.len(), 2);
    check(
        &rt,
        tape[0].number == 0 && tape[0].worker == 0 && tape[0].seen == 0 && tape[0].named == 10,
    );
    check(
        &rt,
        tape[1].number == 1 && tape[1].worker == 1 && tape[1].seen == 0 && tape[1].named == 11,
    );
    Ok(())
}

#[test]
fn the_core_keeps_its_window_in_bytes(rt: HostRuntime) -> Result<(), Fail> {
    let mut even = Core::new(rt.alloc(), 0, &[5, 5, 5], 3, 10)?;
    expect(&rt, &mut even, claim_by(0), claimed(0, 0));
    expect(&rt, &mut even, claim_by(0), claimed(1, 0));
    expect(&rt, &mut even, claim_by(0), full(2, 0));
    expect(&rt, &mut even, commit_by(0, 0, 1), Reply::Committed);
    expect(&rt, &mut even, Event::Drain, drained(0));
    expect(&rt, &mut even, claim_by(0), claimed(2, 1));
    Ok(())
}

#[test]
fn the_core_takes_a_large_job_alone(rt: HostRuntime) -> Result<(), Fail> {
    let mut large = Core::new(rt.alloc(), 0, &[20, 5], 2, 10)?;
    expect(&rt, &mut large, claim_by(0), claimed(0, 0));
    expect(&rt, &mut large, claim_by(0), full(1, 0));
    expect(&rt, &mut large, commit_by(0, 0, 1), Reply::Committed);
    expect(&rt, &mut large, Event::Drain, drained(0));
    expect(&rt, &mut large, claim_by(0), claimed(1, 1));
    Ok(())
}
