//! The store with a lock, by 64 workers on its widest window.

ghost use Rattle.std.specs.Prelude.{◌≡◌};

use crate::checks::{check, check_at};
use crate::lock_thread_tests::by_threads;
use crate::works::{Gated, Limits, Line, Plains, Wanted, expect_whole, many};
use std::process::Abort;
use std::test::Fail;

/// The widest window, and the most workers, of a store that is never full by sizes.
pub const WIDEST: Limits = Limits {
    first: 7,
    window: 1_024,
    most: 1_048_576,
    workers: 64,
};

/// Holds the first number back until so many others were made as fill the window.
pub fn hold_first<'j>(jobs: &'j [u32]) -> Gated<'j>
    ensures jobs { result.plains.jobs.now ≡ jobs.now }
    ensures first { result.plains.first ≡ 7 }
{
    let plains = Plains {
        first: WIDEST.first,
        jobs,
    };
    let wanted = Wanted {
        begun: 0,
        made: 1_023,
    };
    Gated::new(plains, WIDEST.first + 1, wanted, 20_000_000)
}

/// Whether the tape is whole and in order, and the window was filled while the first number was held back.
pub fn expect_filled(rt: &impl Abort, lines: &[Line]) -> Result<(), Fail> {
    expect_whole(rt, lines, WIDEST, 3000);
    let holder = lines.first().ok_or("first")?.worker;
    for line in lines.iter().take(1024).skip(1) {
        check_at(
            rt,
            &line.number,
            line.seen == WIDEST.first && line.worker != holder,
        );
    }
    Ok(())
}

// One worker alone would wait for the others in vain.
#[test]
fn the_widest_window_of_a_lock_is_filled(rt: HostRuntime) -> Result<(), Fail> {
    let alloc = rt.alloc();
    let (jobs, sizes) = many(alloc, WIDEST.first, 3000, 1)?;
    let maker = hold_first(jobs.as_slice());
    let lines = by_threads(
        &rt,
        alloc,
        jobs.as_slice(),
        sizes.as_slice(),
        WIDEST,
        &maker,
    )?;
    check(&rt, !maker.has_waited_in_vain());
    expect_filled(&rt, &lines)
}
