//! The store without a lock, by 64 workers on its widest window.

use crate::checks::check;
use crate::lock_rows::{WIDEST, expect_filled, hold_first};
use crate::ring_thread_tests::by_threads;
use crate::works::many;
use std::test::Fail;

// One worker alone would wait for the others in vain.
#[test]
fn the_widest_window_of_a_ring_is_filled(rt: HostRuntime) -> Result<(), Fail> {
    let alloc = rt.alloc();
    let (jobs, sizes) = many(alloc, WIDEST.first, 3000, 1)?;
    let maker = hold_first(jobs.as_slice());
    let lines = by_threads(
        &rt,
        alloc,
        jobs.as_slice(),
        sizes.as_slice(),
        WIDEST,
        &maker,
    )?;
    check(&rt, !maker.has_waited_in_vain());
    expect_filled(&rt, &lines)
}
