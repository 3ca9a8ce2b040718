//! Workers that a wrong block stops.

use crate::checks::{equal, given};
use crate::pool_tests::{MANY, MOST, comes_to, run};
use jx_io::Gate;
use std::sync::atomic::AtomicU64;
use std::sync::atomic::Ordering::SeqCst;
use std::test::Fail;

/// Holds the wrong block until so many others have entered, and each of these until the wrong one has left.
#[derive(Drop)]
struct Stopping {
    wrong: u32,
    others: u64,
    entered: AtomicU64,
    left: AtomicU64,
    missed: AtomicU64,
}

impl Stopping {
    fn new(wrong: u32, others: u64) -> Stopping {
        Stopping {
            wrong,
            others,
            entered: AtomicU64::new(0),
            left: AtomicU64::new(0),
            missed: AtomicU64::new(0),
        }
    }

    fn hold(&self, until: &AtomicU64, least: u64) {
        if !comes_to(until, least, MANY) {
            self.missed.store(1, SeqCst);
        }
    }
}

impl Gate for Stopping {
    fn begin(&self, _blocks: u32) {}

    fn enter(&self, block: u32) {
        if block == self.wrong {
            self.hold(&self.entered, self.others);
        } else {
            self.entered.fetch_add(1, SeqCst);
            self.hold(&self.left, 1);
        }
    }

    fn leave(&self, block: u32) {
        if block == self.wrong {
            self.left.fetch_add(1, SeqCst);
        }
    }
}

// All workers are inside a block when one of them is found wrong, whichever: none enters another one, of 900.
#[test]
fn a_wrong_block_stops_the_others(rt: HostRuntime) -> Result<(), Fail> {
    for wrong in 0..4_u32 {
        let gate = Stopping::new(wrong, 3);
        let limits = (4, 64, MOST);
        let (lines, _) = given(run(&rt, rt.alloc(), 900, 0, wrong, false, limits, &gate))?;
        equal(&rt, gate.missed.load(SeqCst), 0);
        equal(&rt, gate.entered.load(SeqCst), 3);
        equal(&rt, gate.left.load(SeqCst), 1);
        equal(&rt, lines.len(), wrong as usize + 1);
    }
    Ok(())
}
