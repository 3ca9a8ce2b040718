//! Scan, labels and segments.

use crate::checks::{check, equal, equal_at, given};
use jx_base::Band;
use jx_tier1_plain::{Grid, place};
use jx_tier1_specs::{Coef, Segments, refinement_label, sign_label, significance_label};
use std::test::Fail;

// A block 5 wide and 6 high: columns 0 to 4 of rows 0 to 3, then columns 0 to 4 of rows 4 and 5.
#[test]
fn scan_of_five_by_six(rt: HostRuntime) {
    for (n, x, y) in [
        (0, 0, 0),
        (1, 0, 1),
        (3, 0, 3),
        (4, 1, 0),
        (19, 4, 3),
        (20, 0, 4),
        (21, 0, 5),
        (22, 1, 4),
        (29, 4, 5),
    ] {
        check(&rt, n < 30);
        let found = place(5, 6, n);
        equal_at(&rt, &n, found.0, x);
        equal_at(&rt, &n, found.1, y);
    }
}

// Rows of tables D.1, D.3 and D.4.
#[test]
fn labels_of_the_tables(rt: HostRuntime) {
    equal(&rt, significance_label(Band::LL, 2, 0, 0), 8);
    equal(&rt, significance_label(Band::LH, 1, 2, 4), 7);
    equal(&rt, significance_label(Band::HL, 0, 2, 0), 8);
    equal(&rt, significance_label(Band::HL, 2, 0, 0), 4);
    equal(&rt, significance_label(Band::LL, 0, 0, 2), 2);
    equal(&rt, significance_label(Band::HH, 1, 0, 2), 7);
    equal(&rt, significance_label(Band::HH, 2, 2, 0), 2);
    equal(&rt, sign_label(1, -1), (11, false));
    equal(&rt, sign_label(0, 0), (9, false));
    equal(&rt, sign_label(0, -1), (10, true));
    equal(&rt, sign_label(-1, -1), (13, true));
    equal(&rt, refinement_label(false, false), 14);
    equal(&rt, refinement_label(false, true), 15);
    equal(&rt, refinement_label(true, false), 16);
}

// A new grid is zeros; a place that is set is alone in it.
#[test]
fn one_place_is_set(rt: HostRuntime) -> Result<(), Fail> {
    let mut grid = given(Grid::new(rt.alloc(), 3, 2))?;
    let coef = Coef {
        negative: true,
        bits: 5,
        planes: 3,
    };
    check(&rt, grid.width() == 3 && grid.height() == 2);
    grid.set(2, 1, coef);
    check(&rt, grid.width() == 3 && grid.height() == 2);
    equal(&rt, grid.at(2, 1), coef);
    equal(&rt, grid.at(1, 1).bits, 0);
    equal(&rt, grid.at(0, 0).planes, 0);
    Ok(())
}

// Segments come out in the order in which they were put in.
#[test]
fn segments_in_order(rt: HostRuntime) -> Result<(), Fail> {
    let mut segments = Segments::new(rt.alloc());
    given(segments.push(&[1, 2]))?;
    given(segments.push(&[3]))?;
    let lists = segments.as_slice();
    equal(&rt, lists.len(), 2);
    equal(&rt, lists[0].len(), 2);
    equal(&rt, lists[1].len(), 1);
    Ok(())
}
