//! What two codestreams have where they differ.

use crate::checks::equal_at;
use crate::compare_tests::{
    COMP, EMPTY, FINER, GUARD, MINUS, ONE, PLAIN, PLUS, Parts, STEP, ZERO, answer,
};
use jx_same::{Answer, Value};
use std::test::Fail;

// What the first of two files has, and what the second has.
type Values = (Parts, Parts, Value, Value);

static VALUES: [Values; 6] = [
    (
        [ONE, COMP, PLAIN, STEP, PLUS],
        [ONE, COMP, PLAIN, STEP, MINUS],
        Value::Coef {
            negative: false,
            bits: 1,
            planes: 9,
        },
        Value::Coef {
            negative: true,
            bits: 1,
            planes: 9,
        },
    ),
    (
        [ONE, COMP, PLAIN, STEP, EMPTY],
        [ONE, COMP, PLAIN, STEP, ZERO],
        Value::Coef {
            negative: false,
            bits: 0,
            planes: 0,
        },
        Value::Coef {
            negative: false,
            bits: 0,
            planes: 9,
        },
    ),
    (
        [ONE, COMP, PLAIN, STEP, EMPTY],
        [ONE, "0001 07 02 01", PLAIN, STEP, EMPTY],
        Value::Factors { dx: 1, dy: 1 },
        Value::Factors { dx: 2, dy: 1 },
    ),
    (
        [ONE, COMP, PLAIN, STEP, EMPTY],
        [ONE, COMP, PLAIN, FINER, EMPTY],
        Value::Number(8),
        Value::Number(9),
    ),
    (
        [ONE, COMP, PLAIN, STEP, EMPTY],
        [ONE, COMP, PLAIN, GUARD, EMPTY],
        Value::Number(2),
        Value::Number(1),
    ),
    (
        [ONE, COMP, PLAIN, STEP, EMPTY],
        [ONE, "0001 87 01 01", PLAIN, STEP, EMPTY],
        Value::Number(7),
        Value::Number(135),
    ),
];

#[test]
fn values_of_both(rt: HostRuntime) -> Result<(), Fail> {
    for (number, (a, b, first, second)) in VALUES.iter().enumerate() {
        let Some(Answer::Differs(found)) = answer(&rt, rt.alloc(), 1, a, b) else {
            equal_at(&rt, &number, true, false);
            continue;
        };
        equal_at(&rt, &number, found.first, *first);
        equal_at(&rt, &number, found.second, *second);
    }
    Ok(())
}
