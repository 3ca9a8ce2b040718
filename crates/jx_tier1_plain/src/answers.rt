//! What a grid of coefficients answers to the questions of coding passes.

ghost use Rattle.std.specs.Prelude.{◌≡◌, ◌+◌, ◌^◌, ◌/◌, ◌%◌, ◌<◌, ◌≤◌, ◌==◌};
ghost use Rattle.jx_tier1_specs.specs.Needs.{bit_at_place, first_of_four, answer_of};

use crate::Grid;
use jx_tier1_specs::{About, Question};

/// The bit of weight 2^`shift` of the coefficient at a place.
fn bit(grid: &Grid, shift: u8, x: u16, y: u32) -> bool
    requires { shift < 128 }
    ensures { result ≡ bit_at_place grid.now shift x y }
{
    (grid.get(x, y).bits >> shift) % 2 == 1
}

/// The number of the first of four places from one downwards that has the bit; 4 where none has.
fn first(grid: &Grid, shift: u8, x: u16, y: u16) -> u8
    requires { shift < 128 }
    ensures { result ≡ first_of_four grid.now shift x y }
{
    let y = u32::from(y);
    if bit(grid, shift, x, y) {
        return 0;
    }
    if bit(grid, shift, x, y + 1) {
        return 1;
    }
    if bit(grid, shift, x, y + 2) {
        return 2;
    }
    if bit(grid, shift, x, y + 3) { 3 } else { 4 }
}

/// What a grid answers to a question, whose shift is below 128.
pub fn answer(grid: &Grid, question: Question) -> bool
    requires { question.shift < 128 }
    ensures { result ≡ answer_of grid.now question }
{
    let shift = question.shift;
    match question.about {
        About::Bit(x, y) => bit(grid, shift, x, u32::from(y)),
        About::Sign(x, y) => grid.get(x, u32::from(y)).negative,
        About::Run(x, y) => first(grid, shift, x, y) < 4,
        About::High(x, y) => first(grid, shift, x, y) >= 2,
        About::Low(x, y) => first(grid, shift, x, y) % 2 == 1,
        About::Symbol(bit) => bit,
    }
}
