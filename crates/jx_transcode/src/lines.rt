//! The line that a run says.

ghost use Rattle.std.specs.Prelude.{◌≡◌, IfOk, string_bytes};
ghost use Rattle.jx_transcode.specs.Outcome.{line_of};
ghost use Rattle.jx_transcode.specs.SameLines.{band_name, field_name, spot_line, unlike_line};

use crate::{Status, Unlike};
use jx_base::Band;
use jx_same::{Field, Spot};
use std::alloc::{AllocError, Global};

/// A field's name.
fn field_name(field: Field) -> &'static str
    ensures { result.now ≡ field_name field }
{
    match field {
        Field::Canvas => "canvas",
        Field::Components => "components",
        Field::Depth => "depth",
        Field::Sampling => "sampling",
        Field::Levels => "levels",
        Field::Wavelet => "wavelet",
        Field::Transform => "transform",
        Field::Quant => "quant",
        Field::Guard => "guard",
        Field::Shift => "shift",
        Field::Exponent => "exponent",
        Field::Mantissa => "mantissa",
        Field::Coef => "coef",
    }
}

/// A band's name (T.800, B.5).
fn band_name(band: Band) -> &'static str
    ensures { result.now ≡ band_name band }
{
    match band {
        Band::LL => "LL",
        Band::HL => "HL",
        Band::LH => "LH",
        Band::HH => "HH",
    }
}

/// Where a value stands.
fn spot_line(alloc: Global, spot: Spot) -> Result<String, AllocError>
    ensures { IfOk result (λ line. string_bytes line ≡ spot_line spot) }
{
    let tile = spot.tile;
    let comp = spot.comp;
    let res = spot.res;
    let band = band_name(spot.band);
    let x = spot.x;
    let y = spot.y;
    format!(in alloc; "{tile} {comp} {res} {band} {x} {y}\n")
}

/// The line of two files that aren't the same, or can't be compared.
fn unlike_line(alloc: Global, how: Unlike) -> Result<String, AllocError>
    ensures { IfOk result (λ line. string_bytes line ≡ unlike_line how) }
{
    match how {
        Unlike::Differs(difference) => {
            let field = field_name(difference.spot.field);
            let at = spot_line(alloc, difference.spot)?;
            format!(in alloc; "differs: {field} at {at}")
        }
        Unlike::SecondRule { number, place } => {
            format!(in alloc; "second: rule {number} at {place}\n")
        }
        Unlike::SecondLimit { number, found } => {
            format!(in alloc; "second: limit {number}: {found}\n")
        }
    }
}

/// The line that a status has. `blocks` and `bytes` are those of the output, after Done.
pub fn line_of(
    alloc: Global,
    status: Status,
    blocks: u32,
    bytes: usize,
) -> Result<String, AllocError>
    ensures { IfOk result (λ line. string_bytes line ≡ line_of status blocks bytes) }
{
    match status {
        Status::Done => format!(in alloc; "done: {blocks} blocks, {bytes} bytes\n"),
        Status::Words => String::from_str(alloc, "words\n"),
        Status::Rule { number, place } => format!(in alloc; "rule {number} at {place}\n"),
        Status::Limit { number, found } => format!(in alloc; "limit {number}: {found}\n"),
        Status::Choice { number, place } => format!(in alloc; "choice {number} at {place}\n"),
        Status::Block { number } => format!(in alloc; "block {number}\n"),
        Status::Unlike(how) => unlike_line(alloc, how),
        Status::ReadFault => String::from_str(alloc, "read fault\n"),
        Status::WriteFault => Ok(String::new(alloc)),
        Status::NoMemory => String::from_str(alloc, "no memory\n"),
    }
}
