//! What the values of options say, but for orders, and the numbers of `make`.

ghost use Rattle.std.specs.Prelude.{◌≡◌, IfOk, Some, codes, option_map};
ghost use Rattle.jx_options.specs.Choices.{bytes_in};
ghost use Rattle.jx_options.specs.Names.{form_said, parts_said, reduce_said, rsiz_said, thread_count};
ghost use Rattle.jx_options.specs.Values.{precincts_said, seed_said, side_said, style_said};

use crate::numbers::{long_number_in, number_in};
use crate::options::PrecinctChoice;
use crate::precincts::precincts_in;
use crate::styles::style_in;
use crate::{FormChoice, PartChoice, RsizChoice};
use jx_base::{NoMemory, Style};
use std::alloc::Global;

/// The seeds that `make` takes.
pub static SEEDS: &str = "0 to 18446744073709551615";

/// The columns or rows that `make` takes.
pub static SIDES: &str = "1 to 4096";

/// Where a word says that tile-parts begin.
pub fn parts_said(word: &str) -> Option<PartChoice>
    ensures { result ≡ parts_said word.now }
{
    if word == "none" {
        return Some(PartChoice::None);
    }
    if word == "r" {
        return Some(PartChoice::Resolution);
    }
    if word == "l" {
        return Some(PartChoice::Layer);
    }
    if word == "c" {
        return Some(PartChoice::Component);
    }
    None
}

/// What a word says that is written of a JP2 file.
pub fn form_said(word: &str) -> Option<FormChoice>
    ensures { result ≡ form_said word.now }
{
    if word == "keep" {
        return Some(FormChoice::Keep);
    }
    if word == "j2k" {
        return Some(FormChoice::Codestream);
    }
    None
}

/// What profile a word has the file claim.
pub fn rsiz_said(word: &str) -> Option<RsizChoice>
    ensures { result ≡ rsiz_said word.now }
{
    if word == "zero" {
        return Some(RsizChoice::Zero);
    }
    if word == "keep" {
        return Some(RsizChoice::Keep);
    }
    None
}

/// How many of the highest resolutions a word leaves out, 0 to 32.
pub fn reduce_said(word: &str) -> Option<u8>
    ensures { result ≡ reduce_said word.now }
{
    if word == "0" {
        return Some(0);
    }
    match number_in(32, word) {
        Some(number) => Some(number as u8),
        None => None,
    }
}

/// How many threads a word asks for, 1 to 64; 0 for as many as the system has free.
pub fn thread_count(word: &str) -> Option<u32>
    ensures { result ≡ thread_count word.now }
{
    if word == "auto" {
        return Some(0);
    }
    number_in(64, word)
}

/// The precincts that a word asks for (ITU-T T.800, Table A.21).
pub fn precincts_said(alloc: Global, word: &str) -> Result<Option<PrecinctChoice>, NoMemory>
    ensures { IfOk result (λ said. option_map bytes_in said ≡ precincts_said word.now) }
{
    if word == "keep" {
        return Ok(Some(PrecinctChoice::Keep));
    }
    if word == "max" {
        return Ok(Some(PrecinctChoice::Max));
    }
    match precincts_in(alloc, word.as_bytes()) {
        Ok(Some(bytes)) => Ok(Some(PrecinctChoice::List(bytes))),
        Ok(None) => Ok(None),
        Err(NoMemory) => Err(NoMemory),
    }
}

/// The style that a word asks for (ITU-T T.800, Table A.19); in it none where each component keeps its own.
pub fn style_said(word: &str) -> Option<Option<Style>>
    ensures { result ≡ style_said word.now }
{
    if word == "keep" {
        return Some(None);
    }
    if word == "none" {
        return Some(Some(Style { bits: 0 }));
    }
    match style_in(word.as_bytes()) {
        Some(style) => Some(Some(style)),
        None => None,
    }
}

/// The seed that a word says: a number below 2^64 in decimal digits, without a sign or a leading zero.
pub fn seed_said(word: &str) -> Option<u64>
    ensures { result ≡ seed_said word.now }
{
    if word == "0" {
        return Some(0);
    }
    long_number_in(u64::MAX, word)
}

/// The columns or the rows that a word says, 1 to 4,096.
pub fn side_said(word: &str) -> Option<u32>
    ensures { result ≡ side_said word.now }
{
    number_in(4_096, word)
}
