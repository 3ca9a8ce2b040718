//! What the words of `make` ask for.

ghost use Rattle.std.specs.Prelude.{◌≡◌, ◌≤◌, true, false, IfOk, IfSome, None, Err, length, map, string_bytes};
ghost use Rattle.clap.specs.Words.{first_value, found_of};
ghost use Rattle.jx_cli.specs.MakeFound.{are_said, is_asked, make_by, texts_of};
ghost use Rattle.jx_cli.specs.MakeWords.{MayBeMade, is_make, make, make_of, names_make};

use crate::WordsFault;
use crate::command::make;
use crate::given::{matches_in, text_of};
use clap::ArgMatches;
use jx_options::{seed_said, side_said};
use std::alloc::Global;
use std::marker::Model;

/// What the words of `make` ask for: the seed, and the columns and rows of the picture, each 1 to 4,096.
#[derive(Clone, Copy, Debug)]
pub struct Make {
    /// What the picture is made from, any number.
    pub seed: u64,
    /// The columns, 1 to 4,096.
    pub width: u32,
    /// The rows, 1 to 4,096.
    pub height: u32,
}

impl Model for Make {
    ghost use Rattle.jx_cli.specs.MakeWords.{Make};

    ghost Value = { Make };

    ghost view = { λ m. record { seed = m.seed; width = m.width; height = m.height } };

    ghost inverse = { λ m. record { seed = m.seed; width = m.width; height = m.height } };
}

/// The numbers that were found.
#[tactic(auto, unfolding(crate::specs::MakeFound::are_said, crate::specs::MakeFound::make_by))]
fn make_by(matches: &ArgMatches<'_>) -> Option<Make>
    ensures some { IfSome result (λ m. (are_said (first_value (found_of matches.now)) ≡ true) × (m ≡ make_by (first_value (found_of matches.now)))) }
    ensures none { result ≡ None → are_said (first_value (found_of matches.now)) ≡ false }
{
    let seed = seed_said(text_of(matches, "seed", ""))?;
    let width = side_said(text_of(matches, "width", ""))?;
    let height = side_said(text_of(matches, "height", ""))?;
    Some(Make {
        seed,
        width,
        height,
    })
}

/// What the words ask for, of which the first is the command's name.
fn make_in(alloc: Global, words: &[String]) -> Result<Make, WordsFault>
    ensures good { IfOk result (λ _. is_asked (map string_bytes words.now) ≡ true) }
    ensures value { IfOk result (λ m. m ≡ make_by (texts_of make (map string_bytes words.now))) }
    ensures words { result ≡ Err WordsFault.Words → is_asked (map string_bytes words.now) ≡ false }
{
    let command = match make(alloc) {
        Ok(command) => command,
        Err(_) => return Err(WordsFault::NoMemory),
    };
    let matches = match matches_in(command, words) {
        Ok(matches) => matches,
        Err(fault) => return Err(fault),
    };
    match make_by(&matches) {
        Some(numbers) => Ok(numbers),
        None => Err(WordsFault::Words),
    }
}

/// Whether the second word is the command's name.
fn names_make(words: &[String]) -> bool
    ensures names { result ≡ names_make (map string_bytes words.now) }
    ensures there { result ≡ true → 2 ≤ length words.now }
{
    if words.len() < 2 {
        return false;
    }
    words[1].as_str() == "make"
}

/// Reads the words of the command line, the program's name among them.
///
/// They name the command `make`, and clap reads the words behind it: the seed, a number below 2^64, and the columns and the rows of
/// the picture, each 1 to 4,096, in decimal digits without a sign or leading zeros.
///
/// # Errors
/// `Words` where they aren't good words, `NoMemory` where there was no memory.
#[tactic(auto, unfolding(crate::specs::MakeWords::is_make, crate::specs::MakeWords::make_of, crate::specs::MakeFound::are_said, crate::specs::MakeFound::make_by))]
pub fn read_make(alloc: Global, words: &[String]) -> Result<Make, WordsFault>
    ensures good { IfOk result (λ _. is_make (map string_bytes words.now) ≡ true) }
    ensures value { IfOk result (λ m. m ≡ make_of (map string_bytes words.now)) }
    ensures may { IfOk result (λ m. MayBeMade m) }
    ensures words { result ≡ Err WordsFault.Words → is_make (map string_bytes words.now) ≡ false }
{
    if !names_make(words) {
        return Err(WordsFault::Words);
    }
    make_in(alloc, words.split_at(1).1)
}
