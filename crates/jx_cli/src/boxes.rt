//! What the words of `boxes` ask for.

ghost use Rattle.std.specs.Prelude.{◌≡◌, ◌≤◌, true, false, IfOk, Err, is_some, length, map, string_bytes};
ghost use Rattle.clap.specs.Words.{first_value, found_of};
ghost use Rattle.jx_cli.specs.BoxesWords.{boxes, boxes_by, boxes_of, is_asked, is_boxes, names_boxes};
ghost use Rattle.jx_cli.specs.MakeFound.{texts_of};
ghost use Rattle.jx_cli.specs.Words.{limit_in};
ghost use Rattle.jx_options.specs.Work.{MayBeLimit};

use crate::WordsFault;
use crate::command::boxes;
use crate::given::{limit_in, matches_in, text_of};
use clap::ArgMatches;
use std::alloc::Global;
use std::marker::Model;

/// The name of a file, and how many bytes it may have.
#[derive(Drop)]
pub struct Boxes {
    /// The name of the file.
    pub name: String,
    /// The most bytes that it may have, 1 to 2^32 - 1.
    pub limit: u32,
}

impl Model for Boxes {
    ghost use Rattle.std.specs.String.{string_bytes};
    ghost use Rattle.jx_cli.specs.BoxesWords.{Boxes};

    ghost Value = { Boxes };

    ghost view = { λ b. record { name = string_bytes b.name; limit = b.limit } };
}

impl Boxes {
    /// The name of the file.
    pub fn name(&self) -> &str
        ensures { result.now ≡ self.now.name }
    {
        self.name.as_str()
    }

    /// The most bytes that it may have, 1 to 2^32 - 1.
    pub fn limit(&self) -> u32
        ensures { result ≡ self.now.limit }
    {
        self.limit
    }
}

/// The name and the number that were found.
#[tactic(auto, unfolding(crate::specs::BoxesWords::boxes_by))]
fn boxes_by(alloc: Global, matches: &ArgMatches<'_>) -> Result<Boxes, WordsFault>
    ensures good { IfOk result (λ _. is_some (limit_in (first_value (found_of matches.now))) ≡ true) }
    ensures value { IfOk result (λ asked. asked ≡ boxes_by (first_value (found_of matches.now))) }
    ensures words { result ≡ Err WordsFault.Words → is_some (limit_in (first_value (found_of matches.now))) ≡ false }
{
    let Some(limit) = limit_in(matches) else {
        return Err(WordsFault::Words);
    };
    match String::from_str(alloc, text_of(matches, "in", "")) {
        Ok(name) => Ok(Boxes { name, limit }),
        Err(_) => Err(WordsFault::NoMemory),
    }
}

/// What is asked in words, of which the first is the command's name.
fn asked_in(alloc: Global, words: &[String]) -> Result<Boxes, WordsFault>
    ensures good { IfOk result (λ _. is_asked (map string_bytes words.now) ≡ true) }
    ensures value { IfOk result (λ asked. asked ≡ boxes_by (texts_of boxes (map string_bytes words.now))) }
    ensures words { result ≡ Err WordsFault.Words → is_asked (map string_bytes words.now) ≡ false }
{
    let command = match boxes(alloc) {
        Ok(command) => command,
        Err(_) => return Err(WordsFault::NoMemory),
    };
    match matches_in(command, words) {
        Ok(matches) => boxes_by(alloc, &matches),
        Err(fault) => Err(fault),
    }
}

/// Whether the second word is the command's name.
fn names_boxes(words: &[String]) -> bool
    ensures names { result ≡ names_boxes (map string_bytes words.now) }
    ensures there { result ≡ true → 2 ≤ length words.now }
{
    if words.len() < 2 {
        return false;
    }
    words[1].as_str() == "boxes"
}

/// Reads the words of the command line, the program's name among them: the name of the file whose boxes are listed, and how many bytes it
/// may have.
///
/// They name the command `boxes`, and clap reads the words behind it: one name, and `--limit-bytes` with 1 to 2^32 - 1, which is 2^28 where
/// it isn't there.
///
/// # Errors
/// `Words` where they aren't good words, `NoMemory` where there was no memory.
#[tactic(auto, unfolding(crate::specs::BoxesWords::is_boxes, crate::specs::BoxesWords::boxes_of))]
pub fn read_boxes(alloc: Global, words: &[String]) -> Result<Boxes, WordsFault>
    ensures good { IfOk result (λ _. is_boxes (map string_bytes words.now) ≡ true) }
    ensures value { IfOk result (λ asked. asked ≡ boxes_of (map string_bytes words.now)) }
    ensures may { IfOk result (λ asked. MayBeLimit asked.limit) }
    ensures words { result ≡ Err WordsFault.Words → is_boxes (map string_bytes words.now) ≡ false }
{
    if !names_boxes(words) {
        return Err(WordsFault::Words);
    }
    asked_in(alloc, words.split_at(1).1)
}
