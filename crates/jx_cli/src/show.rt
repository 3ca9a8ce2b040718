//! What the words of `show` ask for.

ghost use Rattle.std.specs.Prelude.{◌≡◌, ◌≤◌, true, false, IfOk, Err, is_some, length, map, string_bytes};
ghost use Rattle.clap.specs.Words.{first_value, found_of};
ghost use Rattle.jx_cli.specs.MakeFound.{texts_of};
ghost use Rattle.jx_cli.specs.ShowWords.{is_asked, is_show, names_show, show, show_by, show_of};
ghost use Rattle.jx_cli.specs.Words.{limit_in};
ghost use Rattle.jx_options.specs.Work.{MayBeLimit};

use crate::WordsFault;
use crate::command::show;
use crate::given::{flag_of, limit_in, matches_in, text_of};
use clap::ArgMatches;
use jx_options::OptionName;
use std::alloc::Global;
use std::marker::Model;

/// The name of a file, how it is told what its codestream is, and how many bytes the file may have.
#[derive(Drop)]
pub struct Show {
    /// The name of the file.
    pub name: String,
    /// Whether a JSON object is said in place of lines.
    pub json: bool,
    /// The most bytes that the file may have, 1 to 2^32 - 1.
    pub limit: u32,
}

impl Model for Show {
    ghost use Rattle.std.specs.String.{string_bytes};
    ghost use Rattle.jx_cli.specs.ShowWords.{Show};

    ghost Value = { Show };

    ghost view = { λ s. record { name = string_bytes s.name; json = s.json; limit = s.limit } };
}

impl Show {
    /// The name of the file.
    pub fn name(&self) -> &str
        ensures { result.now ≡ self.now.name }
    {
        self.name.as_str()
    }

    /// Whether a JSON object is said in place of lines.
    pub fn json(&self) -> bool
        ensures { result ≡ self.now.json }
    {
        self.json
    }

    /// The most bytes that the file may have, 1 to 2^32 - 1.
    pub fn limit(&self) -> u32
        ensures { result ≡ self.now.limit }
    {
        self.limit
    }
}

/// The name, the flag and the number that were found.
#[tactic(auto, unfolding(crate::specs::ShowWords::show_by))]
fn show_by(alloc: Global, matches: &ArgMatches<'_>) -> Result<Show, WordsFault>
    ensures good { IfOk result (λ _. is_some (limit_in (first_value (found_of matches.now))) ≡ true) }
    ensures value { IfOk result (λ asked. asked ≡ show_by (first_value (found_of matches.now))) }
    ensures words { result ≡ Err WordsFault.Words → is_some (limit_in (first_value (found_of matches.now))) ≡ false }
{
    let Some(limit) = limit_in(matches) else {
        return Err(WordsFault::Words);
    };
    let json = flag_of(matches, OptionName::Json);
    match String::from_str(alloc, text_of(matches, "in", "")) {
        Ok(name) => Ok(Show { name, json, limit }),
        Err(_) => Err(WordsFault::NoMemory),
    }
}

/// What is asked in words, of which the first is the command's name.
fn asked_in(alloc: Global, words: &[String]) -> Result<Show, WordsFault>
    ensures good { IfOk result (λ _. is_asked (map string_bytes words.now) ≡ true) }
    ensures value { IfOk result (λ asked. asked ≡ show_by (texts_of show (map string_bytes words.now))) }
    ensures words { result ≡ Err WordsFault.Words → is_asked (map string_bytes words.now) ≡ false }
{
    let command = match show(alloc) {
        Ok(command) => command,
        Err(_) => return Err(WordsFault::NoMemory),
    };
    match matches_in(command, words) {
        Ok(matches) => show_by(alloc, &matches),
        Err(fault) => Err(fault),
    }
}

/// Whether the second word is the command's name.
fn names_show(words: &[String]) -> bool
    ensures names { result ≡ names_show (map string_bytes words.now) }
    ensures there { result ≡ true → 2 ≤ length words.now }
{
    if words.len() < 2 {
        return false;
    }
    words[1].as_str() == "show"
}

/// Reads the words of the command line, the program's name among them: the name of the file of which it is told what it is, whether JSON
/// is said, and how many bytes the file may have.
///
/// They name the command `show`, and clap reads the words behind it: one name, `--json` or not, and `--limit-bytes` with 1 to 2^32 - 1, which
/// is 2^28 where it isn't there.
///
/// # Errors
/// `Words` where they aren't good words, `NoMemory` where there was no memory.
#[tactic(auto, unfolding(crate::specs::ShowWords::is_show, crate::specs::ShowWords::show_of))]
pub fn read_show(alloc: Global, words: &[String]) -> Result<Show, WordsFault>
    ensures good { IfOk result (λ _. is_show (map string_bytes words.now) ≡ true) }
    ensures value { IfOk result (λ asked. asked ≡ show_of (map string_bytes words.now)) }
    ensures may { IfOk result (λ asked. MayBeLimit asked.limit) }
    ensures words { result ≡ Err WordsFault.Words → is_show (map string_bytes words.now) ≡ false }
{
    if !names_show(words) {
        return Err(WordsFault::Words);
    }
    asked_in(alloc, words.split_at(1).1)
}
