//! Words that ask for help or the version, which is no refusal.
ghost use Rattle.std.specs.Prelude.{◌≡◌, true, IfOk, IfSome, map, string_bytes};
ghost use Rattle.jx_messages.specs.Help.{asks, asks_among, asks_help, is_command, is_help};
ghost use Rattle.jx_messages.specs.Text.{EndsLine};

use crate::commands::shown_help;
use std::alloc::{AllocError, Global};

/// Whether a word behind a command asks for its help.
fn is_help(word: &str) -> bool
    ensures { result ≡ is_help word.now }
{
    word == "--help" || word == "-h"
}

/// Whether a word in a command's place asks for help or the version.
fn asks(word: &str) -> bool
    ensures { result ≡ asks word.now }
{
    is_help(word) || word == "--version" || word == "-V" || word == "help"
}

fn is_command(word: &str) -> bool
    ensures { result ≡ is_command word.now }
{
    word == "transcode" || word == "make" || word == "boxes" || word == "same" || word == "show"
}

/// Whether one of some words behind a command asks for its help, before `--`.
fn asks_among(words: &[String]) -> bool
    ensures { result ≡ asks_among (map string_bytes words.now) }
{
    let Some((first, rest)) = words.split_first() else {
        return false;
    };
    let word = first.as_str();
    if word == "--" {
        return false;
    }
    if is_help(word) {
        return true;
    }
    asks_among(rest)
}

/// Whether the words of a command line, the program's name among them, ask for help or the version.
fn asks_help(words: &[String]) -> bool
    ensures { result ≡ asks_help (map string_bytes words.now) }
{
    if words.len() < 2 {
        return false;
    }
    let word = words[1].as_str();
    asks(word) || (is_command(word) && asks_among(&words[2..]))
}

/// The help or the version, where the words of the command line ask for it: lines, of which the last one ends with a line feed too. Words
/// that ask for it and are wrong otherwise have none.
///
/// # Errors
///
/// `AllocError` where memory is refused.
pub fn help_of(alloc: Global, words: &[String]) -> Result<Option<String>, AllocError>
    ensures asked { IfOk result (λ text. IfSome text (λ _. asks_help (map string_bytes words.now) ≡ true)) }
    ensures lines { IfOk result (λ text. IfSome text (λ text. EndsLine (string_bytes text))) }
{
    if !asks_help(words) {
        return Ok(None);
    }
    shown_help(alloc, words)
}
