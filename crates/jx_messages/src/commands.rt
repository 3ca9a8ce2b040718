//! What clap says of words: help, usage, and what is wrong with them.
ghost use Rattle.std.specs.Prelude.{IfOk, IfSome, string_bytes};
ghost use Rattle.jx_messages.specs.Text.{EndsLine};

use crate::forms::value_text;
use clap::Error;
use clap::error::ErrorKind;
use jx_cli::command_tree;
use std::alloc::{AllocError, Global};

static USAGE: &str = "\
Usage: jx transcode IN OUT [OPTIONS]
       jx make SEED WIDTH HEIGHT
       jx boxes IN [--limit-bytes N]
       jx same A B [--threads N] [--limit-bytes N]
       jx show IN [--json] [--limit-bytes N]

jx --help says what they do, jx transcode --help all options.";

/// A text with one line feed at its end.
fn ended(alloc: Global, text: &str) -> Result<String, AllocError>
    ensures { IfOk result (λ text. EndsLine (string_bytes text)) }
{
    let line = match text.strip_suffix('\n') {
        Some(line) => line,
        None => text,
    };
    format!(in alloc; "{line}\n")
}

/// A text without clap's own usage.
fn without_usage(text: &str) -> &str {
    let mut what = text;
    if let Some((before, _)) = what.split_once("\n\nUsage:") {
        what = before;
    }
    if let Some((before, _)) = what.split_once("\n\nFor more information") {
        what = before;
    }
    what
}

/// What is wrong, without clap's own usage, and then the usage.
fn mistake(alloc: Global, text: &str) -> Result<String, AllocError>
    ensures { IfOk result (λ text. EndsLine (string_bytes text)) }
{
    let what = without_usage(text);
    let text = format!(in alloc; "{what}\n\n{USAGE}")?;
    ended(alloc, text.as_str())
}

/// What is wrong with words that clap takes, and then the usage.
fn wrong_value(alloc: Global, words: &[String]) -> Result<String, AllocError>
    ensures { IfOk result (λ text. EndsLine (string_bytes text)) }
{
    let text = value_text(alloc, words)?;
    mistake(alloc, text.as_str())
}

/// What clap says of these words: the help or the version as they are, a mistake with the usage.
fn told(alloc: Global, error: &Error) -> Result<String, AllocError>
    ensures { IfOk result (λ text. EndsLine (string_bytes text)) }
{
    let text = format!(in alloc; "{error}")?;
    match error.kind() {
        ErrorKind::DisplayHelp | ErrorKind::DisplayVersion | ErrorKind::OutOfMemory => {
            ended(alloc, text.as_str())
        }
        _ => mistake(alloc, text.as_str()),
    }
}

/// The help or the version, where clap has these for the words.
///
/// # Errors
///
/// `AllocError` where memory is refused.
pub(crate) fn shown_help(alloc: Global, words: &[String]) -> Result<Option<String>, AllocError>
    ensures { IfOk result (λ text. IfSome text (λ text. EndsLine (string_bytes text))) }
{
    let command = command_tree(alloc)?;
    let Err(error) = command.try_get_matches_from(words) else {
        return Ok(None);
    };
    match error.kind() {
        ErrorKind::DisplayHelp | ErrorKind::DisplayVersion => Ok(Some(told(alloc, &error)?)),
        ErrorKind::OutOfMemory => Err(AllocError),
        _ => Ok(None),
    }
}

/// Which of the words are wrong, and why.
///
/// # Errors
///
/// `AllocError` where memory is refused.
pub(crate) fn words_text(alloc: Global, words: &[String]) -> Result<String, AllocError>
    ensures { IfOk result (λ text. EndsLine (string_bytes text)) }
{
    if words.is_empty() {
        return mistake(
            alloc,
            "error: a word of the command line is no text (UTF-8)",
        );
    }
    let command = command_tree(alloc)?;
    match command.try_get_matches_from(words) {
        Ok(_) => wrong_value(alloc, words),
        Err(error) => told(alloc, &error),
    }
}
