//! What clap finds in the words of the command line.

ghost use Rattle.std.specs.Prelude.{◌≡◌, ◌≢◌, [], IfOk, Err, codes, map, string_bytes, true, unwrap_or};
ghost use Rattle.std.specs.Str.{bytes_eq};
ghost use Rattle.clap.specs.Words.{app_of, fault_of, first_value, found_of, is_simple_and_free};
ghost use Rattle.jx_cli.specs.MakeFound.{texts_of};
ghost use Rattle.jx_cli.specs.Words.{flag_of, limit_in, said_of, text_of};

use crate::WordsFault;
use clap::error::ErrorKind;
use clap::{ArgMatches, Command};
use jx_options::OptionName;

/// The text that was found under a name, else a default.
pub(crate) fn text_of<'a>(matches: &ArgMatches<'a>, name: &str, default: &'a str) -> &'a str
    ensures { result.now ≡ text_of (first_value (found_of matches.now)) name.now default.entry.now }
{
    match matches.get_str(name) {
        Some(text) => text,
        None => default,
    }
}

/// The text of an option; where it isn't among the words clap gives the one that stands for it.
pub(crate) fn said_of<'a>(matches: &ArgMatches<'a>, option: OptionName) -> &'a str
    ensures { result.now ≡ said_of (first_value (found_of matches.now)) option }
{
    text_of(matches, option.text(), "")
}

/// Whether a flag was found.
pub(crate) fn flag_of(matches: &ArgMatches<'_>, option: OptionName) -> bool
    ensures { result ≡ flag_of (first_value (found_of matches.now)) option }
{
    said_of(matches, option) == "true"
}

/// The most bytes that an input may have; none where the text is no such number.
pub(crate) fn limit_in(matches: &ArgMatches<'_>) -> Option<u32>
    ensures { result ≡ limit_in (first_value (found_of matches.now)) }
{
    OptionName::LimitBytes.number(said_of(matches, OptionName::LimitBytes))
}

/// What clap finds in words for a command, of which the first is its name.
pub(crate) fn matches_in<'a>(
    command: Command<'a>,
    words: &'a [String],
) -> Result<ArgMatches<'a>, WordsFault>
    requires simple { is_simple_and_free (app_of command) ≡ true }
    ensures taken { IfOk result (λ _. fault_of (app_of command.entry) (map string_bytes words.entry.now) ≡ []) }
    ensures found { IfOk result (λ m. first_value (found_of m) ≡ texts_of (app_of command.entry) (map string_bytes words.entry.now)) }
    ensures refused { result ≡ Err WordsFault.Words → fault_of (app_of command.entry) (map string_bytes words.entry.now) ≢ [] }
{
    match command.try_get_matches_from(words) {
        Ok(matches) => Ok(matches),
        Err(error) => match error.kind() {
            ErrorKind::OutOfMemory => Err(WordsFault::NoMemory),
            _ => Err(WordsFault::Words),
        },
    }
}
