//! What stands among the words of the command line.
ghost use Rattle.std.specs.Prelude.{◌≡◌, IfOk, drop, map, option_map, slice_get, string_bytes};
ghost use Rattle.jx_messages.specs.Names.{has_value, is_flag_named, inputs_in, is_option, name_in, names, names_flag, names_make, names_same, own_value, stands_alone, takes_value, value_among, value_in, writes_nowhere};

use jx_options::OptionName;
use std::alloc::{AllocError, Global};

/// Whether an option has this name and stands alone.
fn is_flag_named(option: OptionName, name: &[u8]) -> bool
    ensures { result ≡ is_flag_named name.now option }
{
    option.is_flag() && option.text().as_bytes() == name
}

/// Whether some option has this name and stands alone.
fn names_flag(name: &[u8]) -> bool
    ensures { result ≡ names_flag name.now }
{
    OptionName::all()
        .iter()
        .any(|option| is_flag_named(*option, name))
}

/// Whether a word is an option.
fn is_option(word: &str) -> bool
    ensures { result ≡ is_option word.now }
{
    let bytes = word.as_bytes();
    bytes.len() >= 2 && bytes[0] == b'-' && bytes[1] == b'-'
}

/// Whether a word is an option without a value.
fn stands_alone(word: &str) -> bool
    ensures { result ≡ stands_alone word.now }
{
    let bytes = word.as_bytes();
    bytes.len() >= 2 && bytes[0] == b'-' && bytes[1] == b'-' && names_flag(&bytes[2..])
}

/// Whether an option has a value of its own, behind `=`.
fn has_value(word: &str) -> bool
    ensures { result ≡ has_value word.now }
{
    word.as_bytes().iter().any(|byte| *byte == b'=')
}

/// Whether the word behind an option is its value.
fn takes_value(word: &str) -> bool
    ensures { result ≡ takes_value word.now }
{
    !stands_alone(word) && !has_value(word)
}

/// The name of a number among some words, of which the first one may be an option's value.
fn name_among(words: &[String], skip: bool, number: usize) -> Option<&str>
    ensures { option_map (λ name. name.now) result ≡ slice_get (names skip (map string_bytes words.now)) number }
{
    let (first, rest) = words.split_first()?;
    let word = first.as_str();
    if skip {
        return name_among(rest, false, number);
    }
    if word == "--" {
        return rest.get(number).map(|name| name.as_str());
    }
    if is_option(word) {
        return name_among(rest, takes_value(word), number);
    }
    if number == 0 {
        return Some(word);
    }
    name_among(rest, false, number - 1)
}

/// The name of a number among the words behind the command: 0 for the input, 1 for the output.
pub(crate) fn name_at(words: &[String], number: usize) -> &str
    ensures { result.now ≡ name_in (map string_bytes words.now) number }
{
    if words.len() >= 2 {
        if let Some(name) = name_among(&words[2..], false, number) {
            return name;
        }
    }
    if number == 0 {
        "the input"
    } else {
        "the output"
    }
}

/// Whether the command is `make`.
pub(crate) fn names_make(words: &[String]) -> bool
    ensures { result ≡ names_make (map string_bytes words.now) }
{
    if words.len() < 2 {
        return false;
    }
    words[1].as_str() == "make"
}

/// Whether the command is `same`.
fn names_same(words: &[String]) -> bool
    ensures { result ≡ names_same (map string_bytes words.now) }
{
    if words.len() < 2 {
        return false;
    }
    words[1].as_str() == "same"
}

/// Whether the command writes no file.
pub(crate) fn writes_nowhere(words: &[String]) -> bool
    ensures { result ≡ writes_nowhere (map string_bytes words.now) }
{
    if words.len() < 2 {
        return false;
    }
    let word = words[1].as_str();
    names_make(words) || word == "boxes" || names_same(words) || word == "show"
}

/// The files that are read.
pub(crate) fn inputs_of(alloc: Global, words: &[String]) -> Result<String, AllocError>
    ensures { IfOk result (λ text. string_bytes text ≡ inputs_in (map string_bytes words.now)) }
{
    let first = name_at(words, 0);
    if !names_same(words) {
        return String::from_str(alloc, first);
    }
    let second = name_at(words, 1);
    format!(in alloc; "{first} or {second}")
}

/// The value of an option in a word `--name=value`.
fn own_value<'a>(word: &'a str, option: &str) -> Option<&'a str>
    ensures { option_map (λ value. value.now) result ≡ own_value option.now word.entry.now }
{
    let (name, value) = word.split_once('=')?;
    if name == option {
        return Some(value);
    }
    None
}

/// The value of an option among some words, as `--name value` or `--name=value`.
fn value_among<'a>(words: &'a [String], option: &str) -> Option<&'a str>
    ensures { option_map (λ value. value.now) result ≡ value_among option.now (map string_bytes words.entry.now) }
{
    let (first, rest) = words.split_first()?;
    let word = first.as_str();
    if word == "--" {
        return None;
    }
    if word == option {
        return rest.first().map(|value| value.as_str());
    }
    match own_value(word, option) {
        Some(value) => Some(value),
        None => value_among(rest, option),
    }
}

/// The value of an option behind the command.
pub(crate) fn value_of<'a>(words: &'a [String], option: &str) -> Option<&'a str>
    ensures { option_map (λ value. value.now) result
        ≡ value_among option.now (drop 2 (map string_bytes words.entry.now)) }
{
    if words.len() < 2 {
        return None;
    }
    value_among(&words[2..], option)
}

/// The value of an option; `keep` where there is none.
pub(crate) fn asked<'a>(words: &'a [String], option: &str) -> &'a str
    ensures { result.now ≡ value_in (map string_bytes words.entry.now) option.now }
{
    match value_of(words, option) {
        Some(value) => value,
        None => "keep",
    }
}
