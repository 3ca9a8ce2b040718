//! Which value hasn't the form that its option takes.

use crate::words::{name_at, names_make, value_of};
use jx_base::NoMemory;
use jx_options::{OptionName, SEEDS, SIDES, seed_said, side_said};
use std::alloc::{AllocError, Global};

/// A value that is none of its option's.
fn wrong(alloc: Global, value: &str, name: &str, form: &str) -> Result<String, AllocError> {
    format!(in alloc; "error: invalid value '{value}' for '{name}'\n  [{form}]")
}

/// A number that is none of these.
fn wrong_number(
    alloc: Global,
    value: &str,
    name: &str,
    values: &str,
) -> Result<String, AllocError> {
    let form = format!(in alloc; "a number from {values}, without a sign or leading zeros")?;
    wrong(alloc, value, name, form.as_str())
}

/// The value that an option has among the words, where it is none of the option's.
fn no_value<'a>(
    alloc: Global,
    words: &'a [String],
    option: OptionName,
) -> Result<Option<&'a str>, AllocError> {
    let name = option.text();
    let name = format!(in alloc; "--{name}")?;
    let Some(value) = value_of(words, name.as_str()) else {
        return Ok(None);
    };
    match option.is_value(alloc, value) {
        Ok(false) => Ok(Some(value)),
        Ok(true) => Ok(None),
        Err(NoMemory) => Err(AllocError),
    }
}

/// What is wrong with a value of an option.
fn option_text(alloc: Global, value: &str, option: OptionName) -> Result<String, AllocError> {
    let name = option.text();
    let kind = option.placeholder();
    let name = format!(in alloc; "--{name} <{kind}>")?;
    let form = option.form();
    if form.is_empty() {
        return wrong_number(alloc, value, name.as_str(), option.range());
    }
    wrong(alloc, value, name.as_str(), form)
}

/// What is wrong with the value of an option whose values are numbers.
fn number_text(alloc: Global, words: &[String]) -> Result<Option<String>, AllocError> {
    for option in OptionName::all() {
        if !option.range().is_empty() {
            if let Some(value) = no_value(alloc, words, *option)? {
                return Ok(Some(option_text(alloc, value, *option)?));
            }
        }
    }
    Ok(None)
}

/// What is wrong with the value of an option whose values have a form, the last one first.
fn form_text(alloc: Global, words: &[String]) -> Result<Option<String>, AllocError> {
    for option in OptionName::all().iter().rev() {
        if !option.form().is_empty() {
            if let Some(value) = no_value(alloc, words, *option)? {
                return Ok(Some(option_text(alloc, value, *option)?));
            }
        }
    }
    Ok(None)
}

/// What is wrong with the numbers of `make`.
fn make_text(alloc: Global, words: &[String]) -> Result<String, AllocError> {
    let seed = name_at(words, 0);
    if seed_said(seed).is_none() {
        return wrong_number(alloc, seed, "<SEED>", SEEDS);
    }
    let width = name_at(words, 1);
    if side_said(width).is_none() {
        return wrong_number(alloc, width, "<WIDTH>", SIDES);
    }
    wrong_number(alloc, name_at(words, 2), "<HEIGHT>", SIDES)
}

/// What is wrong with a value of words that clap takes.
pub(crate) fn value_text(alloc: Global, words: &[String]) -> Result<String, AllocError> {
    if names_make(words) {
        return make_text(alloc, words);
    }
    if let Some(text) = number_text(alloc, words)? {
        return Ok(text);
    }
    if let Some(text) = form_text(alloc, words)? {
        return Ok(text);
    }
    String::from_str(alloc, "error: a value isn't one that its option takes")
}
