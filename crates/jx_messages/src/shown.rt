//! Words as they may be shown: without control characters, which a terminal would obey.
ghost use Rattle.std.specs.Prelude.{◌≡◌, ◌++◌, ◌≤◌, ◌<◌, ◌∷◌, [], IfOk, OnOk, map, string_bytes, encode_utf8_all, flat_map, chars};
ghost use Rattle.jx_messages.specs.Shown.{digit_of, shown, shown_all, shown_char};

use std::alloc::{AllocError, Global};

/// A hexadecimal digit.
fn digit_of(value: u32) -> char
    requires { value < 16 }
    ensures { result ≡ digit_of value }
{
    match char::from_digit(value, 16) {
        Some(digit) => digit,
        None => unreachable!(),
    }
}

/// Appends a control character as a backslash, x and two digits, and every other one as it is.
fn push_shown(text: &mut String, c: char) -> Result<(), AllocError>
    ensures { OnOk result (string_bytes text.new ≡ string_bytes text.old ++ encode_utf8_all (shown_char c)) }
{
    if !c.is_control() {
        return text.push(c);
    }
    let code = u32::from(c);
    text.push('\\')?;
    text.push('x')?;
    text.push(digit_of(code / 16 % 16))?;
    text.push(digit_of(code % 16))
}

/// A word as it may be shown.
fn shown(alloc: Global, word: &str) -> Result<String, AllocError>
    ensures { IfOk result (λ text. string_bytes text ≡ shown word.now) }
{
    let mut text = String::new(alloc);
    for c in word.chars() {
        push_shown(&mut text, c)?;
    }
    Ok(text)
}

/// Words as they may be shown.
pub(crate) fn shown_words(alloc: Global, words: &[String]) -> Result<Vec<String>, AllocError>
    ensures { IfOk result (λ texts. map string_bytes texts.items ≡ shown_all (map string_bytes words.now)) }
{
    let mut texts = Vec::new(alloc);
    for word in words {
        let text = shown(alloc, word.as_str())?;
        texts.push(text)?;
    }
    Ok(texts)
}
