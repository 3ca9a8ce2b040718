//! The progression orders (ITU-T T.800, Table A.16): the words that ask for them, and their names.

ghost use Rattle.std.specs.Prelude.{◌≡◌, map, option_map};
ghost use Rattle.jx_options.specs.Choices.{order_in};
ghost use Rattle.jx_options.specs.Orders.{order_help, order_name, order_said, order_words};

use crate::options::OrderChoice;

/// The name of the order of a number; none where the number is reserved.
pub fn order_name(number: u8) -> Option<&'static str>
    ensures { option_map (λ name. name.now) result ≡ order_name number }
{
    let names: &'static [&'static str] = &["LRCP", "RLCP", "RPCL", "PCRL", "CPRL"];
    match names.get(usize::from(number)) {
        Some(name) => Some(*name),
        None => None,
    }
}

/// The order that a word asks for.
pub fn order_said(word: &str) -> Option<OrderChoice>
    ensures { option_map order_in result ≡ order_said word.now }
{
    if word == "keep" {
        return Some(OrderChoice::Keep);
    }
    if word == "lrcp" {
        return Some(OrderChoice::Order(0));
    }
    if word == "rlcp" {
        return Some(OrderChoice::Order(1));
    }
    if word == "rpcl" {
        return Some(OrderChoice::Order(2));
    }
    if word == "pcrl" {
        return Some(OrderChoice::Order(3));
    }
    if word == "cprl" {
        return Some(OrderChoice::Order(4));
    }
    None
}

/// All words that ask for one.
pub(crate) fn order_words() -> &'static [&'static str]
    ensures { map (λ word. word.now) result.now ≡ order_words }
{
    &["keep", "lrcp", "rlcp", "rpcl", "pcrl", "cprl"]
}

/// What the help says of them.
pub(crate) fn order_help() -> &'static str
    ensures { result.now ≡ order_help }
{
    "keep, lrcp, rlcp, rpcl, pcrl or cprl\ndefault keep; as in --order rpcl"
}
