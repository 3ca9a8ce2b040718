//! The choices in words, with what to ask instead.
ghost use Rattle.std.specs.Prelude.{◌≡◌, IfOk, string_bytes};
ghost use Rattle.jx_messages.specs.Choices.{causal_words, choice_words, crowded_words, cut_words, entries_words, factor_words, header_words, levels_words, long_words, misfit_words, no_rule_words, option_words, own_words, size_words, stray_words, zero_words};
ghost use Rattle.jx_messages.specs.Profile.{profile_words};

use crate::profile::profile_text;
use std::alloc::{AllocError, Global};

/// A style with another vertically causal bit than a block can have.
fn causal(alloc: Global, place: u32, style: &str) -> Result<String, AllocError>
    ensures { IfOk result (λ text. string_bytes text ≡ causal_words place style.now) }
{
    format!(in alloc;
        "jx: --style {style} would turn causal on or off for code-block {place},\n    whose coding passes end within a bit-plane, where that can't be done:\n    add or drop causal, or use --style keep\n    (T.800 D.7; choice 1)\n"
    )
}

/// Precincts that would change the size of code-blocks.
fn size(alloc: Global, place: u32, list: &str) -> Result<String, AllocError>
    ensures { IfOk result (λ text. string_bytes text ≡ size_words place list.now) }
{
    format!(in alloc;
        "jx: --precincts {list} would change the size of code-blocks\n    in tile {place}, and with it the coded bytes: use keep, or\n    the input's own exponents where its precincts cut its code-blocks, and\n    elsewhere such as don't cut them (T.800 B.7; choice 2)\n"
    )
}

/// What can be had at the first component and resolution at which sizes would be others.
#[tactic(auto, unfolding(crate::specs::Choices::own_words))]
fn own(alloc: Global, comp: u16, res: u8, across: u8, down: u8) -> Result<String, AllocError>
    ensures { IfOk result (λ text. string_bytes text ≡ own_words comp res across down) }
{
    format!(in alloc;
        "resolution {res}\n    of component {comp}: use the input's own {across}x{down} there, or keep for all;"
    )
}

/// Precincts that would change the size of code-blocks, with what can be had.
fn size_in(alloc: Global, place: u32, own: &str, list: &str) -> Result<String, AllocError>
    ensures { IfOk result (λ text. string_bytes text ≡ misfit_words place own.now list.now) }
{
    format!(in alloc;
        "jx: --precincts {list} would change the size of code-blocks\n    in tile {place}, and with it the coded bytes, first at {own}\n    others fit where neither cuts a code-block (T.800 B.7; choice 2)\n"
    )
}

/// The same of the exponents that the input has at a resolution of a component.
pub(crate) fn misfit_text(
    alloc: Global,
    place: u32,
    comp: u16,
    res: u8,
    across: u8,
    down: u8,
    list: &str,
) -> Result<String, AllocError>
    ensures { IfOk result (λ text. string_bytes text ≡ misfit_words place (own_words comp res across down) list.now) }
{
    let own = own(alloc, comp, res, across, down)?;
    size_in(alloc, place, own.as_str(), list)
}

/// Where a choice about headers stands.
#[tactic(auto, unfolding(crate::specs::Choices::header_words))]
fn header(alloc: Global, place: u32) -> Result<String, AllocError>
    ensures { IfOk result (λ text. string_bytes text ≡ header_words place) }
{
    if place == 0 {
        return String::from_str(alloc, "the main header or tile 0");
    }
    format!(in alloc; "tile {place}")
}

/// A precinct exponent that would be 0 in some header.
fn zero_in(alloc: Global, at: &str, list: &str) -> Result<String, AllocError>
    ensures { IfOk result (λ text. string_bytes text ≡ zero_words at.now list.now) }
{
    format!(in alloc;
        "jx: --precincts {list} would give {at}\n    an exponent 0 above resolution 0, the lowest:\n    use 1 or more behind the first item\n    (T.800 A.6.1, Table A.21; choice 3)\n"
    )
}

/// A precinct exponent that would be 0.
fn zero(alloc: Global, place: u32, list: &str) -> Result<String, AllocError>
    ensures { IfOk result (λ text. string_bytes text ≡ zero_words (header_words place) list.now) }
{
    let at = header(alloc, place)?;
    zero_in(alloc, at.as_str(), list)
}

/// Too many coding passes in a layer.
fn crowded(alloc: Global, place: u32, rule: &str) -> Result<String, AllocError>
    ensures { IfOk result (λ text. string_bytes text ≡ crowded_words place rule.now) }
{
    format!(in alloc;
        "jx: --layers {rule} would put over 164 coding passes\n    of code-block {place} into one layer, more than a packet header can tell:\n    use more layers, as in --layers planes:8 (T.800 B.10.6; choice 4)\n"
    )
}

/// Too many tile-parts.
fn cut(alloc: Global, place: u32, by: &str) -> Result<String, AllocError>
    ensures { IfOk result (λ text. string_bytes text ≡ cut_words place by.now) }
{
    format!(in alloc;
        "jx: --tile-parts {by} would cut tile {place} into over 255 tile-parts:\n    use another --order, another --tile-parts, or none\n    (T.800 A.4.2; choice 5)\n"
    )
}

/// Words that are no rule for layers.
fn no_rule(alloc: Global, rule: &str) -> Result<String, AllocError>
    ensures { IfOk result (λ text. string_bytes text ≡ no_rule_words rule.now) }
{
    format!(in alloc;
        "jx: --layers {rule} is no rule for layers: use keep, one,\n    cuts:N,N.. with 1 to 32 rising passes from 1 to 220,\n    or planes:N with N from 1 to 74 (choice 6)\n"
    )
}

/// A tile-part that would be too long.
fn long(alloc: Global, place: u32) -> Result<String, AllocError>
    ensures { IfOk result (λ text. string_bytes text ≡ long_words place) }
{
    format!(in alloc;
        "jx: a tile-part of tile {place} would have 4 GiB or more:\n    cut the tile by --tile-parts r, l or c (T.800 A.4.2; choice 7)\n"
    )
}

/// A subsampling factor that would be too large.
fn factor(alloc: Global, place: u32, count: &str) -> Result<String, AllocError>
    ensures { IfOk result (λ text. string_bytes text ≡ factor_words place count.now) }
{
    format!(in alloc;
        "jx: --reduce {count} would give component {place}\n    a subsampling factor over 255: use a smaller number\n    (T.800 A.5.1, Table A.9; choice 8)\n"
    )
}

/// More resolutions than some header has above the lowest.
fn levels_in(alloc: Global, at: &str, count: &str) -> Result<String, AllocError>
    ensures { IfOk result (λ text. string_bytes text ≡ levels_words at.now count.now) }
{
    format!(in alloc;
        "jx: --reduce {count} would leave out more resolutions than {at}\n    has above the lowest: use a smaller number\n    (T.800 A.6.1, Table A.15; choice 9)\n"
    )
}

/// More resolutions than there are above the lowest.
fn levels(alloc: Global, place: u32, count: &str) -> Result<String, AllocError>
    ensures { IfOk result (λ text. string_bytes text ≡ levels_words (header_words place) count.now) }
{
    let at = header(alloc, place)?;
    levels_in(alloc, at.as_str(), count)
}

/// More tile-parts than TLM can name.
fn entries(alloc: Global, by: &str) -> Result<String, AllocError>
    ensures { IfOk result (λ text. string_bytes text ≡ entries_words by.now) }
{
    format!(in alloc;
        "jx: --tile-parts {by} would cut the tiles into over 2795776\n    tile-parts in all, more than --tlm can name: use another --tile-parts, or\n    none, or leave out --tlm (T.800 A.7.1; choice 10)\n"
    )
}

/// Packets that no volume has.
fn stray(alloc: Global, place: u32, volumes: &str) -> Result<String, AllocError>
    ensures { IfOk result (λ text. string_bytes text ≡ stray_words place volumes.now) }
{
    format!(in alloc;
        "jx: --poc {volumes} has no volume for some packet of tile {place},\n    has a volume that begins above the components, or keeps more entries than\n    a POC segment holds: end with a volume of all, as 0,0,65535,33,16384,rpcl,\n    or use --poc none (T.800 A.6.6; choice 12)\n"
    )
}

/// The option that a choice is about.
#[tactic(auto, unfolding(crate::specs::Choices::option_words))]
pub(crate) fn option_of(number: u8) -> &'static str
    ensures { result.now ≡ option_words number }
{
    match number {
        1 => "--style",
        2 => "--precincts",
        3 => "--precincts",
        4 => "--layers",
        5 => "--tile-parts",
        6 => "--layers",
        7 => "--tile-parts",
        8 => "--reduce",
        9 => "--reduce",
        10 => "--tile-parts",
        12 => "--poc",
        _ => "--rsiz",
    }
}

/// A choice in words, 1 to 12, with the value of the option that it is about.
#[tactic(auto, unfolding(crate::specs::Choices::choice_words))]
pub(crate) fn choice_text(
    alloc: Global,
    number: u8,
    place: u32,
    value: &str,
) -> Result<String, AllocError>
    ensures { IfOk result (λ text. string_bytes text ≡ choice_words number place value.now) }
{
    match number {
        1 => causal(alloc, place, value),
        2 => size(alloc, place, value),
        3 => zero(alloc, place, value),
        4 => crowded(alloc, place, value),
        5 => cut(alloc, place, value),
        6 => no_rule(alloc, value),
        7 => long(alloc, place),
        8 => factor(alloc, place, value),
        9 => levels(alloc, place, value),
        10 => entries(alloc, value),
        12 => stray(alloc, place, value),
        _ => profile_text(alloc, place),
    }
}
