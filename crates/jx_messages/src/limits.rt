//! The limits in words.
ghost use Rattle.std.specs.Prelude.{◌≡◌};
ghost use Rattle.jx_messages.specs.Limits.{limit_row, limit_words};

use jx_base::MOST_BLOCKS;

/// A limit: what is counted, and the most that the program takes.
#[derive(Clone, Copy)]
pub(crate) struct LimitText {
    pub(crate) what: &'static str,
    pub(crate) most: u128,
    /// What to ask instead, behind a colon; nothing where nothing helps.
    pub(crate) advice: &'static str,
}

fn bound(what: &'static str, most: u128, advice: &'static str) -> LimitText
    ensures { limit_row result.what.now result.most result.advice.now ≡ limit_row what.now most advice.now }
{
    LimitText { what, most, advice }
}

/// A limit in words, 1 or 3 to 7, by what was found; there is no limit 2.
#[tactic(auto, unfolding(crate::specs::Limits::limit_words, crate::specs::Limits::limit_row))]
pub(crate) fn limit_text(number: u8, found: u128) -> LimitText
    ensures { limit_row result.what.now result.most result.advice.now ≡ limit_words number found }
{
    match number {
        // one byte more is read than may be there
        1 => bound(
            "bytes or more in the file",
            found.saturating_sub(1),
            ":\n    --limit-bytes N takes up to N bytes, 4294967295 at most",
        ),
        3 => bound("tiles", 65_535, ""),
        4 => bound("bit-planes of a band", 74, ""),
        5 => bound("code-blocks", u128::from(MOST_BLOCKS), ""),
        6 => bound("packets in the file", 4_194_304, ""),
        _ => bound(
            "packets in the file that is asked for",
            4_194_304,
            ":\n    use larger precincts or fewer layers",
        ),
    }
}
