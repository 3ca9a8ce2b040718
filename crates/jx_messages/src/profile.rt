//! Why a profile can't be kept, in words.
ghost use Rattle.std.specs.Prelude.{◌≡◌, IfOk, string_bytes};
ghost use Rattle.jx_messages.specs.Profile.{coding_words, condition_words, picture_words, profile_words, unmet_words, written_words};

use std::alloc::{AllocError, Global};

/// The conditions 1 to 6, of SIZ and of which segments there are.
#[tactic(auto, unfolding(crate::specs::Profile::picture_words))]
fn picture(place: u32) -> &'static str
    ensures { result.now ≡ picture_words place }
{
    match place {
        1 => {
            "its picture is over 2048 by 1080,\n    or 4096 by 2160 for profile 4; that is the input's: use --rsiz zero"
        }
        2 => { "its picture or its tiles have offsets;\n    that is the input's: use --rsiz zero" }
        3 => { "it has more than one tile;\n    that is the input's: use --rsiz zero" }
        4 => {
            "its components aren't three of 12 bits,\n    without a sign and without subsampling;\n    that is the input's, or comes of --reduce: use --rsiz zero"
        }
        5 => { "it has a region of interest (RGN);\n    that is the input's: use --rsiz zero" }
        _ => {
            "its tile has a COD, COC, QCD or QCC of its own;\n    that is the input's: use --rsiz zero"
        }
    }
}

/// The conditions 7 to 14, of COD, COC, QCD and QCC.
#[tactic(auto, unfolding(crate::specs::Profile::coding_words))]
fn coding(place: u32) -> &'static str
    ensures { result.now ≡ coding_words place }
{
    match place {
        7 => { "its code-blocks aren't 32 by 32;\n    that is the input's: use --rsiz zero" }
        8 => { "its code-blocks have a style:\n    add --style none" }
        9 => {
            "its precincts aren't 128 by 128\n    at the lowest resolution and 256 by 256 above: add --precincts 7x7,8x8"
        }
        10 => {
            "its packets stand in another order:\n    add --order cprl, or for profile 4 and L levels\n    --poc 0,0,1,L,3,cprl/L,0,1,L+1,3,cprl"
        }
        11 => { "it has more than one layer:\n    add --layers one" }
        12 => {
            "its components don't have the same levels,\n    at most five, or one to six for profile 4;\n    that is the input's: use --rsiz zero"
        }
        13 => { "its wavelet isn't the 9-7 one;\n    that is the input's: use --rsiz zero" }
        _ => {
            "it hasn't one guard bit, or two for profile 4;\n    that is the input's: use --rsiz zero"
        }
    }
}

/// The conditions 15 and 16, of what is written beside.
#[tactic(auto, unfolding(crate::specs::Profile::written_words))]
fn written(place: u32) -> &'static str
    ensures { result.now ≡ written_words place }
{
    match place {
        15 => { "it hasn't a tile-part for each component:\n    add --tile-parts c" }
        _ => { "it has no TLM segment:\n    add --tlm" }
    }
}

/// A condition of profile 3 or 4 that fails, 1 to 16, with what to ask instead.
#[tactic(auto, unfolding(crate::specs::Profile::condition_words))]
fn condition(place: u32) -> &'static str
    ensures { result.now ≡ condition_words place }
{
    if place <= 6 {
        picture(place)
    } else if place <= 14 {
        coding(place)
    } else {
        written(place)
    }
}

fn unmet(alloc: Global, condition: &str) -> Result<String, AllocError>
    ensures { IfOk result (λ text. string_bytes text ≡ unmet_words condition.now) }
{
    format!(in alloc;
        "jx: --rsiz keep: the input claims profile 3 or 4, 2K or 4K digital cinema, and\n    the file would break it: {condition}\n    (T.800 A.5.1, Table A.10; choice 11)\n"
    )
}

/// A profile that can't be kept: the condition of profile 3 or 4 that fails, or 0 for another profile.
#[tactic(auto, unfolding(crate::specs::Profile::profile_words))]
pub(crate) fn profile_text(alloc: Global, place: u32) -> Result<String, AllocError>
    ensures { IfOk result (λ text. string_bytes text ≡ profile_words place) }
{
    if place == 0 {
        return String::from_str(
            alloc,
            "jx: --rsiz keep: the input claims a profile other than 3 and 4, 2K and 4K\n    digital cinema, and jx doesn't know what others ask for: use --rsiz zero\n    (T.800 A.5.1, Table A.10; choice 11)\n",
        );
    }
    unmet(alloc, condition(place))
}
