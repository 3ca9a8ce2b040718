//! What facts and values are called.

ghost use Rattle.std.specs.Prelude.{◌≡◌};
ghost use Rattle.jx_show.specs.Facts.{quantization_word, sign_word, wavelet_word};
ghost use Rattle.jx_show.specs.Text.{name_text, order_called, word_text};

use crate::fact::{Name, Word};
use jx_options::order_name;

/// What a fact is called.
#[tactic(auto, unfolding(crate::specs::Text::name_text))]
pub(crate) fn name_text(name: Name) -> &'static str
    ensures { result.now ≡ name_text name }
{
    match name {
        Name::Profile => "profile",
        Name::Size => "size",
        Name::Offset => "offset",
        Name::TileSize => "tile size",
        Name::TileOffset => "tile offset",
        Name::Tiles => "tiles",
        Name::Components => "components",
        Name::Depth => "depth",
        Name::Sign => "sign",
        Name::Sampling => "sampling",
        Name::Order => "order",
        Name::Layers => "layers",
        Name::Transform => "component transform",
        Name::Sop => "SOP",
        Name::Eph => "EPH",
        Name::Levels => "levels",
        Name::Wavelet => "wavelet",
        Name::BlockSize => "code-block size",
        Name::BlockStyle => "code-block style",
        Name::Precincts => "precincts",
        Name::Quantization => "quantization",
        Name::Guard => "guard bits",
        Name::Region => "region shift",
        Name::Progression => "progression",
        Name::Packets => "packets",
        Name::Blocks => "code-blocks",
        Name::Bytes => "coded bytes",
        Name::TileParts => "tile-parts",
        Name::Plt => "PLT",
        Name::Plm => "PLM",
        Name::Ppm => "PPM",
        Name::Ppt => "PPT",
        Name::Tlm => "TLM",
        Name::Comments => "comments",
    }
}

/// What the progression order of a number is called (T.800, Table A.16).
pub(crate) fn order_called(number: u8) -> &'static str
    ensures { result.now ≡ order_called number }
{
    match order_name(number) {
        Some(name) => name,
        None => "reserved",
    }
}

/// A word.
#[tactic(auto, unfolding(crate::specs::Text::word_text))]
pub(crate) fn word_text(word: Word) -> &'static str
    ensures { result.now ≡ word_text word }
{
    match word {
        Word::Unsigned => "unsigned",
        Word::Signed => "signed",
        Word::Order(number) => order_called(number),
        Word::Irreversible => "9-7 irreversible",
        Word::Reversible => "5-3 reversible",
        Word::Nothing => "none",
        Word::Derived => "scalar derived",
        Word::Expounded => "scalar expounded",
    }
}

/// Whether samples have a sign (A.5.1, Table A.11).
pub(crate) fn sign_word(ssiz: u8) -> Word
    ensures { result ≡ sign_word ssiz }
{
    if ssiz / 128 == 0 {
        Word::Unsigned
    } else {
        Word::Signed
    }
}

/// The wavelet of a number (Table A.20).
pub(crate) fn wavelet_word(wavelet: u8) -> Word
    ensures { result ≡ wavelet_word wavelet }
{
    if wavelet == 0 {
        Word::Irreversible
    } else {
        Word::Reversible
    }
}

/// The style of quantization (Table A.28).
pub(crate) fn quantization_word(style: u8) -> Word
    ensures { result ≡ quantization_word style }
{
    match style {
        0 => Word::Nothing,
        1 => Word::Derived,
        _ => Word::Expounded,
    }
}
