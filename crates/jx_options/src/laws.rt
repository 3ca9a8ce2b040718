//! Laws over the definitions: which texts say orders, volumes, precincts, styles and numbers, and which. They run no
//! code.

ghost use Rattle.std.specs.Prelude.{◌≡◌, ◌≤◌, ◌<◌, ◌^◌, ℕ, List, Some};
ghost use Rattle.std.specs.Fmt.{decimal};
ghost use Rattle.jx_base.specs.declared.style.Style.{Style};
ghost use Rattle.jx_base.specs.OrderNumbers.{IsOrderNumber};
ghost use Rattle.jx_options.specs.Orders.{order_said, word_named};
ghost use Rattle.jx_options.specs.Wanted.{MayBeStyle};
ghost use Rattle.jx_options.specs.Values.{ArePrecincts, HasNamed, parts_of, precincts_in, precincts_text, style_said, style_text};
ghost use Rattle.jx_base.specs.Texts.{number_in};
ghost use Rattle.jx_marker.specs.declared.Progression.{Progression};
ghost use Rattle.jx_options.specs.Volumes.{AreVolumes, volumes_in, volumes_text};

/// Each progression order has a name, which in small letters is the word that asks for it (ITU-T T.800, Table A.16).
pub fn orders_are_named()
    ensures { (order : ℕ) → IsOrderNumber order → order_said (word_named order) ≡ Some (Some order) }
{}

/// A text says precincts exactly where it spells 1 to 33 of them, and says no others (ITU-T T.800, Table A.21).
pub fn precincts_are_spelled()
    ensures spelled { (bytes : List ℕ) → ArePrecincts bytes → precincts_in (precincts_text bytes) ≡ Some bytes }
    ensures read { (text bytes : List ℕ) → precincts_in text ≡ Some bytes → ArePrecincts bytes × (text ≡ precincts_text bytes) }
{}

/// Each list of 1 to 32 volumes is said by a text, and a text says such lists alone (ITU-T T.800, A.6.6, Table A.32).
pub fn volumes_are_spelled()
    ensures spelled { (entries : List Progression) → AreVolumes entries
        → volumes_in (volumes_text entries) ≡ Some entries }
    ensures read { (text : List ℕ) (entries : List Progression) → volumes_in text ≡ Some entries → AreVolumes entries }
{}

/// Each style of five bits is said by a text; the style that a text says is such a style, with the bits that it names (ITU-T T.800,
/// Table A.19).
pub fn styles_are_spelled()
    ensures spelled { (style : Style) → MayBeStyle style → style_said (style_text style) ≡ Some (Some style) }
    ensures read { (text : List ℕ) (style : Style) → style_said text ≡ Some (Some style) → MayBeStyle style × HasNamed (parts_of 43 text) style }
{}

/// A text says a number exactly where it has the digits of one from 1 up to the greatest, and says no other.
pub fn numbers_are_spelled()
    ensures spelled { (most n : ℕ) → most < 2 ^ 64 → 1 ≤ n → n ≤ most → number_in most (decimal n) ≡ Some n }
    ensures read { (most n : ℕ) (text : List ℕ) → number_in most text ≡ Some n → (1 ≤ n) × (n ≤ most) × (text ≡ decimal n) }
{}
