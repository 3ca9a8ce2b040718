//! Laws over the definitions: which words say a rule, and which rule. They run no code.

ghost use Rattle.std.specs.Prelude.{◌≡◌, ◌≤◌, ◌<◌, ℕ, List, Some};
ghost use Rattle.std.specs.Option.{option_map};
ghost use Rattle.jx_layers.specs.declared.StreamFacts.{StreamFacts};
ghost use Rattle.jx_layers.specs.Rule.Rule.{Cuts, Planes};
ghost use Rattle.jx_layers.specs.Planners.{cuts_of, planes_of};
ghost use Rattle.jx_layers.specs.Texts.{AreCuts, cuts_in, cuts_text, planes_in, planes_text};

/// Words say passes at which to cut exactly where they spell 1 to 32 passes that rise from 1 to 220, and say no others.
pub fn cuts_are_spelled()
    ensures spelled { (list : List ℕ) → AreCuts list → cuts_in (cuts_text list) ≡ Some list }
    ensures read { (text list : List ℕ) → cuts_in text ≡ Some list → AreCuts list × (text ≡ cuts_text list) }
    ensures fits { (text : List ℕ) (facts : StreamFacts) → cuts_of text facts ≡ option_map Cuts (cuts_in text) }
{}

/// Words say a number of planes exactly where they spell one from 1 to 74, and say no other.
pub fn planes_are_spelled()
    ensures spelled { (q : ℕ) → 1 ≤ q → q ≤ 74 → planes_in (planes_text q) ≡ Some q }
    ensures read { (text : List ℕ) (q : ℕ) → planes_in text ≡ Some q → (1 ≤ q) × (q ≤ 74) × (text ≡ planes_text q) }
    ensures fits { (text : List ℕ) (facts : StreamFacts) → facts.planes < 256 → planes_of text facts ≡ option_map Planes (planes_in text) }
{}
