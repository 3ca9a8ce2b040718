//! What puts the coding passes of code-blocks into quality layers.

ghost use Rattle.std.specs.Prelude.{◌≡◌, ◌+◌, ◌-◌, ◌<◌, ◌≤◌, ◌^◌, ℕ, Bool, List, Option, IfSome, IsSome};
ghost use Rattle.std.specs.Option.{option_map};
ghost use Rattle.jx_layers.specs.declared.StreamFacts.{StreamFacts};
ghost use Rattle.jx_layers.specs.Rule.{Rule, answer, layers_by};

use crate::{PassFacts, StreamFacts};

/// A planner is asked once for each coding pass, in the order of code-blocks and passes, in which layer the pass is to be
/// sent. No call takes memory.
pub trait LayerPlanner: Drop {
    /// The rule that the last `begin` chose; none before the first, and where it chose none.
    ghost rule: { Self → Option Rule };

    /// How often it was asked since then.
    ghost asked: { Self → ℕ };

    /// Whether it serves a text.
    ghost serves_text: { Self → List ℕ → Bool };

    /// The rule that `begin` makes of a text and the facts of a stream.
    ghost rule_of: { Self → List ℕ → StreamFacts → Option Rule };

    /// Whether the words are meant for this planner.
    fn serves(&self, words: &str) -> bool
        ensures { result ≡ serves_text self.now words.now };

    /// Chooses the rule that the words say, and gives the number of layers that it makes, 1 to 65,535. Gives none exactly
    /// where the words say no rule, or one that makes another number of layers.
    fn begin(&mut self, words: &str, facts: &StreamFacts) -> Option<u16>
        ensures layers { result ≡ option_map (λ r. layers_by r facts.now) (rule_of self.old words.now facts.now) }
        ensures some { IfSome result (λ layers. 1 ≤ layers) }
        ensures rule { rule self.new ≡ rule_of self.old words.now facts.now }
        ensures asked { asked self.new ≡ 0 }
        ensures same_rules { rule_of self.new ≡ rule_of self.old }
        ensures same_texts { serves_text self.new ≡ serves_text self.old };

    /// The layer of a pass by the rule. The caller cuts it down to the last layer.
    fn layer_of(&mut self, pass: &PassFacts) -> u16
        requires begun { IsSome (rule self.old) }
        requires room { asked self.old < 2 ^ 64 - 1 }
        ensures answer { IfSome (rule self.old) (λ r. result ≡ answer r (asked self.old) pass.now) }
        ensures asked { asked self.new ≡ asked self.old + 1 }
        ensures rule { rule self.new ≡ rule self.old }
        ensures same_rules { rule_of self.new ≡ rule_of self.old }
        ensures same_texts { serves_text self.new ≡ serves_text self.old };
}
