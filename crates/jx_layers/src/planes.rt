//! The planner that cuts by planes of the band.

ghost use Rattle.std.specs.Prelude.{◌≡◌, ◌≤◌, None, codes, max};
ghost use Rattle.jx_base.specs.Numbers.{ceil_of};
ghost use Rattle.jx_layers.specs.Planners.{begins_with, planes_of};

use crate::texts::planes_in;
use crate::{LayerPlanner, PassFacts, StreamFacts};
use jx_base::ceil_div;

/// `planes:` and a number from 1 to 74: a new layer after so many planes of the band, those that are zero planes in a block
/// among them.
#[derive(Drop)]
pub struct PlaneLayers {
    planes: Option<u8>,
    asked: u64,
}

impl PlaneLayers {
    /// A planner that hasn't begun.
    pub fn new() -> PlaneLayers
        ensures rule { ⟦<PlaneLayers as LayerPlanner>⟧.rule result ≡ None }
        ensures serves { ⟦<PlaneLayers as LayerPlanner>⟧.serves_text result ≡ begins_with (codes "planes:") }
        ensures rule_of { ⟦<PlaneLayers as LayerPlanner>⟧.rule_of result ≡ planes_of }
    {
        PlaneLayers {
            planes: None,
            asked: 0,
        }
    }
}

impl LayerPlanner for PlaneLayers {
    ghost use Rattle.std.specs.Prelude.{codes};
    ghost use Rattle.std.specs.Option.{option_map};
    ghost use Rattle.jx_layers.specs.Rule.Rule.{Planes};
    ghost use Rattle.jx_layers.specs.Planners.{begins_with, planes_of};

    ghost rule = { λ p. option_map Planes p.planes };

    ghost asked = { λ p. p.asked };

    ghost serves_text = { λ p. begins_with (codes "planes:") };

    ghost rule_of = { λ p. planes_of };

    fn serves(&self, words: &str) -> bool {
        words.starts_with("planes:")
    }

    fn begin(&mut self, words: &str, facts: &StreamFacts) -> Option<u16> {
        self.planes = planes_in(words);
        self.asked = 0;
        match self.planes {
            Some(planes) => Some(layers_by(facts.planes, planes)),
            None => None,
        }
    }

    fn layer_of(&mut self, pass: &PassFacts) -> u16 {
        self.asked += 1;
        match self.planes {
            Some(planes) if planes > 0 => {
                (u16::from(pass.zero) + u16::from(pass.plane)) / u16::from(planes)
            }
            _ => 0,
        }
    }
}

/// How many layers of so many planes the planes of a band fill.
fn layers_by(all: u8, planes: u8) -> u16
    requires { 1 ≤ planes }
    ensures value { result ≡ max 1 (ceil_of all planes) }
    ensures range { (1 ≤ result) × (result ≤ 255) }
{
    let layers = ceil_div(u64::from(all), u64::from(planes));
    if layers < 1 {
        return 1;
    }
    layers as u16
}
