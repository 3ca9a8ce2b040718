//! The planner that has a list of its answers.

ghost use Rattle.std.specs.Prelude.{◌≡◌, None, IfOk};
ghost use Rattle.jx_layers.specs.Rule.{greatest};
ghost use Rattle.jx_layers.specs.Planners.{is_text, table_of};

use jx_base::NoMemory;
use jx_layers::{LayerPlanner, PassFacts, StreamFacts};
use std::alloc::Global;

/// Its own words: the layer of each question stands in a list, and is 0 past its end.
#[derive(Drop)]
pub struct TableLayers {
    words: String,
    list: Vec<u16>,
    begun: bool,
    asked: u64,
}

/// The greatest number of a list, or 0.
fn greatest(list: &[u16]) -> u16
    ensures { result ≡ greatest list.now }
{
    let mut most = 0;
    for number in list {
        if *number > most {
            most = *number;
        }
    }
    most
}

/// A copy of a list.
fn copy(alloc: Global, list: &[u16]) -> Result<Vec<u16>, NoMemory>
    ensures { IfOk result (λ copy. copy.items ≡ list.now) }
{
    let mut copy = Vec::new(alloc);
    for number in list {
        copy.push(*number)?;
    }
    Ok(copy)
}

impl TableLayers {
    /// A planner of these words and answers, which hasn't begun.
    pub fn new(alloc: Global, words: &str, list: &[u16]) -> Result<TableLayers, NoMemory>
        ensures rule { IfOk result (λ p. ⟦<TableLayers as LayerPlanner>⟧.rule p ≡ None) }
        ensures serves { IfOk result (λ p. ⟦<TableLayers as LayerPlanner>⟧.serves_text p ≡ is_text words.now) }
        ensures rule_of { IfOk result (λ p. ⟦<TableLayers as LayerPlanner>⟧.rule_of p ≡ table_of words.now list.now) }
    {
        let words = String::from_str(alloc, words)?;
        let list = copy(alloc, list)?;
        Ok(TableLayers {
            words,
            list,
            begun: false,
            asked: 0,
        })
    }
}

impl LayerPlanner for TableLayers {
    ghost use Rattle.std.specs.Prelude.{string_bytes};
    ghost use Rattle.jx_layers.specs.Rule.Rule.{Table};
    ghost use Rattle.jx_layers.specs.Planners.{if_begun, is_text, table_of};

    ghost rule = { λ p. if_begun p.begun (Table p.list.items) };

    ghost asked = { λ p. p.asked };

    ghost serves_text = { λ p. is_text (string_bytes p.words) };

    ghost rule_of = { λ p. table_of (string_bytes p.words) p.list.items };

    fn serves(&self, words: &str) -> bool {
        words == self.words.as_str()
    }

    fn begin(&mut self, words: &str, _facts: &StreamFacts) -> Option<u16> {
        let most = greatest(&self.list);
        self.begun = words == self.words.as_str() && most < 65535;
        self.asked = 0;
        if self.begun { Some(most + 1) } else { None }
    }

    fn layer_of(&mut self, _pass: &PassFacts) -> u16 {
        let place = self.asked as usize;
        self.asked += 1;
        match self.list.get(place) {
            Some(layer) => *layer,
            None => 0,
        }
    }
}
