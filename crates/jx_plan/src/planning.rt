//! The plan by the first of some planners of layers that serves the words.

ghost use Rattle.std.specs.Prelude.{◌≡◌, ◌<◌, ◌≤◌, ℕ, Option, length, slice_get, None, Some, IfErr, IfOk, IfSome, MatchResult, OnOk};
ghost use Rattle.std.specs.List.{All};
ghost use Rattle.std.specs.Option.{option_map};
ghost use Rattle.jx_base.specs.Sound.{IsSound};
ghost use Rattle.jx_plan.specs.declared.faults.PlanFault.TheVariants as fault;
ghost use Rattle.jx_plan.specs.Causal.{first_broken};
ghost use Rattle.jx_layers.specs.Rule.{Rule, layers_by};
ghost use Rattle.jx_plan.specs.Facts.{facts_of};
ghost use Rattle.jx_plan.specs.Fits.{Fits};
ghost use Rattle.jx_plan.specs.Plan.{IsJob, MayBePlanned};
ghost use Rattle.jx_plan.specs.Planned.{ArePlanned, HasLaterCause, HasPlanCause, IsPlanned, IsUnplanned, chosen};
ghost use Rattle.jx_plan.specs.Questions.{AtFirst, HasNone, IsAskedAfter, IsFirstOf, questions};
ghost use Rattle.jx_plan.specs.Steps.{IsTooMuch};
ghost use Rattle.jx_options.specs.Wanted.{MayBeWanted};
ghost use Rattle.jx_codeblock.specs.declared.job.Job.{Job as job_asked};
ghost use Rattle.jx_codeblock.specs.declared.LayerEnd.{LayerEnd};
ghost use Rattle.jx_base.specs.Limits.{most_blocks};

use crate::asking::ask_jobs;
use crate::causal::first_broken;
use crate::counting::{check_written, plan_headers};
use crate::crowded::first_crowded;
use crate::facts::facts_of;
use crate::fitting::check_precincts;
use crate::layer_laws::crowds_are_told;
use crate::strays::check_changes;
use crate::{OutStream, PlanFault};
use jx_base::{Block, Style};
use jx_codeblock::Job;
use jx_codestream::Stream;
use jx_layers::{LayerPlanner, StreamFacts};
use jx_options::Options;
use std::alloc::Global;

/// The number of layers of the rule that a planner makes of the words.
fn begin(planner: &mut Box<dyn LayerPlanner>, words: &str, facts: &StreamFacts) -> Option<u16>
    ensures layers { result ≡ option_map (λ r. layers_by r facts.now) (rule_of planner.old words.now facts.now) }
    ensures some { IfSome result (λ layers. 1 ≤ layers) }
    ensures rule { rule planner.new ≡ rule_of planner.old words.now facts.now }
    ensures asked { asked planner.new ≡ 0 }
{
    planner.begin(words, facts)
}

/// Lets a planner begin, and asks it for all passes.
fn plan_by<'a>(
    alloc: Global,
    blocks: &'a [Block<'a>],
    style: Option<Style>,
    words: &str,
    facts: &StreamFacts,
    planner: &mut Box<dyn LayerPlanner>,
) -> Result<(u16, Vec<Job<'a>>), PlanFault>
    requires few { length blocks.now ≤ most_blocks }
    requires sound { All IsSound blocks.now }
    ensures planned { IfOk result (λ p. ArePlanned style (rule_of planner.old words.now facts.now) facts.now blocks.entry.now p.0 p.1.items) }
    ensures count { IfOk result (λ p. length p.1.items ≡ length blocks.entry.now) }
    ensures unplanned { IfErr result (λ e. IsUnplanned (rule_of planner.old words.now facts.now) e) }
    ensures asked { MatchResult result (λ _. asked planner.new ≡ questions blocks.entry.now) (λ e. IsAskedAfter (asked planner.old) (questions blocks.entry.now) e (asked planner.new)) }
{
    let layers = match begin(planner, words, facts) {
        Some(layers) => layers,
        None => return Err(PlanFault::Choice {
            number: 6,
            place: 0,
        }),
    };
    match ask_jobs(alloc, blocks, layers, style, planner) {
        Ok(jobs) => Ok((layers, jobs)),
        Err(_) => Err(PlanFault::NoMemory),
    }
}

/// The plan of these layers and jobs, one for each block, of precincts that fit.
fn plan_jobs<'a>(
    alloc: Global,
    stream: &'a Stream,
    blocks: &'a [Block<'a>],
    options: &'a Options,
    layers: u16,
    jobs: Vec<Job<'a>>,
) -> Result<OutStream<'a>, PlanFault>
    requires may { MayBePlanned stream.now blocks.now }
    requires wanted { MayBeWanted options.now }
    requires whole { first_broken options.now.style blocks.now ≡ None }
    requires fits { Fits options.now.precincts stream.now }
    requires some { 1 ≤ layers }
    requires all { length jobs.items ≡ length blocks.now }
    requires each { (number : ℕ) (job : job_asked) → slice_get jobs.items number ≡ Some job → IsJob options.now.style blocks.now number job }
    requires below { (number : ℕ) (job : job_asked) → slice_get jobs.items number ≡ Some job → All (λ (e : LayerEnd). e.layer < layers) job.ends }
    ensures planned { IfOk result (λ p. p ≡ record { stream = stream.entry.now; blocks = blocks.entry.now; wanted = options.entry.now; layers = layers; jobs = jobs.entry.items }) }
    ensures cause { IfErr result (λ e. IsTooMuch stream.entry.now options.entry.now layers jobs.entry.items e) }
{
    let written = match plan_headers(alloc, stream, options, layers) {
        Ok(written) => written,
        Err(fault) => return Err(fault),
    };
    if let Err(fault) = check_changes(alloc, stream, options, layers, &written) {
        return Err(fault);
    }
    if let Some(place) = first_crowded(&jobs) {
        return Err(PlanFault::Choice { number: 4, place });
    }
    match check_written(alloc, stream, options, layers, &written) {
        Ok(()) => Ok(OutStream {
            stream,
            blocks,
            options,
            layers,
            written,
            jobs,
        }),
        Err(fault) => Err(fault),
    }
}

/// The plan by a planner, of precincts that fit.
fn plan_with<'a>(
    alloc: Global,
    stream: &'a Stream,
    blocks: &'a [Block<'a>],
    options: &'a Options,
    planner: &mut Box<dyn LayerPlanner>,
) -> Result<OutStream<'a>, PlanFault>
    requires may { MayBePlanned stream.now blocks.now }
    requires wanted { MayBeWanted options.now }
    requires whole { first_broken options.now.style blocks.now ≡ None }
    requires fits { Fits options.now.precincts stream.now }
    ensures planned { IfOk result (λ p. IsPlanned (rule_of planner.old options.entry.now.layers (facts_of stream.entry.now blocks.entry.now)) stream.entry.now blocks.entry.now options.entry.now p) }
    ensures cause { IfErr result (λ e. HasLaterCause (rule_of planner.old options.entry.now.layers (facts_of stream.entry.now blocks.entry.now)) stream.entry.now blocks.entry.now options.entry.now e) }
    ensures asked { MatchResult result (λ _. asked planner.new ≡ questions blocks.entry.now) (λ e. IsAskedAfter (asked planner.old) (questions blocks.entry.now) e (asked planner.new)) }
{
    crowds_are_told();
    let facts = facts_of(alloc, stream, blocks)?;
    match plan_by(
        alloc,
        blocks,
        options.style,
        &options.layers,
        &facts,
        planner,
    ) {
        Ok((layers, jobs)) => plan_jobs(alloc, stream, blocks, options, layers, jobs),
        Err(fault) => Err(fault),
    }
}

/// What is looked at before a planner begins: choice 1, then choices 3 and 2.
fn check_wanted(
    alloc: Global,
    stream: &Stream,
    blocks: &[Block<'_>],
    options: &Options,
) -> Result<(), PlanFault>
    requires may { MayBePlanned stream.now blocks.now }
    requires wanted { MayBeWanted options.now }
    ensures whole { OnOk result (first_broken options.now.style blocks.now ≡ None) }
    ensures fits { OnOk result (Fits options.now.precincts stream.now) }
    ensures cause { IfErr result (λ e. (rule : Option Rule) → HasPlanCause rule stream.now blocks.now options.now e) }
    ensures unasked { IfErr result (λ e. (before all : ℕ) → IsAskedAfter before all e before) }
{
    if let Some(place) = first_broken(options.style, blocks) {
        return Err(PlanFault::Choice { number: 1, place });
    }
    match check_precincts(alloc, stream, &options.precincts) {
        Ok(()) => Ok(()),
        Err(fault) => Err(fault),
    }
}

/// Whether a planner serves the words.
fn does_serve(planner: &Box<dyn LayerPlanner>, words: &str) -> bool
    ensures { result ≡ serves_text planner.now words.now }
{
    planner.serves(words)
}

/// The place of the first planner that serves the words.
fn first_serving(planners: &[Box<dyn LayerPlanner>], words: &str) -> Option<usize>
    ensures inside { IfSome result (λ place. place < length planners.now) }
    ensures some { IfSome result (λ place. IsFirstOf (λ b. serves_text b words.now) planners.now place) }
    ensures none { result ≡ None → HasNone (λ b. serves_text b words.now) planners.now }
{
    for place in 0..planners.len() {
        if does_serve(&planners[place], words) {
            return Some(place);
        }
    }
    None
}

/// Plans a codestream as the options ask: with the marks that they name, and the layers that the first planner makes
/// that serves their words. It is asked once for each coding pass, in the order of blocks and passes, before limit 7
/// or choice 4 is answered; no other planner begins or is asked.
///
/// # Errors
///
/// Choice 1 exactly where a style is asked with another causal bit than that of a code-block whose passes end within
/// a plane (ITU-T T.800, D.7), at the lowest such block. Else choices 3 and 2 exactly as `check_precincts` says. Else
/// choice 6 at 0 exactly where no planner serves the words, or the first that does makes no rule of them; after these
/// nothing was asked. Else limit 7 exactly where over 2^22 packets would be written, one for each precinct and layer
/// (B.9), with their number. Else choice 12 exactly where a volume that is asked begins above the components, at 0,
/// or some packet of a tile would be in no volume, or a tile's own entries that are kept pass what a POC segment
/// holds (A.6.6), at the lowest such tile. Else choice 4 exactly where some layer would have over 164 passes of a
/// code-block (B.10.6, Table B.4), at the lowest such block. Else choice 5 exactly where a tile would have over 255
/// tile-parts (A.4.2), at the lowest such tile. Else choice 10 at 0 exactly where TLM is asked and there would be
/// over 2,795,776 tile-parts (A.7.1). Else choice 11 exactly where the input's profile is kept and the file wouldn't
/// have all of it (A.5.1), at the number of the first condition of profile 3 or 4 that fails (`first_unmet`), or at 0
/// where the profile is another than 0, 3 and 4. `NoMemory` where memory is refused.
pub fn plan_served<'a>(
    alloc: Global,
    stream: &'a Stream,
    blocks: &'a [Block<'a>],
    options: &'a Options,
    planners: &mut [Box<dyn LayerPlanner>],
) -> Result<OutStream<'a>, PlanFault>
    requires may { MayBePlanned stream.now blocks.now }
    requires wanted { MayBeWanted options.now }
    ensures planned { IfOk result (λ p. IsPlanned (chosen (λ b. serves_text b options.entry.now.layers) (λ b. rule_of b options.entry.now.layers (facts_of stream.entry.now blocks.entry.now)) planners.old)
        stream.entry.now blocks.entry.now options.entry.now p) }
    ensures cause { IfErr result (λ e. HasPlanCause (chosen (λ b. serves_text b options.entry.now.layers) (λ b. rule_of b options.entry.now.layers (facts_of stream.entry.now blocks.entry.now)) planners.old)
        stream.entry.now blocks.entry.now options.entry.now e) }
    ensures asked { AtFirst (λ b. serves_text b options.entry.now.layers)
        (λ b c. MatchResult result (λ _. asked c ≡ questions blocks.entry.now) (λ e. IsAskedAfter (asked b) (questions blocks.entry.now) e (asked c))) planners.old planners.new }
{
    if let Err(fault) = check_wanted(alloc, stream, blocks, options) {
        return Err(fault);
    }
    match first_serving(planners, &options.layers) {
        Some(place) => plan_with(alloc, stream, blocks, options, &mut planners[place]),
        None => Err(PlanFault::Choice {
            number: 6,
            place: 0,
        }),
    }
}
