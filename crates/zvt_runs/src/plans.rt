//! The steps of a run, from the words that name them.
ghost use Rattle.std.specs.Prelude.{◌≡◌, ◌++◌, ◌∷◌, [], IfOk, OnOk, map};
ghost use Rattle.std.specs.List.{position};
ghost use Rattle.std.specs.String.{string_bytes};
ghost use Rattle.zvt_runs.specs.Plans.{AddsStep, PlansOrStops, SettlesOnce, registers, words_of};

use crate::arguments::{Ends, Step, step_of};
use crate::fault::EndFault;
use std::alloc::{AllocError, Global};
use zvt_text::Form;

/// A step, and the word that names it.
#[derive(Drop)]
pub struct Planned {
    pub word: String,
    pub step: Step,
}

/// How a run reports its steps.
#[derive(Clone, Copy)]
pub struct StepOptions {
    /// The form of the lines for the steps and the total.
    pub form: Form,
    /// Whether the run fails if a step does not succeed.
    pub check: bool,
}

/// The steps of a run, and how it reports them.
#[derive(Clone, Copy)]
pub struct StepRun<'a> {
    /// The steps, in the order in which they are made.
    pub plan: &'a [Planned],
    /// How the steps are reported.
    pub options: StepOptions,
}

/// The default steps of a run of both ends.
const BOTH_ENDS: [&str; 5] = [
    "register",
    "pay:1000",
    "decline:500:6C",
    "reverse:1",
    "close",
];

/// The default steps of a run of a till.
const TILL_ALONE: [&str; 2] = ["register", "close"];

/// Parses the words as steps. Without words, returns the default steps of these ends. Fails with `BadStep` at the first
/// word that names no step, or with `Memory`.
pub fn plan(alloc: Global, ends: Ends, words: &[&str]) -> Result<Vec<Planned>, EndFault>
    ensures { PlansOrStops ends (words_of ends (map (λ word. word.now) words.now)) result }
{
    if !words.is_empty() {
        return plan_words(alloc, ends, words);
    }
    match ends {
        Ends::Both => plan_words(alloc, ends, BOTH_ENDS.as_slice()),
        Ends::Till => plan_words(alloc, ends, TILL_ALONE.as_slice()),
    }
}

/// Adds a step behind the first registration of the plan that asks the terminal for its last transaction, if the answer
/// can be of use. A plan without a registration stays as it is.
pub fn settling_once(alloc: Global, mut plan: Vec<Planned>) -> Result<Vec<Planned>, AllocError>
    ensures { IfOk result (λ settling. SettlesOnce plan.items settling.items) }
{
    let Some(place) = first_registration(plan.as_slice()) else {
        return Ok(plan);
    };
    let step = Planned {
        word: String::from_str(alloc, "ask")?,
        step: Step::Settle,
    };
    plan.insert(place + 1, step)?;
    Ok(plan)
}

/// Returns the index of the first step that registers the till.
fn first_registration(plan: &[Planned]) -> Option<usize>
    ensures { result ≡ position registers plan.now }
{
    plan.iter().position(|planned| registers(planned))
}

/// Whether a step registers the till.
fn registers(planned: &Planned) -> bool
    ensures { result ≡ registers planned.now }
{
    matches!(planned.step, Step::Register)
}

/// Parses these words as steps.
fn plan_words(alloc: Global, ends: Ends, words: &[&str]) -> Result<Vec<Planned>, EndFault>
    ensures { PlansOrStops ends (map (λ word. word.now) words.now) result }
{
    let mut plan = Vec::new(alloc);
    'words: for (at, word) in words.iter().enumerate() {
        let Some(step) = step_of(ends, word) else {
            return Err(EndFault::BadStep { at });
        };
        add(alloc, &mut plan, word, step)?;
    }
    Ok(plan)
}

/// Adds a step and its word.
fn add(alloc: Global, plan: &mut Vec<Planned>, word: &str, step: Step) -> Result<(), AllocError>
    ensures { OnOk result (AddsStep word.now step plan.old.items plan.new.items) }
{
    let word = String::from_str(alloc, word)?;
    plan.push(Planned { word, step })?;
    Ok(())
}
