//! The history, the n's and the replies of a run.
ghost use Rattle.std.specs.Prelude.{◌≡◌, ◌++◌, ◌∷◌, [], OnOk};
ghost use Rattle.history_words.specs.Trace.{Explains};
ghost use Rattle.history_words.specs.Clocks.{IsClocked};
ghost use Rattle.log_runs.specs.Explainable.{SeenAlike};
ghost use Rattle.log_runs.specs.Histories.{history_of, timed_from};
ghost use Rattle.search_history.specs.Runs.{IsRunOf};
ghost use Rattle.trace_store.specs.Changes.{seen_by};

use log_events::complete;
use log_runs::Step;
use log_runs::laws::a_run_is_a_history;
use std::alloc::{AllocError, Global};
use trace_store::TraceStore;

/// Adds the request that acts to the history, if the step is one.
fn act(store: &mut TraceStore, step: Step) -> Result<(), AllocError>
    ensures records { store.new.records ≡ store.old.records }
    ensures seen { seen_by store.new ≡ seen_by store.old }
    ensures entries { OnOk result (store.new.memory.entries ≡ store.old.memory.entries ++ history_of store.old.records (step ∷ [])) }
{
    match step {
        Step::Pass => Ok(()),
        Step::Act(b) => store.act(b),
    }
}

/// Adds the requests to the history in the order in which they act.
fn act_all(store: &mut TraceStore, steps: &[Step]) -> Result<(), AllocError>
    ensures seen { seen_by store.new ≡ seen_by store.old }
    ensures entries { OnOk result (store.new.memory.entries ≡ store.old.memory.entries ++ history_of store.old.records steps.now) }
{
    for at in 0..steps.len() {
        act(store, steps[at])?;
    }
    Ok(())
}

/// Sets each n to how many requests had acted when its record was passed.
fn set_moments(store: &mut TraceStore, steps: &[Step])
    ensures { store.new ≡ record store.old { records = timed_from 0 steps.now store.old.records } }
{
    let mut event = 0usize;
    for at in 0..steps.len() {
        if let Step::Pass = steps[at] {
            store.set_moment(event, (at - event) as u64);
            event += 1;
        }
    }
}

/// Adds the history that a run is, where there was none. It explains what was seen with the n's that that then has, and replies
/// in place of `Done`; only they change.
pub(crate) fn add_history(
    alloc: Global,
    store: &mut TraceStore,
    steps: &[Step],
) -> Result<(), AllocError>
    requires run { IsRunOf (seen_by store.old) steps.now }
    requires empty { store.old.memory.entries ≡ [] }
    ensures alike { SeenAlike (seen_by store.old) (seen_by store.new) }
    ensures explained { OnOk result (Explains store.new × IsClocked store.new) }
{
    a_run_is_a_history();
    act_all(store, steps)?;
    complete(alloc, store, steps)?;
    set_moments(store, steps);
    Ok(())
}
