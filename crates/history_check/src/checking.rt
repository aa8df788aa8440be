//! The check, pass by pass.
ghost use Rattle.std.specs.Prelude.{◌≡◌, None, OnOk, IfOk, IfErr, option_map};
ghost use Rattle.history_words.specs.Flaws.{first_flaw, first_clock_flaw, first_flaw_clocked, Tells};
ghost use Rattle.history_words.specs.Clocks.{IsClocked, KeepsRealTimeOrder};
ghost use Rattle.history_words.specs.Lookup.{ArePoints};
ghost use Rattle.history_words.specs.Claim.{claim_of};
ghost use Rattle.history_words.specs.Trace.{Explains};

use crate::answers::Tables;
use crate::clocks::first_unclocked;
use crate::laws::explained_is_without_flaw;
use crate::points::Points;
use crate::{NO_MEMORY, acting, answers, comparing, index};
use history_words::laws::answered_first_acts_first;
use history_words::{AsClaim, Claim, Flaw, FlawKind, Trace};
use seq_memory::Entry;
use std::alloc::Global;

/// The passes, one after the other. Gives, by the place of each submission, the index of its request.
fn first_flaw_of<C: AsClaim>(alloc: Global, claim: &C) -> Result<Points, Flaw>
    ensures ok { OnOk result (first_flaw (C.claim claim.now) ≡ None) }
    ensures points { IfOk result (λ points. ArePoints points (C.claim claim.now).records (C.claim claim.now).memory.entries) }
    ensures err { IfErr result (Tells (first_flaw (C.claim claim.now))) }
{
    let index = index::index_of(alloc, claim)?;
    let points = acting::act(alloc, &index, claim)?;
    let Ok(floors) = answers::floors(alloc, &index, &points, claim) else {
        return Err(NO_MEMORY);
    };
    let Ok(firsts) = comparing::first_answers(alloc, &index, claim) else {
        return Err(NO_MEMORY);
    };
    let Ok(right) = comparing::right_replies(alloc, &index, claim, &firsts) else {
        return Err(NO_MEMORY);
    };
    let tables = Tables {
        points: &points,
        floors: &floors,
        firsts: &firsts,
        right: &right,
    };
    answers::answer(&index, claim, tables)?;
    Ok(points)
}

/// Whether the history explains the trace, and else the first flaw. Where an allocation failed, a
/// flaw of kind `Memory` tells it, and nothing is known; so with more than 4,294,967,295 records or
/// entries. Takes as many bytes as the trace's memory has, and tables of the records and entries.
pub fn check_claim<C: AsClaim>(alloc: Global, claim: &C) -> Result<(), Flaw>
    ensures explained { OnOk result (Explains (C.claim claim.now)) }
    ensures unexplained { IfErr result (λ f. ¬ (f.kind ≡ FlawKind.Memory) → ¬ (Explains (C.claim claim.now))) }
    ensures ok { OnOk result (first_flaw (C.claim claim.now) ≡ None) }
    ensures err { IfErr result (Tells (first_flaw (C.claim claim.now))) }
{
    let _ = first_flaw_of(alloc, claim)?;
    Ok(())
}

/// [`check_claim`], and where the history explains the trace the place of the first record whose `n` is no
/// length of the history as it grew, if there is one.
pub fn check_claim_with_clock<C: AsClaim>(alloc: Global, claim: &C) -> Result<Option<usize>, Flaw>
    ensures explained { OnOk result (Explains (C.claim claim.now)) }
    ensures unexplained { IfErr result (λ f. ¬ (f.kind ≡ FlawKind.Memory) → ¬ (Explains (C.claim claim.now))) }
    ensures clocked { IfOk result (λ place. place ≡ None → IsClocked (C.claim claim.now)) }
    ensures ok { OnOk result (first_flaw (C.claim claim.now) ≡ None) }
    ensures clock { IfOk result (λ place. first_clock_flaw (C.claim claim.now) ≡ option_map (λ a. (FlawKind.Clock, a)) place) }
    ensures err { IfErr result (Tells (first_flaw (C.claim claim.now))) }
{
    explained_is_without_flaw();
    let points = first_flaw_of(alloc, claim)?;
    Ok(first_unclocked(&points, claim))
}

/// Whether the history explains the trace and the `n` are those of a history that grew, and else the
/// first flaw, with `Clock` behind all others. So requests of a trace without a flaw act in real-time
/// order: one that was answered before another was submitted acts before it.
pub fn check_claim_clocked<C: AsClaim>(alloc: Global, claim: &C) -> Result<(), Flaw>
    ensures explained { OnOk result (Explains (C.claim claim.now)) }
    ensures clocked { OnOk result (IsClocked (C.claim claim.now)) }
    ensures ordered { OnOk result (KeepsRealTimeOrder (C.claim claim.now)) }
    ensures flawed { IfErr result (λ f. ¬ (f.kind ≡ FlawKind.Memory) → Explains (C.claim claim.now) → ¬ (IsClocked (C.claim claim.now))) }
    ensures ok { OnOk result (first_flaw_clocked (C.claim claim.now) ≡ None) }
    ensures err { IfErr result (Tells (first_flaw_clocked (C.claim claim.now))) }
{
    answered_first_acts_first();
    explained_is_without_flaw();
    match check_claim_with_clock(alloc, claim)? {
        None => Ok(()),
        Some(place) => Err(Flaw {
            kind: FlawKind::Clock,
            place,
        }),
    }
}

/// Whether the history explains the trace, and else the first flaw. Where an allocation failed, a
/// flaw of kind `Memory` tells it, and nothing is known; so with more than 4,294,967,295 records or
/// entries. Takes as many bytes as the trace's memory has, and tables of the records and entries.
pub fn check(alloc: Global, trace: &Trace, history: &[Entry]) -> Result<(), Flaw>
    ensures explained { OnOk result (Explains (claim_of trace.now history.now)) }
    ensures unexplained { IfErr result (λ f. ¬ (f.kind ≡ FlawKind.Memory) → ¬ (Explains (claim_of trace.now history.now))) }
    ensures ok { OnOk result (first_flaw (claim_of trace.now history.now) ≡ None) }
    ensures err { IfErr result (Tells (first_flaw (claim_of trace.now history.now))) }
{
    check_claim(alloc, &Claim { trace, history })
}

/// Whether the history explains the trace and the `n` are those of a history that grew, and else the
/// first flaw, with `Clock` behind all others. So requests of a trace without a flaw act in real-time
/// order: one that was answered before another was submitted acts before it.
pub fn check_clocked(alloc: Global, trace: &Trace, history: &[Entry]) -> Result<(), Flaw>
    ensures explained { OnOk result (Explains (claim_of trace.now history.now)) }
    ensures clocked { OnOk result (IsClocked (claim_of trace.now history.now)) }
    ensures ordered { OnOk result (KeepsRealTimeOrder (claim_of trace.now history.now)) }
    ensures flawed { IfErr result (λ f. ¬ (f.kind ≡ FlawKind.Memory) → Explains (claim_of trace.now history.now) →
        ¬ (IsClocked (claim_of trace.now history.now))) }
    ensures ok { OnOk result (first_flaw_clocked (claim_of trace.now history.now) ≡ None) }
    ensures err { IfErr result (Tells (first_flaw_clocked (claim_of trace.now history.now))) }
{
    check_claim_clocked(alloc, &Claim { trace, history })
}
