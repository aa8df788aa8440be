//! Laws of the check: what holds of the definitions that its contract cites.
ghost use Rattle.std.specs.Prelude.{◌≡◌, None};
ghost use Rattle.history_words.specs.Claim.{Claim};
ghost use Rattle.history_words.specs.Clocks.{IsClocked};
ghost use Rattle.history_words.specs.Flaws.{first_flaw, first_clock_flaw};
ghost use Rattle.history_words.specs.Trace.{Explains};

/// A history explains what was recorded exactly where there is no flaw, and then the `n` are those of
/// a history that grew exactly where no record has the flaw `Clock`.
#[tactic(auto, using(crate::proofs::LinearLaw::explains_from, crate::proofs::LinearLaw::explains_to, crate::proofs::ClockLaw::clocked_from, crate::proofs::ClockLaw::clocked_to))]
pub fn explained_is_without_flaw()
    ensures explained { (x : Claim) → first_flaw x ≡ None → Explains x }
    ensures no_flaw { (x : Claim) → Explains x → first_flaw x ≡ None }
    ensures clocked { (x : Claim) → Explains x → first_clock_flaw x ≡ None → IsClocked x }
    ensures no_clock_flaw { (x : Claim) → Explains x → IsClocked x → first_clock_flaw x ≡ None }
{}
