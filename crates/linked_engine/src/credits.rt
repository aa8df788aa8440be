//! The credits that a device advertises.
ghost use Rattle.std.specs.Prelude.{◌≡◌, true, IfNone, IfSome, false};
ghost use Rattle.flow_control.specs.Limits.{IsInLimits};
ghost use Rattle.linked_engine.specs.Credits as spec;

use flow_control::LaneCredits;
use std::marker::Model;

/// The credits that a device advertises, in header units and in data units of 16 bytes. They are finite, so what waits is
/// bounded whatever the peer sends. Those of completions are infinite, since it has no requests.
#[derive(Clone, Copy)]
pub struct FiniteCredits {
    ours: LaneCredits,
}

impl Model for FiniteCredits {
    ghost use Rattle.flow_control.specs.declared.limits.LaneCredits.{LaneCredits};
    ghost use Rattle.flow_control.specs.Limits.{IsInLimits};

    ghost Value = { LaneCredits };

    ghost view = { λ c. c.ours };

    ghost invariant = { λ c. IsInLimits c.ours };

    ghost inverse = { λ c. record { ours = c } };
}

fn is_between(least: u16, most: u16, first: u16) -> bool
    ensures { result ≡ spec.is_between least most first }
{
    least <= first && first <= most
}

/// Whether each is in its range.
fn are_finite(ph: u16, pd: u16, nph: u16, npd: u16) -> bool
    ensures value { result ≡ spec.are_finite ph pd nph npd }
    ensures in_limits { result ≡ true → IsInLimits (spec.advertised ph pd nph npd) }
{
    is_between(1, 127, ph)
        && is_between(8, 2047, pd)
        && is_between(1, 127, nph)
        && is_between(2, 2047, npd)
}

impl FiniteCredits {
    /// Posted headers, 1 to 127, posted data, 8 to 2047, non-posted headers, 1 to 127, and non-posted data, 2 to 2047. None if
    /// one is out of its range.
    pub fn new(ph: u16, pd: u16, nph: u16, npd: u16) -> Option<FiniteCredits>
        ensures some { IfSome result (λ c. (c ≡ spec.advertised ph pd nph npd) × (spec.are_finite ph pd nph npd ≡ true)) }
        ensures none { IfNone result (spec.are_finite ph pd nph npd ≡ false) }
    {
        if !are_finite(ph, pd, nph, npd) {
            return None;
        }
        Some(FiniteCredits {
            ours: LaneCredits {
                ph: ph as u8,
                pd,
                nph: nph as u8,
                npd,
                cplh: 0,
                cpld: 0,
            },
        })
    }

    /// The credits of all classes.
    pub fn advertised(self) -> LaneCredits
        ensures value { result ≡ self }
        ensures in_limits { IsInLimits result }
    {
        self.ours
    }
}
