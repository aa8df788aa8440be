//! The credits of an endpoint behind a link as the value of an option.
ghost use Rattle.std.specs.Prelude.{◌≡◌, ◌≤◌, ℕ, IfOk, IfErr, OnErr, option_map};
ghost use Rattle.flow_control.specs.declared.limits.LaneCredits.{LaneCredits};
ghost use Rattle.cli_options.specs.declared.options.ValueOption.TheVariants.{Credits};
ghost use Rattle.cli_values.specs.Links as spec;

use cli_options::{RefusedValue, ValueOption};
use linked_engine::FiniteCredits;

/// The number of at most four decimal digits up to a comma or the end, behind digits that write a number, and what stands
/// behind the comma.
#[tactic(auto, unfolding(crate::specs::Links::number_in))]
fn number_in(before: u16, text: &[u8]) -> Option<(u16, Option<&[u8]>)>
    requires { before ≤ 9999 }
    ensures { spec.number_in before text.now ≡ option_map (λ s. (s.0, option_map (λ t. t.now) s.1)) result }
{
    match text {
        [] => Some((before, None)),
        [b',', rest @ ..] => Some((before, Some(rest))),
        [byte, rest @ ..] => {
            if *byte < b'0' || *byte > b'9' || before > 999 {
                return None;
            }
            number_in(before * 10 + u16::from(*byte - b'0'), rest)
        }
    }
}

/// The next number, if a comma was there.
fn next_number(text: Option<&[u8]>) -> Option<(u16, Option<&[u8]>)>
    ensures { spec.next_number (option_map (λ t. t.now) text.entry) ≡ option_map (λ s. (s.0, option_map (λ t. t.now) s.1)) result }
{
    match text {
        Some(text) => number_in(0, text),
        None => None,
    }
}

/// The credits that begin with three numbers.
fn after_three(ph: u16, pd: u16, nph: u16, rest: Option<&[u8]>) -> Option<FiniteCredits>
    ensures { result ≡ spec.after_three ph pd nph (spec.next_number (option_map (λ t. t.now) rest.entry)) }
{
    match next_number(rest) {
        Some((npd, None)) => FiniteCredits::new(ph, pd, nph, npd),
        _ => None,
    }
}

/// The credits that begin with two numbers.
fn after_two(ph: u16, pd: u16, rest: Option<&[u8]>) -> Option<FiniteCredits>
    ensures { result ≡ spec.after_two ph pd (spec.next_number (option_map (λ t. t.now) rest.entry)) }
{
    match next_number(rest) {
        Some((nph, rest)) => after_three(ph, pd, nph, rest),
        None => None,
    }
}

/// The credits that begin with one number.
fn after_one(ph: u16, rest: Option<&[u8]>) -> Option<FiniteCredits>
    ensures { result ≡ spec.after_one ph (spec.next_number (option_map (λ t. t.now) rest.entry)) }
{
    match next_number(rest) {
        Some((pd, rest)) => after_two(ph, pd, rest),
        None => None,
    }
}

/// The credits that the text writes.
fn credits_written(text: &[u8]) -> Option<FiniteCredits>
    ensures { result ≡ spec.credits text.now }
{
    match number_in(0, text) {
        Some((ph, rest)) => after_one(ph, rest),
        None => None,
    }
}

/// 16,64,16,16.
fn usual_credits() -> FiniteCredits
    ensures { result ≡ spec.usual }
{
    FiniteCredits::new(16, 64, 16, 16).unwrap()
}

/// The credits that the text writes, 16,64,16,16 where no text is given.
pub fn credits_of<'a>(text: Option<&'a str>) -> Result<FiniteCredits, RefusedValue<'a>>
    ensures ok { IfOk result (spec.WritesCredits (option_map (λ t. t.now) text.entry)) }
    ensures err { OnErr result ((c : LaneCredits) → spec.WritesCredits (option_map (λ t. t.now) text.entry) c → ⊥) }
    ensures refused { IfErr result (λ e. e ≡ record { option = Credits; given = text.entry }) }
{
    let Some(written) = text else {
        return Ok(usual_credits());
    };
    match credits_written(written.as_bytes()) {
        Some(credits) => Ok(credits),
        None => Err(RefusedValue {
            option: ValueOption::Credits,
            given: text,
        }),
    }
}
