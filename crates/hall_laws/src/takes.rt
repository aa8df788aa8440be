//! Parts by their names.
ghost use Rattle.std.specs.Prelude.{◌≡◌, ◌≢◌, suc, MatchResult};
ghost use Rattle.hall_laws.specs.Parts.{part_slot, IsPartName, IsPartValue};
ghost use Rattle.hall_laws.specs.Standing.{token_of, Outside};
ghost use Rattle.hall_laws.specs.Calls.{IsSized, IsOf, Took};

use crate::laws::{Place, Steps, take};
use crate::part::{Part, PartValue};

/// The first token of the seat takes the part of this name, whose value is of the part's kind. The error is the word
/// that was found.
pub fn take_part(
    steps: &Steps,
    place: &mut Place,
    number: usize,
    requesters: u8,
    part: Part,
) -> Result<PartValue, u64>
    requires { IsSized steps.now.table_id requesters × IsOf steps.now.table_id requesters number place.old × IsPartName requesters part }
    ensures seat { (place.new.table_id ≡ place.old.table_id) × (place.new.id ≡ place.old.id) }
    ensures taken { MatchResult result (λ v. IsPartValue part v × Took place.old.me (part_slot part) v place.new.me) (λ w. (w ≢ 0) ×
        (place.new.me ≡ place.old.me) × (Outside (part_slot part) (token_of place.old.me.0).held → w ≢ suc (token_of place.old.me.0).knows.number)) }
{
    take(steps, place, part.slot(), number as u64)
}
