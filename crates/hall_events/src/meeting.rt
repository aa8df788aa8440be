//! Two seats that meet.
ghost use Rattle.std.specs.Prelude.{◌≡◌, ◌<◌, List, ◌∷◌, length, drop, None, IfOk, IfErr};
ghost use Rattle.atomic_table.specs.Table.{rest};
ghost use Rattle.seq_memory.specs.Entries.{Entry};
ghost use Rattle.hall_laws.specs.declared.token.Knowledge.{Knowledge};
ghost use Rattle.hall_laws.specs.Parts.{IsMemory};
ghost use Rattle.hall_laws.specs.Calls.{IsSized, HasSlot, IsOf, IsIdle, knowing};
ghost use Rattle.hall_laws.specs.Standing.{token_of, Outside};
ghost use Rattle.hall_laws.specs.Rule.{dropped_seen, history_in};
ghost use Rattle.hall_laws.specs.Tells.{Met};
ghost use Rattle.hall_events.specs.Refusals.{IsBusy};

use crate::refusal::HallRefusal;
use hall_laws::duties::meeting;
use hall_laws::laws::{Place, Steps, join, put_back_seen, split};
use hall_laws::part::{Part, PartValue};
use hall_laws::takes::take_part;

/// The memory goes home, and all tokens of the seat have seen its history then, whose length is given.
fn see(steps: &Steps, place: &mut Place, memory: PartValue) -> u64
    requires table { (place.old.table_id ≡ steps.now.table_id) × HasSlot steps.now.table_id 0 }
    requires token { (0 < length place.old.me.0) × (place.old.me.1 ≡ (0, None) ∷ rest place.old.me.1) }
    requires memory { IsMemory memory }
    requires held { let h = (token_of place.old.me.0).held in (h ≡ (0, memory) ∷ drop 1 h) × Outside 0 (drop 1 h) }
    ensures seat { (place.new.table_id ≡ place.old.table_id) × (place.new.id ≡ place.old.id) }
    ensures seen { place.new.me ≡ (dropped_seen (history_in memory) place.old.me.0, rest place.old.me.1) }
    ensures number { result ≡ length (history_in memory) }
{
    match memory {
        PartValue::Memory(memory) => {
            let n = memory.inner.entries().len();
            put_back_seen(steps, place, Part::Memory.slot(), memory);
            n as u64
        }
        _ => unreachable!(),
    }
}

/// Both seats have seen one history then, and its length is given. `Busy` where another seat has the memory.
pub fn meet_as(
    steps: &Steps,
    first: Place,
    second: Place,
    number: usize,
    requesters: u8,
) -> Result<(Place, Place, u64), (HallRefusal, Place, Place)>
    requires table { IsSized steps.now.table_id requesters × IsOf steps.now.table_id requesters number first × (second.table_id ≡ steps.now.table_id) }
    requires idle { IsIdle first.me × IsIdle second.me }
    ensures seats { IfOk result (λ r. (r.0.table_id ≡ first.table_id) × (r.1.table_id ≡ first.table_id)) }
    ensures met { IfOk result (λ r. (h : List Entry) × (w : Knowledge) × (v : Knowledge) × (r.2 ≡ length h) × (r.0.me ≡ knowing w) × (r.1.me ≡ knowing v) ×
        Met (token_of first.me.0).knows h w × Met (token_of second.me.0).knows h v) }
    ensures refused { IfErr result (λ r. IsBusy (token_of first.me.0).knows Part.Memory r.0 × (r.1.table_id ≡ first.table_id) ×
        (r.2.table_id ≡ first.table_id) × (r.1.me ≡ first.me) × (r.2.me ≡ second.me)) }
{
    meeting();
    let mut both = first;
    join(steps, &mut both, second);
    let memory = match take_part(steps, &mut both, number, requesters, Part::Memory) {
        Ok(memory) => memory,
        Err(word) => {
            let one = split(steps, &mut both);
            let busy = HallRefusal::Busy {
                part: Part::Memory,
                word,
            };
            return Err((busy, one, both));
        }
    };
    let n = see(steps, &mut both, memory);
    let one = split(steps, &mut both);
    Ok((one, both, n))
}
