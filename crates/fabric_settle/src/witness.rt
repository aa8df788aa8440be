//! Who keeps something of a fabric's events.
ghost use Rattle.std.specs.Prelude.{◌≡◌, ◌<◌, ◌++◌, ℕ, vec_len, vec_capacity, option_to_list, true, OnOk, OnErr, IfErr};
ghost use Rattle.fabric_steps.specs.Fabric as fabrics;
ghost use Rattle.fabric_steps.specs.Event as events;
ghost use Rattle.fabric_core.specs.Answers.{answer};
ghost use Rattle.fabric_steps.specs.Faults.{is_memory, IsTold};
ghost use Rattle.fabric_core.specs.Runs.{has_record};
ghost use Rattle.fabric_settle.specs.Happenings.{Happening, happening, Answers};
ghost use Rattle.fabric_settle.specs.Keeping.{Witnessed, IsLossless, WantsMemory};
ghost use Rattle.fabric_settle.specs.Reached.{Reached};

use fabric_core::{ANSWER_ROOM, EventRef, Fabric, Refusal, SeenRef, record_of};
use history_words::Record;
use seq_memory::Keeper;
use std::alloc::AllocError;

/// Keeps something of each event that happens to a fabric.
///
/// Room is made before the event. After an error of [`saw`](Self::saw) what is kept may lack it.
pub trait Witness: Drop {
    // what is kept, apart from the room for more of it
    ghost Kept: { Type 0 };

    ghost kept: { Self → Kept };

    // what is kept after an event of that line of a script
    ghost saw: { ℕ → Kept → Happening → Kept };

    // there is room for what is kept of the event
    ghost has_room: { events.Event → Self → Type 0 };

    // to make room for the event can fail; and to keep it can fail, where there is room
    ghost needs_room: { events.Event → Type 0 };

    ghost may_lose: { events.Event → Type 0 };

    /// Makes room for what is kept of an event.
    fn make_room(&mut self, event: &EventRef<'_>) -> Result<(), AllocError>
        ensures kept { kept self.new ≡ kept self.old }
        ensures room { OnOk result (has_room event.now self.new) }
        ensures err { OnErr result (needs_room event.now) };

    /// Keeps what is to be kept of an event of that line, which left the fabric so.
    fn saw<K: Keeper>(
        &mut self,
        line: u64,
        event: &EventRef<'_>,
        seen: &SeenRef<'_>,
        fabric: &Fabric<K>,
    ) -> Result<(), AllocError>
        requires { has_room event.now self.old }
        ensures ok { OnOk result ((before : fabrics.Fabric) → Answers before event.now seen.now fabric.now →
            kept self.new ≡ saw line (kept self.old) (happening before event.now seen.now fabric.now)) }
        ensures err { OnErr result (may_lose event.now) };
}

/// Whether a trace has a record of the event.
fn is_recorded(event: &EventRef<'_>) -> bool
    ensures { result ≡ has_record event.now }
{
    matches!(event, EventRef::Submit(_, _) | EventRef::Collect(_))
}

/// Keeps a record for which there is room.
fn keep(records: &mut Vec<Record>, told: Option<Record>)
    requires { vec_len records.old < vec_capacity records.old }
    ensures { records.new.items ≡ records.old.items ++ option_to_list told }
{
    if let Some(record) = told {
        let _ = records.push(record);
    }
}

/// A trace: it grows by a record for each submission and each answer.
impl Witness for Vec<Record> {
    ghost use Rattle.std.specs.Prelude.{◌<◌, List, vec_len, vec_capacity};
    ghost use Rattle.history_words.specs.Records as records;
    ghost use Rattle.fabric_settle.specs.Keeping.{IsRecorded, Never, with_record};

    ghost Kept = { List records.Record };

    ghost kept = { λ trace. trace.items };

    ghost saw = { λ line. with_record };

    ghost has_room = { λ event trace. IsRecorded event → vec_len trace < vec_capacity trace };

    ghost needs_room = { IsRecorded };

    ghost may_lose = { Never };

    fn make_room(&mut self, event: &EventRef<'_>) -> Result<(), AllocError> {
        if is_recorded(event) {
            self.try_reserve(1)?;
        }
        Ok(())
    }

    fn saw<K: Keeper>(
        &mut self,
        _line: u64,
        event: &EventRef<'_>,
        seen: &SeenRef<'_>,
        fabric: &Fabric<K>,
    ) -> Result<(), AllocError> {
        if is_recorded(event) {
            keep(self, record_of(event, seen, fabric.count() as u64));
        }
        Ok(())
    }
}

/// Makes room for what is kept of an event.
fn prepare<W: Witness>(witness: &mut W, event: &EventRef<'_>) -> Result<(), Refusal>
    ensures kept { W.kept witness.new ≡ W.kept witness.old }
    ensures room { OnOk result (W.has_room event.now witness.new) }
    ensures cause { IfErr result (λ r. (r ≡ Refusal.Memory) × W.needs_room event.now) }
{
    match witness.make_room(event) {
        Ok(()) => Ok(()),
        Err(_) => Err(Refusal::Memory),
    }
}

/// Keeps what is to be kept of an event.
fn show<K: Keeper, W: Witness>(
    witness: &mut W,
    line: u64,
    event: &EventRef<'_>,
    seen: &SeenRef<'_>,
    fabric: &Fabric<K>,
) -> Result<(), Refusal>
    requires { W.has_room event.now witness.old }
    ensures ok { OnOk result ((before : fabrics.Fabric) → Answers before event.now seen.now fabric.now →
        W.kept witness.new ≡ W.saw line (W.kept witness.old) (happening before event.now seen.now fabric.now)) }
    ensures cause { IfErr result (λ r. (r ≡ Refusal.Memory) × W.may_lose event.now) }
{
    match witness.saw(line, event, seen, fabric) {
        Ok(()) => Ok(()),
        Err(_) => Err(Refusal::Memory),
    }
}

/// An event of that line of a script happens to the fabric, and the witness keeps what it keeps of it. A refusal changes
/// nothing, but that a witness for which memory is wanted after the event may lack it.
pub fn happen<K: Keeper, W: Witness>(
    fabric: &mut Fabric<K>,
    witness: &mut W,
    line: u64,
    event: &EventRef<'_>,
) -> Result<(), Refusal>
    ensures ok { OnOk result (Witnessed (W.saw line) fabric.old (W.kept witness.old) event.now fabric.new (W.kept witness.new)) }
    ensures told { IfErr result (λ r. IsTold r →
        (answer fabric.old event.now ≡ Err r) × (fabric.new ≡ fabric.old) × (W.kept witness.new ≡ W.kept witness.old)) }
    ensures lossless { OnErr result (IsLossless W.may_lose → (fabric.new ≡ fabric.old) × (W.kept witness.new ≡ W.kept witness.old)) }
    ensures memory { IfErr result (λ r. is_memory r ≡ true → WantsMemory W.needs_room W.may_lose fabric.new event.now) }
    ensures reached { Reached (W.saw line) (IsLossless W.may_lose) fabric.old (W.kept witness.old) fabric.new (W.kept witness.new) }
{
    prepare(witness, event)?;
    let mut room = ANSWER_ROOM;
    match fabric.step(event, &mut room) {
        Ok(seen) => show(witness, line, event, &seen, fabric),
        Err(refusal) => Err(refusal),
    }
}
