//! The desk of a call: a seat at the table of its hall, and the parts that it takes there.
ghost use Rattle.std.specs.Prelude.{◌≡◌, ◌≢◌, ◌<◌, [], ◌∷◌, length, drop, None, Ok, Err, IfOk, IfErr, MatchResult};
ghost use Rattle.atomic_table.specs.Table.{rest};
ghost use Rattle.fabric_steps.specs.Event.{Event, Seen};
ghost use Rattle.hall_laws.specs.Calls.{knowing};
ghost use Rattle.hall_laws.specs.Parts.{part_slot, IsPartName, IsPartValue, IsMemory};
ghost use Rattle.hall_laws.specs.Rule.{Goes, history_in};
ghost use Rattle.hall_laws.specs.Standing.{token_of, others_of, Outside};
ghost use Rattle.hall_events.specs.Desks.{knows, held_at, IsAtTable, IsDesk, IsSame, entry, Has, IsLast, AreApart, Happened};
ghost use Rattle.hall_events.specs.Holds.{having};
ghost use Rattle.hall_events.specs.Refusals.{IsBusy};

use crate::refusal::HallRefusal;
use fabric_core::Refusal;
use hall_laws::laws::{AfterEvent, Place, Steps, event, put_back, put_back_seen};
use hall_laws::part::{Part, PartValue};
use hall_laws::takes::take_part;
use std::marker::Brand;

/// A part that a seat holds. It is not `Drop`, so that it has to go back to its slot.
pub struct Held {
    pub part: Part,
    pub value: PartValue,
}

/// A seat at the table of its hall.
#[derive(Drop)]
pub struct Desk<'a> {
    pub steps: &'a Steps,
    pub place: &'a mut Place,
    /// The seat's number. A part that it holds has the word `number + 1`.
    pub number: usize,
    /// How many requesters the fabric has, 1 to 7.
    pub requesters: u8,
}

/// What a seat knows after an event over two parts. Each call picks it.
pub(crate) trait Learns {
    ghost use Rattle.hall_laws.specs.declared.token.Knowledge.{Knowledge};

    ghost knows: { Knowledge };
}

impl Learns for Brand {
    ghost use Rattle.hall_laws.specs.Standing.{nobody};

    ghost knows = { nobody };
}

impl<'a> Desk<'a> {
    /// The desk of the seat at this place.
    pub fn new(steps: &'a Steps, place: &'a mut Place, number: usize, requesters: u8) -> Desk<'a>
        ensures same { result.place.ghost_name ≡ place.entry.ghost_name }
        ensures fields { (result.steps.now ≡ steps.now) × (result.place.now ≡ place.old) × (result.number ≡ number) × (result.requesters ≡ requesters) }
    {
        Desk {
            steps,
            place,
            number,
            requesters,
        }
    }

    /// Takes a part. `Busy` where another seat has it.
    pub(crate) fn take(&mut self, part: Part) -> Result<Held, HallRefusal>
        requires desk { IsDesk self.old × IsPartName self.old.requesters part }
        requires token { self.old.place.now.me ≡ having (knows self.old) (held_at self.old) }
        requires apart { Outside (part_slot part) (held_at self.old) }
        ensures desk { IsDesk self.new × IsSame self.old self.new }
        ensures taken { IfOk result (λ h. (h.part ≡ part) × IsPartValue part h.value ×
            Has self.new (knows self.old) ((part_slot part, h.value) ∷ held_at self.old)) }
        ensures busy { IfErr result (λ r. IsBusy (knows self.old) part r × (self.new.place.now.me ≡ self.old.place.now.me)) }
    {
        match take_part(self.steps, self.place, self.number, self.requesters, part) {
            Ok(value) => Ok(Held { part, value }),
            Err(word) => Err(HallRefusal::Busy { part, word }),
        }
    }

    /// Takes a second part. `Busy` where another seat has it; the first then goes back.
    pub(crate) fn take_second(&mut self, one: Held, part: Part) -> Result<(Held, Held), HallRefusal>
        requires desk { IsDesk self.old × IsPartName self.old.requesters part × IsPartName self.old.requesters one.part }
        requires apart { part_slot part ≢ part_slot one.part }
        requires held { self.old.place.now.me ≡ having (knows self.old) (entry one ∷ []) }
        ensures desk { IsDesk self.new × IsSame self.old self.new }
        ensures taken { IfOk result (λ t. (t.0 ≡ one) × (t.1.part ≡ part) × IsPartValue part t.1.value ×
            Has self.new (knows self.old) ((part_slot part, t.1.value) ∷ (entry one ∷ []))) }
        ensures busy { IfErr result (λ r. IsBusy (knows self.old) part r × (self.new.place.now.me ≡ knowing (knows self.old))) }
    {
        match self.take(part) {
            Ok(two) => Ok((one, two)),
            Err(busy) => {
                self.put_back(one);
                Err(busy)
            }
        }
    }

    /// Takes a third part. `Busy` where another seat has it; the others then go back.
    pub(crate) fn take_third(
        &mut self,
        one: Held,
        two: Held,
        part: Part,
    ) -> Result<(Held, Held, Held), HallRefusal>
        requires desk { IsDesk self.old × IsPartName self.old.requesters part × AreApart self.old one two }
        requires apart { (part_slot part ≢ part_slot one.part) × (part_slot part ≢ part_slot two.part) }
        requires held { self.old.place.now.me ≡ having (knows self.old) (entry two ∷ (entry one ∷ [])) }
        ensures desk { IsDesk self.new × IsSame self.old self.new }
        ensures taken { IfOk result (λ t. (t.0 ≡ one) × (t.1 ≡ two) × (t.2.part ≡ part) × IsPartValue part t.2.value ×
            Has self.new (knows self.old) ((part_slot part, t.2.value) ∷ (entry two ∷ (entry one ∷ [])))) }
        ensures busy { IfErr result (λ r. IsBusy (knows self.old) part r × (self.new.place.now.me ≡ knowing (knows self.old))) }
    {
        match self.take(part) {
            Ok(three) => Ok((one, two, three)),
            Err(busy) => {
                self.put_back(two);
                self.put_back(one);
                Err(busy)
            }
        }
    }

    /// The part that was taken last goes back as it was.
    pub(crate) fn put_back(&mut self, held: Held)
        requires table { IsAtTable self.old }
        requires held { IsLast self.old held }
        ensures same { IsSame self.old self.new }
        ensures back { self.new.place.now.me ≡ having (knows self.old) (drop 1 (held_at self.old)) }
    {
        let Held { part, value } = held;
        put_back(self.steps, self.place, part.slot(), value);
    }

    /// The memory, which is all that is held, goes back as it was. The seat then has seen its history.
    pub(crate) fn put_back_seen(&mut self, memory: Held)
        requires table { IsAtTable self.old }
        requires held { self.old.place.now.me ≡ having (knows self.old) (entry memory ∷ []) }
        requires memory { (memory.part ≡ Part.Memory) × IsMemory memory.value }
        ensures same { IsSame self.old self.new }
        ensures seen { self.new.place.now.me ≡ knowing (record (knows self.old) { seen = history_in memory.value }) }
    {
        let Held { part, value } = memory;
        match value {
            PartValue::Memory(memory) => {
                put_back_seen(self.steps, self.place, part.slot(), memory);
            }
            _ => unreachable!(),
        }
    }

    /// The event happens as this part goes home. `told` is for the proof alone.
    pub(crate) fn event<C: AfterEvent, T>(&mut self, held: Held, told: &T)
        requires table { IsAtTable self.old × IsPartName self.old.requesters held.part }
        requires token { (0 < length self.old.place.now.me.0) × (self.old.place.now.me.1 ≡ (part_slot held.part, None) ∷ rest self.old.place.now.me.1) ×
            (C.token.knows.number ≡ (knows self.old).number) }
        requires event { (e : Event) × (what : Seen) × Goes e what (token_of self.old.place.now.me.0) (part_slot held.part) held.value C.token }
        ensures same { IsSame self.old self.new }
        ensures happened { self.new.place.now.me ≡ (C.token ∷ others_of self.old.place.now.me.0, rest self.old.place.now.me.1) }
    {
        let Held { part, value } = held;
        event::<C, T>(self.steps, self.place, part.slot(), value, told);
    }

    /// The part that was taken goes back, since the fabric refuses the event.
    pub(crate) fn refuse(&mut self, one: Held, refusal: Refusal) -> HallRefusal
        requires table { IsAtTable self.old × IsPartName self.old.requesters one.part }
        requires held { self.old.place.now.me ≡ having (knows self.old) (entry one ∷ []) }
        ensures same { IsSame self.old self.new }
        ensures idle { self.new.place.now.me ≡ knowing (knows self.old) }
        ensures refused { result ≡ HallRefusal.Core refusal }
    {
        self.put_back(one);
        HallRefusal::Core(refusal)
    }

    /// The event over two parts happens as they go home. `told` is for the proof alone.
    pub(crate) fn happen<C: Learns, T>(&mut self, one: Held, two: Held, told: &T)
        requires table { IsAtTable self.old × AreApart self.old one two }
        requires event { Happened self.old one two C.knows }
        ensures same { IsSame self.old self.new }
        ensures idle { self.new.place.now.me ≡ knowing C.knows }
    {
        let _ = told;
        self.place.turn();
        self.event::<Brand, _>(one, &two);
        self.put_back(two);
    }

    /// The two parts that were taken go back, since the fabric refuses the event.
    pub(crate) fn refuse_both(&mut self, one: Held, two: Held, refusal: Refusal) -> HallRefusal
        requires table { IsAtTable self.old × AreApart self.old one two }
        requires held { self.old.place.now.me ≡ having (knows self.old) (entry two ∷ (entry one ∷ [])) }
        ensures same { IsSame self.old self.new }
        ensures idle { self.new.place.now.me ≡ knowing (knows self.old) }
        ensures refused { result ≡ HallRefusal.Core refusal }
    {
        self.put_back(two);
        self.refuse(one, refusal)
    }
}
