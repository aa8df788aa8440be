//! What holds of credits, whatever calls come.
ghost use Rattle.std.specs.Prelude.{◌≡◌, ◌↔◌, IsTrue, ℕ, ◌+◌, ◌*◌, ◌<◌, ◌≤◌, List, []};
ghost use Rattle.dllp_core.specs.declared.packet.Class.{Class};
ghost use Rattle.dllp_core.specs.declared.packet.Dllp.{Dllp};
ghost use Rattle.tlp_core.specs.TlpView.{TlpView, IsPacket};
ghost use Rattle.flow_control.specs.declared.counter.Part.{Part};
ghost use Rattle.flow_control.specs.declared.limits.LaneCredits.{LaneCredits};
ghost use Rattle.flow_control.specs.declared.needs.Need.{Need};
ghost use Rattle.flow_control.specs.declared.ledger.CreditLedger.{CreditLedger};
ghost use Rattle.flow_control.specs.Needs.{units_of, need_of};
ghost use Rattle.flow_control.specs.Limits.{IsInLimits, least_units};
ghost use Rattle.flow_control.specs.Credits.{CreditGateView, allocated, pick, first_of, allowance, grant, gate_covers, first_gate};
ghost use Rattle.flow_control.specs.Account.{Accounts, Direction, Event, HasCredit, IsRight, demand, after_event, numbers_after, new_direction, first_numbers, after_events, numbers_in};

/// The data units of a payload are the least number of units of 16 bytes that hold it.
pub fn units_are_the_least()
    ensures enough { (bytes : ℕ) → bytes ≤ 16 * units_of bytes }
    ensures least { (bytes n : ℕ) → bytes ≤ 16 * n → units_of bytes ≤ n }
{}

/// No packet needs more than the least data credit of its class, so each may go on a new lane, where nothing is used: a
/// finite first value is at least what any packet needs of it.
pub fn limits_let_each_packet_go()
    ensures header { (t : TlpView) → (need_of t).header ≡ 1 }
    ensures units { (t : TlpView) → IsPacket t → (need_of t).units ≤ least_units (need_of t).class }
    ensures goes { (credits : LaneCredits) (t : TlpView) → IsInLimits credits → IsPacket t → IsTrue (gate_covers (first_gate credits) (need_of t)) }
    ensures first { (credits : LaneCredits) (t : TlpView) (p : Part) → IsInLimits credits → IsPacket t → 0 < first_of (need_of t).class p credits →
        pick p (need_of t).header (need_of t).units ≤ first_of (need_of t).class p credits }
{}

/// The whole numbers behind the counters of one direction still stand behind them after each event, with the gate, the
/// ledger, the queue and what is under way apart.
pub fn each_event_keeps_the_account()
    ensures new { (credits : LaneCredits) → IsInLimits credits →
        HasCredit credits (new_direction credits).gate (new_direction credits).ledger (first_numbers credits) [] [] [] }
    ensures kept { (credits : LaneCredits) (d : Direction) (numbers : Accounts) (event : Event) →
        HasCredit credits d.gate d.ledger numbers d.queue d.on_the_way d.wire →
        HasCredit credits (after_event d event).gate (after_event d event).ledger (numbers_after d numbers event) (after_event d event).queue
        (after_event d event).on_the_way (after_event d event).wire }
{}

/// Where whole numbers stand behind the counters: for each finite counter what was used is at most what is known, that
/// is at most what was given, and what was given less what was used and what the queue and the packets under way hold
/// come to the first value. The gate's test is that of the room in whole numbers, and the receiver sees no overflow. A
/// gate whose CREDIT_LIMIT is CREDITS_ALLOCATED of the ledger knows all that was given.
pub fn an_account_is_right()
    ensures right { (credits : LaneCredits) (gate : CreditGateView) (ledger : CreditLedger) (numbers : Accounts) (queue on_the_way : List Need)
        (wire : List Dllp) (c : Class) (p : Part) →
        HasCredit credits gate ledger numbers queue on_the_way wire → 0 < first_of c p credits →
        IsRight p (first_of c p credits) (allowance c p gate) (grant c p ledger) (numbers c p) (demand c p queue) (demand c p on_the_way) }
    ensures all_known { (credits : LaneCredits) (gate : CreditGateView) (ledger : CreditLedger) (numbers : Accounts) (queue on_the_way : List Need)
        (wire : List Dllp) (c : Class) (p : Part) →
        HasCredit credits gate ledger numbers queue on_the_way wire → 0 < first_of c p credits → (allowance c p gate).limit ≡ allocated p (grant c p ledger) →
        (numbers c p).known ≡ (numbers c p).given }
{}

/// After any events in a new direction, whatever updates are lost and however often the counters wrap, whole numbers
/// stand behind the counters, and all is right with them. The gate covers a need exactly where each finite counter has
/// the room, what is known less what was used.
pub fn counters_stand_for_whole_numbers()
    ensures account { (credits : LaneCredits) (events : List Event) → IsInLimits credits →
        HasCredit credits (after_events (new_direction credits) events).gate (after_events (new_direction credits) events).ledger
        (numbers_in (new_direction credits) (first_numbers credits) events)
        (after_events (new_direction credits) events).queue (after_events (new_direction credits) events).on_the_way
        (after_events (new_direction credits) events).wire }
    ensures right { (credits : LaneCredits) (events : List Event) (c : Class) (p : Part) → IsInLimits credits → 0 < first_of c p credits →
        IsRight p (first_of c p credits) (allowance c p (after_events (new_direction credits) events).gate)
        (grant c p (after_events (new_direction credits) events).ledger)
        (numbers_in (new_direction credits) (first_numbers credits) events c p)
        (demand c p (after_events (new_direction credits) events).queue) (demand c p (after_events (new_direction credits) events).on_the_way) }
    ensures room { (credits : LaneCredits) (events : List Event) (need : Need) → IsInLimits credits → need.header ≤ 127 → need.units ≤ 2047 →
        IsTrue (gate_covers (after_events (new_direction credits) events).gate need) ↔
        ((p : Part) → 0 < first_of need.class p credits →
        (numbers_in (new_direction credits) (first_numbers credits) events need.class p).used + pick p need.header need.units ≤
        (numbers_in (new_direction credits) (first_numbers credits) events need.class p).known) }
{}
