//! What is drawn of an event.
ghost use Rattle.std.specs.Prelude.{◌≡◌, ℕ, List, Option, Some, Ok, slice_get};
ghost use Rattle.link_replay.specs.CargoView.{CargoView};
ghost use Rattle.link_replay.specs.SenderView.{next_item};
ghost use Rattle.flow_control.specs.Queue.{Item};
ghost use Rattle.lane_core.specs.declared.packet.WirePacket.{WirePacket};
ghost use Rattle.lane_core.specs.declared.packet.Fate.{Fate};
ghost use Rattle.lane_core.specs.declared.packet.Arrival.{Arrival};
ghost use Rattle.lane_core.specs.Steps.{LaneEndsView};
ghost use Rattle.fabric_steps.specs.Fabric.{Fabric};
ghost use Rattle.fabric_steps.specs.declared.event.EventOf.TheVariants as events;
ghost use Rattle.fabric_steps.specs.declared.event.LaneName.{LaneName};
ghost use Rattle.fabric_steps.specs.declared.event.LaneName.TheVariants as lanes;
ghost use Rattle.fabric_steps.specs.Event.{Seen};
ghost use Rattle.fabric_steps.specs.declared.event.SeenOf.TheVariants as seen;
ghost use Rattle.fabric_core.specs.Answers.{lane_at, Happens};
ghost use Rattle.fabric_core.specs.Kept.{IsSoundFabric};
ghost use Rattle.chart_rows.specs.declared.row.Carried.{Carried};
ghost use Rattle.chart_rows.specs.declared.row.DllpSent.{DllpSent};
ghost use Rattle.chart_rows.specs.declared.row.PacketSent.{PacketSent};
ghost use Rattle.chart_rows.specs.declared.row.Deed.TheVariants as deeds;
ghost use Rattle.chart_links.specs.CourseView.{CourseView};
ghost use Rattle.chart_links.specs.Lanes.{followed};
ghost use Rattle.chart_arrows.specs.Accounts.{IsSaid, IsSaidOfBytes, IsSaidOnWire, AreAccountsOf};
ghost use Rattle.chart_arrows.specs.Replays.{replay_between};

/// What is drawn of a packet is what the fabric has where the event takes it: the packet that the sender sends next, the
/// oldest on the wire, the one at the place of a queue.
pub fn packets_are_drawn_as_they_are()
    ensures sent { (f : Fabric) (cs : List CourseView) (row : Option ℕ) (lane : LaneName) (e : LaneEndsView) (cargo : CargoView) (number : ℕ) →
        AreAccountsOf f cs → lane_at f lane ≡ Ok e →
        next_item e.sender.sending ≡ Some cargo →
        (c : Option Carried) × IsSaidOfBytes f.memory.entries cargo c ×
        ((followed cs row (events.Transmit lane) (seen.Sent number)).deed ≡ deeds.Sent lane number c) }
    ensures arrived { (f : Fabric) (cs : List CourseView) (row : Option ℕ) (lane : LaneName) (e : LaneEndsView) (p : WirePacket) (fate : Fate)
        (arrival : Arrival) → AreAccountsOf f cs → lane_at f lane ≡ Ok e →
        slice_get e.forward 0 ≡ Some p →
        (s : PacketSent) × IsSaidOnWire f.memory.entries p s ×
        ((followed cs row (events.Deliver lane fate) (seen.Delivered arrival)).deed ≡ deeds.Arrived lane fate arrival (Some s)) }
    ensures forwarded { (f : Fabric) (cs : List CourseView) (row : Option ℕ) (lane : LaneName) (e : LaneEndsView) (x : Item) (place port : ℕ) →
        AreAccountsOf f cs → lane_at f lane ≡ Ok e →
        slice_get e.receiver.queue place ≡ Some x →
        (c : Carried) × IsSaid f.memory.entries x (Some c) × ((followed cs row (events.Forward lane place) (seen.To port)).deed ≡ deeds.Forwarded (Some c)) }
    ensures served { (f : Fabric) (cs : List CourseView) (row : Option ℕ) (x : Item) (place index : ℕ) → AreAccountsOf f cs →
        slice_get f.inward.receiver.queue place ≡ Some x →
        (c : Carried) × IsSaid f.memory.entries x (Some c) × ((followed cs row (events.Serve place) (seen.At index)).deed ≡ deeds.Served (Some c) index) }
    ensures collected { (f : Fabric) (cs : List CourseView) (row : Option ℕ) (port : ℕ) (e : LaneEndsView) (x : Item) (what : Seen) → AreAccountsOf f cs →
        lane_at f (lanes.Down port) ≡ Ok e →
        slice_get e.receiver.queue 0 ≡ Some x →
        (c : Carried) × IsSaid f.memory.entries x (Some c) × ((followed cs row (events.Collect port) what).deed ≡ deeds.Collected port (Some c)) }
{}

/// What is drawn of a DLLP that arrives or is lost is the oldest on the wire back. What is drawn of a replay is what the
/// fabric's sender does: the number is that of the places by which it moved back, and the link stops exactly when the
/// sender stops.
pub fn replays_are_drawn_as_they_are()
    ensures expired { (f f' : Fabric) (cs : List CourseView) (row : Option ℕ) (lane : LaneName) (e e' : LaneEndsView) (what : Seen) → IsSoundFabric f →
        AreAccountsOf f cs →
        Happens f (events.Timer lane) what f' → lane_at f lane ≡ Ok e → lane_at f' lane ≡ Ok e' →
        (followed cs row (events.Timer lane) what).deed ≡ deeds.Expired lane (replay_between e.sender.sending e'.sender.sending) }
    ensures arrived { (f f' : Fabric) (cs : List CourseView) (row : Option ℕ) (lane : LaneName) (fate : Fate) (e e' : LaneEndsView) (what : Seen) →
        IsSoundFabric f → AreAccountsOf f cs →
        Happens f (events.DeliverDllp lane fate) what f' → lane_at f lane ≡ Ok e → lane_at f' lane ≡ Ok e' →
        (s : DllpSent) × (slice_get e.back 0 ≡ Some s.dllp) ×
        ((followed cs row (events.DeliverDllp lane fate) what).deed ≡
        deeds.ArrivedDllp lane fate (Some s) (replay_between e.sender.sending e'.sender.sending)) }
{}
