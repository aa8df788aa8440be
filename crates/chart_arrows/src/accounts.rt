//! What a chart keeps of each lane, beside the lane of the fabric.
ghost use Rattle.std.specs.Prelude.{ℕ, List, Option};
ghost use Rattle.fabric_steps.specs.Fabric.{Fabric};
ghost use Rattle.fabric_core.specs.declared.config.Config.{Config};
ghost use Rattle.fabric_steps.specs.Event.{Event, Seen};
ghost use Rattle.fabric_core.specs.Answers.{Happens};
ghost use Rattle.fabric_core.specs.Config.{IsNewWith};
ghost use Rattle.fabric_core.specs.Kept.{IsSoundFabric};
ghost use Rattle.chart_links.specs.declared.window.ChartWindow.{ChartWindow};
ghost use Rattle.chart_links.specs.CourseView.{CourseView};
ghost use Rattle.chart_links.specs.Lanes.{followed};
ghost use Rattle.chart_links.specs.ChartView.{new_chart};
ghost use Rattle.chart_laws.specs.Arrows.{Tale};
ghost use Rattle.chart_laws.specs.Happened.{told_all};
ghost use Rattle.chart_arrows.specs.Accounts.{AreAccountsOf, Happen};

use fabric_core::laws::{a_new_fabric_is_sound, each_event_keeps_it_sound};
use fabric_steps::laws::packets_keep_their_ports;
use lane_core::wire_bytes_tell_the_packet;

/// A chart keeps account of each lane: it is true of a new fabric, and each event that happens to a fabric keeps it so.
/// Therefore the chart of all events that happened to a new fabric has the account of the fabric that they left.
pub fn a_chart_keeps_account_of_its_fabric()
    ensures new { (c : Config) (f : Fabric) (window : ChartWindow) → IsNewWith c f → AreAccountsOf f (new_chart window c.requesters).courses }
    ensures kept { (f f' : Fabric) (event : Event) (what : Seen) (row : Option ℕ) (cs : List CourseView) → IsSoundFabric f → Happens f event what f' →
        AreAccountsOf f cs → AreAccountsOf f' (followed cs row event what).courses }
    ensures always { (c : Config) (window : ChartWindow) (tales : List Tale) (f left : Fabric) → IsNewWith c f → Happen f tales left →
        AreAccountsOf left (told_all (new_chart window c.requesters) tales).courses }
{
    a_new_fabric_is_sound();
    each_event_keeps_it_sound();
    packets_keep_their_ports();
    wire_bytes_tell_the_packet();
}
