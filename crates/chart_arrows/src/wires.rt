//! What was sent on the wires of a lane.
ghost use Rattle.std.specs.Prelude.{◌≡◌, ◌++◌, ℕ, List};
ghost use Rattle.fabric_steps.specs.Fabric.{Fabric};
ghost use Rattle.fabric_core.specs.declared.config.Config.{Config};
ghost use Rattle.fabric_core.specs.Config.{IsNewWith};
ghost use Rattle.chart_links.specs.declared.window.ChartWindow.{ChartWindow};
ghost use Rattle.chart_links.specs.ChartView.{new_chart};
ghost use Rattle.chart_laws.specs.Arrows.{Tale, beginnings, sendings};
ghost use Rattle.chart_laws.specs.Happened.{told_all};
ghost use Rattle.chart_arrows.specs.Accounts.{Happen};
ghost use Rattle.chart_arrows.specs.Wires.{packets_left, dllp_sendings, dllp_beginnings, dllps_left};

use fabric_core::laws::{a_new_fabric_is_sound, each_event_keeps_it_sound};
use fabric_steps::laws::packets_keep_their_ports;
use lane_core::wire_bytes_tell_the_packet;

/// The packets that were sent on a lane are, in their order, those of its arrows and those that are still on its wire: each
/// arrow has the packet that was sent, and begins in the row in which it was sent. The same holds of the DLLPs on its wire
/// back. So no more arrive than were sent.
pub fn what_is_sent_arrives_or_is_left()
    ensures packets { (c : Config) (window : ChartWindow) (lane : ℕ) (tales : List Tale) (f left : Fabric) → IsNewWith c f → Happen f tales left →
        sendings lane (new_chart window c.requesters) tales
        ≡ beginnings lane (new_chart window c.requesters) tales ++ packets_left lane (told_all (new_chart window c.requesters) tales).courses }
    ensures dllps { (c : Config) (window : ChartWindow) (lane : ℕ) (tales : List Tale) (f left : Fabric) → IsNewWith c f → Happen f tales left →
        dllp_sendings lane (new_chart window c.requesters) tales
        ≡ dllp_beginnings lane (new_chart window c.requesters) tales ++ dllps_left lane (told_all (new_chart window c.requesters) tales).courses }
{
    a_new_fabric_is_sound();
    each_event_keeps_it_sound();
    packets_keep_their_ports();
    wire_bytes_tell_the_packet();
}
