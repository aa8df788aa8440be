//! What holds of the charts of events that happened to a new fabric.
#![tactic(auto)]

ghost use Rattle.std.specs.Prelude.{◌≡◌, ◌<◌, ℕ, List, None, length, take};
ghost use Rattle.fabric_steps.specs.Fabric.{Fabric};
ghost use Rattle.fabric_core.specs.declared.config.Config.{Config};
ghost use Rattle.fabric_core.specs.New.{new_fabric, config_fault};
ghost use Rattle.chart_links.specs.declared.window.ChartWindow.{ChartWindow};
ghost use Rattle.chart_links.specs.ChartView.{new_chart};
ghost use Rattle.chart_laws.specs.Arrows.{Tale, NeverMore, beginnings, sendings};
ghost use Rattle.chart_laws.specs.Happened.{Happened};

mod accounts;
mod deeds;
mod wires;

pub use accounts::a_chart_keeps_account_of_its_fabric;
use chart_laws::arrows_begin_where_packets_were_sent;
pub use deeds::{packets_are_drawn_as_they_are, replays_are_drawn_as_they_are};
pub use wires::what_is_sent_arrives_or_is_left;

/// On the lanes of a new fabric to which these events happen, no more packets arrive than were sent.
pub fn packets_arrive_that_were_sent()
    ensures { (c : Config) (window : ChartWindow) (lane : ℕ) (tales : List Tale) (left : Fabric) → lane < 16 → config_fault c ≡ None
        → Happened (new_fabric c) tales left → NeverMore lane 0 (new_chart window c.requesters) tales }
{}

/// So in a chart of events that happened to a new fabric the n-th arrow of packets on a lane is that of the n-th packet
/// that was sent on it.
pub fn arrows_are_of_the_packets_sent()
    ensures { (c : Config) (window : ChartWindow) (lane : ℕ) (tales : List Tale) (left : Fabric) → lane < 16 → config_fault c ≡ None
        → Happened (new_fabric c) tales left
        → beginnings lane (new_chart window c.requesters) tales
        ≡ take (length (beginnings lane (new_chart window c.requesters) tales)) (sendings lane (new_chart window c.requesters) tales) }
{
    arrows_begin_where_packets_were_sent();
    packets_arrive_that_were_sent();
}
