//! What holds of every chart.
#![tactic(auto)]

ghost use Rattle.std.specs.Prelude.{◌≡◌, ◌<◌, ℕ, List, length, take};
ghost use Rattle.chart_links.specs.declared.window.ChartWindow.{ChartWindow};
ghost use Rattle.chart_links.specs.ChartView.{new_chart};
ghost use Rattle.chart_laws.specs.Arrows.{Tale, NeverMore, beginnings, sendings};

/// The n-th arrow of packets on a lane is that of the n-th packet that was sent on it: it has its number and what it
/// carries, and begins in the row in which it was sent, as long as no more packets arrive than were sent. What isn't
/// shown has no row.
pub fn arrows_begin_where_packets_were_sent()
    ensures { (window : ChartWindow) (requesters lane : ℕ) (tales : List Tale) → lane < 16 → NeverMore lane 0 (new_chart window requesters) tales
        → beginnings lane (new_chart window requesters) tales
        ≡ take (length (beginnings lane (new_chart window requesters) tales)) (sendings lane (new_chart window requesters) tales) }
{}
