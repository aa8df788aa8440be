//! What holds of the charts of `chart`.
ghost use Rattle.std.specs.Prelude.{List, ℕ};
ghost use Rattle.svg_text.specs.Xml.{IsDocument};
ghost use Rattle.chart_links.specs.declared.window.ChartWindow.{ChartWindow};
ghost use Rattle.chart_engine.specs.Chart.{out_chart};
ghost use Rattle.chart_engine.specs.Events.{IsOfEvents};

use chart_links::events_get_the_next_row;
use fabric_settle::laws::a_settlement_is_of_answers;
use svg_text::pages_are_well_formed;

/// What `chart` writes is a well-formed document of XML, whatever the input is.
pub fn charts_are_well_formed()
    ensures { (window : ChartWindow) (input : List ℕ) → IsDocument (out_chart window input).text }
{
    pages_are_well_formed();
}

/// What `chart` writes is the chart of events that happened one after the other to the new fabric of a configuration, and
/// perhaps of one that was refused last. So the law of arrows speaks of it: `chart_laws::arrows_begin_where_packets_were_sent`.
/// Its step lines were shown the fabric after the event of each row, so the law of step lines speaks of them:
/// `chart_levels::step_lines_have_the_levels_of_their_rows`.
pub fn charts_show_what_happened()
    ensures { (window : ChartWindow) (input : List ℕ) → IsOfEvents window (out_chart window input).text }
{
    a_settlement_is_of_answers();
    events_get_the_next_row();
}
