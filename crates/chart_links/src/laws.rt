//! What holds of the rows of a chart, and of charts with step lines.
ghost use Rattle.std.specs.Prelude.{◌≡◌, ℕ, Bool, List, [], length, Some};
ghost use Rattle.fabric_steps.specs.Event.{Event, Seen};
ghost use Rattle.chart_rows.specs.PageView.{PageView};
ghost use Rattle.chart_page.specs.Shapes.{chart_text};
ghost use Rattle.chart_links.specs.ChartView.{ChartView, charted, headed, head_row, row_for, rows_with};
ghost use Rattle.chart_links.specs.Levels.{levelled_text};

/// An event that is shown gets the next row, and one that isn't adds none; so does a `settle`.
pub fn events_get_the_next_row()
    ensures next { (v : ChartView) (line : ℕ) (event : Event) (what : Seen) (row : ℕ) → row_for v line event what ≡ Some row → row ≡ length v.page.rows }
    ensures rows { (v : ChartView) (line : ℕ) (event : Event) (what : Seen) →
        length (charted v line event what).page.rows ≡ rows_with (row_for v line event what) (length v.page.rows) }
    ensures head_next { (v : ChartView) (line row : ℕ) → head_row v line ≡ Some row → row ≡ length v.page.rows }
    ensures head_rows { (v : ChartView) (line : ℕ) → length (headed v line).page.rows ≡ rows_with (head_row v line) (length v.page.rows) }
{}

/// A chart with no step lines is the chart alone.
pub fn charts_without_levels_are_charts()
    ensures { (page : PageView) (is_red : Bool) (title : List ℕ) → levelled_text page [] is_red title ≡ chart_text page is_red title }
{}
