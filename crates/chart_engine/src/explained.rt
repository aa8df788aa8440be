//! Charts of scripts, with reasons beside them.
ghost use Rattle.std.specs.Prelude.{◌≡◌, OnOk, OnErr, IfOk};
ghost use Rattle.line_loop.specs.Run.{IsWhole, IsPart};
ghost use Rattle.chart_engine.specs.Chart.{WritesDocument, out_chart};
ghost use Rattle.chart_engine.specs.Events.{WritesEvents};

use crate::chart::Charter;
use crate::laws::{charts_are_well_formed, charts_show_what_happened};
use chart_links::ChartWindow;
use diagnostics::{Reason, ReasonLines, Reasoned, Reasons, refusal_reason};
use line_loop::{EngineFault, run};
use script_text::script_misfit;
use std::alloc::{AllocError, Global};
use std::io::{Read, Write};

/// The refusal that ended a run, by the line that tells the end.
fn refusal_in(ending: &str) -> Option<&str> {
    let (_line, refusal) = ending.strip_prefix("refused ")?.split_once(' ')?;
    Some(refusal)
}

/// Why this line, the last one that was answered, ended the run.
fn end_reason(charter: &Charter, line: &[u8]) -> Reason {
    if let Some(refusal) = refusal_in(charter.ending()) {
        return refusal_reason(line, refusal);
    }
    match script_misfit(line, charter.has_fabric()) {
        Some(misfit) => Reason::of_misfit(line, &misfit),
        None => refusal_reason(line, ""),
    }
}

/// Says why a line ended the run of a script.
#[derive(Drop)]
struct EndReasons {}

impl Reasons<Charter> for EndReasons {
    fn tell(
        &self,
        charter: &mut Charter,
        line: &[u8],
        _text: &[u8],
        reasons: &mut ReasonLines,
    ) -> Result<(), AllocError> {
        reasons.tell(&end_reason(charter, line))
    }
}

/// Reads a script as `step` does, and writes a chart of what happened on the links of its fabric in SVG: the events of
/// the window, 1,000 at most, with step lines if it has levels. Above it stands the line of the fault or the refusal
/// that ended the run, in red, or that the script ran to its end. `Ok` is the exit status, 1 where a fault or a refusal
/// ended the run. After an `Err` what was written is a prefix of the whole output. Why a line of the script ended the
/// run is told on `errors`, in a line; a stream that fails there changes nothing.
pub fn run_chart<R: Read, W: Write, E: Write>(
    alloc: Global,
    window: ChartWindow,
    reader: &mut R,
    writer: &mut W,
    errors: &mut E,
) -> Result<u8, EngineFault>
    ensures ok { IfOk result (IsWhole (out_chart window) (R.remaining reader.old) (R.remaining reader.new) (W.contents writer.old) (W.contents writer.new)) }
    ensures err { OnErr result (IsPart (out_chart window) (R.remaining reader.old) (R.remaining reader.new) (W.contents writer.old) (W.contents writer.new)) }

    // Whatever the input is, what is written is a well-formed document of XML.
    ensures document { OnOk result (WritesDocument (W.contents writer.old) (W.contents writer.new)) }

    // It is the chart of events that happened one after the other to a new fabric, and perhaps of one refused last. Its
    // step lines have the levels of the fabric after the event of each row.
    ensures events { OnOk result (WritesEvents window (W.contents writer.old) (W.contents writer.new)) }
{
    let charter = Charter::new(alloc, window);
    let reasoned = Reasoned::new(alloc, charter, EndReasons {}, errors);
    let status = run(alloc, reasoned, reader, writer)?;
    charts_are_well_formed();
    charts_show_what_happened();
    Ok(status)
}
