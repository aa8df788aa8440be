//! The chart as a witness of a fabric's events.
ghost use Rattle.std.specs.Prelude.{◌≡◌, ◌++◌, IfOk, OnOk, OnErr};
ghost use Rattle.chart_engine.specs.Chart as spec;

use chart_levels::{StepLine, show_all};
use chart_links::{Chart, ChartWindow, new_lines};
use fabric_core::{Event, EventRef, Fabric, Refusal, SeenRef};
use fabric_settle::Witness;
use seq_memory::Keeper;
use std::alloc::{AllocError, Global};
use std::marker::Model;

/// A chart that is told what happens to a fabric, with the step lines beside its rows.
#[derive(Drop)]
pub(crate) struct ChartWitness {
    chart: Chart,
    lines: Vec<StepLine>,
}

impl Model for ChartWitness {
    ghost use Rattle.chart_engine.specs.ChartWitnessView.{ChartWitnessView};

    ghost Value = { ChartWitnessView };

    ghost view = { λ w. record { chart = w.chart; lines = w.lines.items } };
}

/// Shows step lines the fabric after the event of a row, if it has one.
fn show_row<K: Keeper>(
    row: Option<u16>,
    fabric: &Fabric<K>,
    lines: &mut Vec<StepLine>,
) -> Result<(), AllocError>
    ensures { OnOk result (lines.new.items ≡ spec.row_shown row fabric.now lines.old.items) }
{
    match row {
        None => Ok(()),
        Some(row) => show_all(row, fabric, lines.as_mut_slice()),
    }
}

impl ChartWitness {
    /// The chart of a fabric with so many requesters, to which nothing has happened. The only error is being out of memory.
    pub(crate) fn new(
        alloc: Global,
        window: ChartWindow,
        requesters: u8,
    ) -> Result<ChartWitness, AllocError>
        ensures { IfOk result (λ witness. witness ≡ spec.new_witness window requesters) }
    {
        let chart = Chart::new(alloc, window, requesters)?;
        let lines = new_lines(alloc, window, requesters)?;
        Ok(ChartWitness { chart, lines })
    }

    /// An event happened, and left the fabric so.
    fn event<K: Keeper>(
        &mut self,
        line: u64,
        event: &EventRef<'_>,
        seen: &SeenRef<'_>,
        fabric: &Fabric<K>,
    ) -> Result<(), AllocError>
        ensures { OnOk result (self.new ≡ spec.witnessed self.old line event.now seen.now fabric.now) }
    {
        let row = self.chart.event(line, event.to_owned(), seen.to_owned())?;
        show_row(row, fabric, &mut self.lines)
    }

    /// That line of the script is a `settle`, and its events follow.
    pub(crate) fn settles(&mut self, line: u64, fabric: &Fabric) -> Result<(), AllocError>
        ensures { OnOk result (self.new ≡ spec.settles_with self.old line fabric.now) }
    {
        let row = self.chart.settle(line)?;
        show_row(row, fabric, &mut self.lines)
    }

    /// An event was refused by the fabric.
    pub(crate) fn refused(
        &mut self,
        line: u64,
        event: Event,
        refusal: Refusal,
        fabric: &Fabric,
    ) -> Result<(), AllocError>
        ensures { OnOk result (self.new ≡ spec.refused_with self.old line event refusal fabric.now) }
    {
        let row = self.chart.refused(line, event, refusal)?;
        show_row(row, fabric, &mut self.lines)
    }

    /// Adds the chart below a line, with its step lines. After an `Err` nothing is added.
    pub(crate) fn put(self, is_red: bool, title: &[u8], out: &mut Vec<u8>) -> Result<(), AllocError>
        ensures ok { OnOk result (out.new.items ≡ out.old.items ++ spec.witness_text self is_red title.now) }
        ensures err { OnErr result (out.new.items ≡ out.old.items) }
    {
        self.chart.put(self.lines.as_slice(), is_red, title, out)
    }
}

impl Witness for ChartWitness {
    ghost use Rattle.chart_engine.specs.ChartWitnessView.{ChartWitnessView};
    ghost use Rattle.fabric_settle.specs.Keeping.{Never, Always};
    ghost use Rattle.chart_engine.specs.Chart.{charted_of};

    ghost Kept = { ChartWitnessView };

    ghost kept = { λ witness. witness };

    ghost saw = { charted_of };

    ghost has_room = { λ event witness. Always event };

    ghost needs_room = { Never };

    ghost may_lose = { Always };

    fn make_room(&mut self, _event: &EventRef<'_>) -> Result<(), AllocError> {
        Ok(())
    }

    fn saw<K: Keeper>(
        &mut self,
        line: u64,
        event: &EventRef<'_>,
        seen: &SeenRef<'_>,
        fabric: &Fabric<K>,
    ) -> Result<(), AllocError> {
        self.event(line, event, seen, fabric)
    }
}
