//! A log, and what a scene shows of it.
use std::marker::Model;
use trace_diagnostics::TraceLines;
use trace_store::{RecordStore, TraceStore};

/// A log and its lines, the last record that is shown, the lines that are columns, and a history.
#[derive(Drop)]
pub(crate) struct Page<'a> {
    pub(crate) seen: &'a RecordStore,
    pub(crate) lines: &'a TraceLines,
    pub(crate) last: usize,
    pub(crate) columns: &'a [u64],
    pub(crate) history: &'a TraceStore,
}

impl<'a> Model for Page<'a> {
    ghost use Rattle.search_scene.specs.Scenes.{Page};

    ghost Value = { Page };

    ghost view = { λ p. record { trace = p.seen.now; lines = p.lines.now; last = p.last; columns = p.columns.now; history = p.history.now.memory.entries } };
}
