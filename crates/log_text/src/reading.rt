//! Reading the whole text of a log.
ghost use Rattle.std.specs.Prelude.{◌≡◌, ◌⊎◌, IfOk, IfErr, Ok, Err};
ghost use Rattle.trace_text.specs.TraceReaderView.{read_of, IsRefused};
ghost use Rattle.log_text.specs.LogReaderView.{log_of, seen_of, is_head, without_history, Tells, SeenTells};

use crate::form::LogForm;
use record_text::{Cause, Misread, ReadFault, ReadFaultKind, read_records};
use std::alloc::Global;
use trace_store::RecordStore;
use trace_text::read_trace_with_cause;

/// What [`read_log`] returns, with the cause of a fault.
fn read_log_with_cause(alloc: Global, text: &[u8]) -> Result<RecordStore, Misread>
    ensures ok { IfOk result (λ t. log_of text.now ≡ Ok t) }
    ensures err { IfErr result (λ e. Tells text.now e.fault) }
{
    match read_records(LogForm::new(alloc), text) {
        Ok(form) => Ok(form.log()),
        Err(misread) => Err(misread),
    }
}

/// The log that the text spells, or its first fault: its lines end in line feeds, the last may lack it,
/// and one carriage return before a line feed is ignored. Each n of its records is 0. A fault of kind
/// `Memory` tells that an allocation failed, for a record behind no fault. Nothing is read behind the
/// first fault.
pub fn read_log(alloc: Global, text: &[u8]) -> Result<RecordStore, ReadFault>
    ensures ok { IfOk result (λ t. log_of text.now ≡ Ok t) }
    ensures err { IfErr result (Tells text.now) }
{
    match read_log_with_cause(alloc, text) {
        Ok(log) => Ok(log),
        Err(misread) => Err(misread.fault),
    }
}

/// The first line is none of a log.
fn is_head(kind: ReadFaultKind) -> bool
    ensures { result ≡ is_head kind }
{
    matches!(kind, ReadFaultKind::Head)
}

/// A fault of a trace in the place of a log, in whose head this was wrong.
fn told_by(misread: Misread, head: Cause) -> Misread
    ensures { result.fault ≡ misread.fault }
{
    let Misread { fault, cause } = misread;
    let cause = if is_head(fault.kind) { head } else { cause };
    Misread { fault, cause }
}

/// The trace that the text spells, without its history. In the head of a log this was wrong.
fn read_seen_trace(alloc: Global, text: &[u8], head: Cause) -> Result<RecordStore, Misread>
    ensures ok { IfOk result (λ t. without_history (read_of text.now) ≡ Ok t) }
    ensures err { IfErr result (λ e. (without_history (read_of text.now) ≡ Err e.fault) ⊎ IsRefused text.now e.fault) }
{
    match read_trace_with_cause(alloc, text) {
        Ok(read) => Ok(read.into_seen()),
        Err(misread) => Err(told_by(misread, head)),
    }
}

/// What [`read_seen`] returns, with the cause of a fault: if neither a log's head nor a trace's is there,
/// that one is expected.
pub fn read_seen_with_cause(alloc: Global, text: &[u8]) -> Result<RecordStore, Misread>
    ensures ok { IfOk result (λ t. seen_of text.now ≡ Ok t) }
    ensures err { IfErr result (λ e. SeenTells text.now e.fault) }
{
    match read_log_with_cause(alloc, text) {
        Ok(log) => Ok(log),
        Err(misread) if is_head(misread.fault.kind) => {
            read_seen_trace(alloc, text, misread.cause)
        }
        Err(misread) => Err(misread),
    }
}

/// What was seen: the log that the text spells, or else the trace, of version 1 or 2, without its history;
/// or the first fault, of a trace if the head is none of a log. A fault of kind `Memory` tells that an
/// allocation failed.
pub fn read_seen(alloc: Global, text: &[u8]) -> Result<RecordStore, ReadFault>
    ensures ok { IfOk result (λ t. seen_of text.now ≡ Ok t) }
    ensures err { IfErr result (SeenTells text.now) }
{
    match read_seen_with_cause(alloc, text) {
        Ok(seen) => Ok(seen),
        Err(misread) => Err(misread.fault),
    }
}
