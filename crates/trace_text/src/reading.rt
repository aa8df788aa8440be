//! Reading the whole text of a trace.
ghost use Rattle.std.specs.Prelude.{◌≡◌, IfOk, IfErr, Ok};
ghost use Rattle.trace_text.specs.TraceReaderView.{read_of, Tells};

use crate::form::TraceForm;
use record_text::{Misread, ReadFault, read_records};
use std::alloc::Global;
use trace_store::TraceStore;

/// The trace and the history that the text spells, or its first fault: its lines end in line feeds,
/// the last may lack it, and one carriage return before a line feed is ignored. A fault of kind
/// `Memory` tells that an allocation failed, for a record or an entry behind no fault. Nothing is
/// read behind the first fault.
pub fn read_trace(alloc: Global, text: &[u8]) -> Result<TraceStore, ReadFault>
    ensures ok { IfOk result (λ t. read_of text.now ≡ Ok t) }
    ensures err { IfErr result (Tells text.now) }
{
    match read_trace_with_cause(alloc, text) {
        Ok(read) => Ok(read),
        Err(misread) => Err(misread.fault),
    }
}

/// What [`read_trace`] returns, with the cause of a fault.
pub fn read_trace_with_cause(alloc: Global, text: &[u8]) -> Result<TraceStore, Misread>
    ensures ok { IfOk result (λ t. read_of text.now ≡ Ok t) }
    ensures err { IfErr result (λ e. Tells text.now e.fault) }
{
    match read_records(TraceForm::new(alloc), text) {
        Ok(form) => Ok(form.claim()),
        Err(misread) => Err(misread),
    }
}
