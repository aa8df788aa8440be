//! Laws of what was seen.
ghost use Rattle.std.specs.Prelude.{◌≡◌, List, ℕ, Ok, Err};
ghost use Rattle.history_words.specs.TraceView.{TraceView};
ghost use Rattle.record_text.specs.declared.fault.ReadFault.{ReadFault};
ghost use Rattle.record_text.specs.declared.fault.ReadFaultKind.TheVariants.{Memory};
ghost use Rattle.trace_text.specs.TraceReaderView.{read_of};
ghost use Rattle.log_text.specs.LogReaderView.{seen_of};
ghost use Rattle.log_text.specs.Told.{IsToldLog};

use trace_text::{fields_can_be_told, what_is_read_can_be_told};

/// Lines can tell each log that is read: its requests and operations, over a memory that there can be.
pub fn what_is_seen_can_be_told()
    ensures { (text : List ℕ) (t : TraceView) → seen_of text ≡ Ok t → IsToldLog t }
{
    fields_can_be_told();
    what_is_read_can_be_told();
}

/// No text has out of memory as its first fault, read as a trace or as a log. So if a reader is out of memory, a record or
/// an entry was refused.
pub fn no_fault_is_out_of_memory()
    ensures trace { (text : List ℕ) (f : ReadFault) → read_of text ≡ Err f → ¬ (f.kind ≡ Memory) }
    ensures seen { (text : List ℕ) (f : ReadFault) → seen_of text ≡ Err f → ¬ (f.kind ≡ Memory) }
{}
