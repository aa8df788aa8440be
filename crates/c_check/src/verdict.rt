//! The verdict on the text of a trace.
ghost use Rattle.std.specs.Prelude.{◌≡◌, ◌≤◌, ◌⊎◌, length, true, None, Ok, Err, IsOk, OnOk, IfErr};
ghost use Rattle.history_words.specs.Claim.{Claim};
ghost use Rattle.history_words.specs.Trace.{Explains};
ghost use Rattle.history_words.specs.Flaws.{Tells};
ghost use Rattle.trace_text.specs.TraceReaderView.{read_of};
ghost use Rattle.record_text.specs.Names.{fault_line};
ghost use Rattle.flaw_places.specs.Places.{flaw_line};
ghost use Rattle.c_buffer.specs.declared.outcome.Failure.TheVariants.{Text, SmallBuffer, NoMemory};
ghost use Rattle.c_buffer.specs.Buffer.{filled, is_silent};
ghost use Rattle.c_check.specs.Verdict.{judged, verdict, flaw_by, IsOrdered, IsRight, IsCheckCall};

use arrayvec::ArrayString;
use c_buffer::{Failure, LINE_BUFFER, tell_fault};
use flaw_places::write_flaw;
use history_check::{check_claim, check_claim_clocked};
use history_words::{Flaw, FlawKind};
use log_text::no_fault_is_out_of_memory;
use record_text::{ReadFault, ReadFaultKind, write_fault};
use std::alloc::Global;
use trace_store::TraceStore;
use trace_text::read_trace;

/// Puts the line of a flaw to the front of the buffer.
fn put_flaw(flaw: Flaw, buffer: &mut [u8]) -> Failure
    requires { 512 ≤ length buffer.old }
    ensures failure { result ≡ Text (length (flaw_line flaw.kind flaw.place)) }
    ensures buffer { buffer.new ≡ filled buffer.old (flaw_line flaw.kind flaw.place) }
{
    let mut text = ArrayString::new();
    write_flaw(flaw, &mut text);
    tell_fault(text.as_bytes(), buffer)
}

/// Puts the line of a text that can't be read to the front of the buffer.
fn put_fault(fault: ReadFault, buffer: &mut [u8]) -> Failure
    requires { 512 ≤ length buffer.old }
    ensures failure { result ≡ Text (length (fault_line fault)) }
    ensures buffer { buffer.new ≡ filled buffer.old (fault_line fault) }
{
    let mut text = ArrayString::new();
    write_fault(fault, &mut text);
    tell_fault(text.as_bytes(), buffer)
}

/// The check, with the `n` asked for or without.
fn checked(alloc: Global, claim: &TraceStore, is_clocked: bool) -> Result<(), Flaw>
    ensures ok { OnOk result (flaw_by is_clocked claim.now ≡ None) }
    ensures err { IfErr result (Tells (flaw_by is_clocked claim.now)) }
    ensures explained { OnOk result (Explains claim.now) }
    ensures ordered { OnOk result (is_clocked ≡ true → IsOrdered claim.now) }
    ensures flawed { IfErr result (λ f. ¬ (f.kind ≡ FlawKind.Memory) → IsRight is_clocked claim.now → ⊥) }
{
    if is_clocked {
        check_claim_clocked(alloc, claim)
    } else {
        check_claim(alloc, claim)
    }
}

/// Whether the history explains the trace.
fn judge(
    alloc: Global,
    claim: &TraceStore,
    is_clocked: bool,
    buffer: &mut [u8],
) -> Result<(), Failure>
    requires { 512 ≤ length buffer.old }
    ensures outcome { ¬ (result ≡ Err NoMemory) → result ≡ (judged buffer.old (flaw_by is_clocked claim.now)).outcome }
    ensures buffer { ¬ (result ≡ Err NoMemory) → buffer.new ≡ (judged buffer.old (flaw_by is_clocked claim.now)).buffer }
    ensures unchanged { IsOk result ⊎ (is_silent result ≡ true) → buffer.new ≡ buffer.old }
    ensures explained { IsOk result → Explains claim.now }
    ensures ordered { IsOk result → is_clocked ≡ true → IsOrdered claim.now }
    ensures flawed { IsRight is_clocked claim.now → IsOk result ⊎ (result ≡ Err NoMemory) }
{
    match checked(alloc, claim, is_clocked) {
        Ok(()) => Ok(()),
        Err(flaw) if flaw.kind == FlawKind::Memory => Err(Failure::NoMemory),
        Err(flaw) => Err(put_flaw(flaw, buffer)),
    }
}

/// Whether the history of the text explains its trace, and, if `is_clocked` is set, its `n` are those of a
/// history that grew: Ok if so. If not, or if the text is none of a trace, the line of `pciex check`, or of
/// `pciex check --clocked`, without its line feed stands at the front of `buffer`. `SmallBuffer` for fewer
/// than 512 bytes, which is tested first, or `NoMemory`, where nothing is known: never for a text whose
/// first fault comes before its records and entries. With these, and Ok, the buffer stays as it was.
pub fn check_text(
    alloc: Global,
    text: &[u8],
    is_clocked: bool,
    buffer: &mut [u8],
) -> Result<(), Failure>
    ensures outcome { ¬ (result ≡ Err NoMemory) → result ≡ (verdict is_clocked text.now buffer.old).outcome }
    ensures buffer { ¬ (result ≡ Err NoMemory) → buffer.new ≡ (verdict is_clocked text.now buffer.old).buffer }
    ensures no_memory { result ≡ Err NoMemory → IsCheckCall text.now buffer.old }
    ensures unchanged { IsOk result ⊎ (is_silent result ≡ true) → buffer.new ≡ buffer.old }
    ensures explained { IsOk result → (c : Claim) × (read_of text.now ≡ Ok c) × Explains c }
    ensures ordered { IsOk result → is_clocked ≡ true → (c : Claim) × (read_of text.now ≡ Ok c) × IsOrdered c }
    ensures unexplained { (c : Claim) → read_of text.now ≡ Ok c → IsRight is_clocked c → IsOk result ⊎ (result ≡ Err SmallBuffer) ⊎ (result ≡ Err NoMemory) }
{
    if buffer.len() < LINE_BUFFER {
        return Err(Failure::SmallBuffer);
    }
    no_fault_is_out_of_memory();
    match read_trace(alloc, text) {
        Ok(claim) => judge(alloc, &claim, is_clocked, buffer),
        Err(fault) if fault.kind == ReadFaultKind::Memory => Err(Failure::NoMemory),
        Err(fault) => Err(put_fault(fault, buffer)),
    }
}
