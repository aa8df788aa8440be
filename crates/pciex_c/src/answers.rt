//! The calls without a handle.
ghost use Rattle.std.specs.Prelude.{◌≡◌, ◌≤◌, ◌<◌, ◌⊎◌, ℕ, List, true, false, Some, None, Result, Ok, codes, length, take, drop};
ghost use Rattle.tlp_core.specs.declared.fault.TlpFault as faults;
ghost use Rattle.tlp_core.specs.Fault.{number_of, name_of};
ghost use Rattle.tlp_core.specs.Faults.{reading};
ghost use Rattle.tlp_core.specs.TlpView.{TlpView};
ghost use Rattle.history_words.specs.Claim.{Claim};
ghost use Rattle.history_words.specs.Trace.{Explains};
ghost use Rattle.trace_text.specs.TraceReaderView.{read_of};
ghost use Rattle.log_pieces.specs.declared.Granularity.{Granularity};
ghost use Rattle.search_engine.specs.Search.{WantsMemory};
ghost use Rattle.pciex_c.specs.declared.codes.TheConstants.{SMALL_BUFFER, NO_MEMORY, NO_FAULT, WRONG_GRANULARITY};
ghost use Rattle.c_buffer.specs.declared.outcome.Failure.{Failure};
ghost use Rattle.c_buffer.specs.Buffer.{filled, cut};
ghost use Rattle.c_device.specs.Call.{call};
ghost use Rattle.c_check.specs.SearchVerdict.{IsSearched, IsSearchedIn, granularity_of};
ghost use Rattle.c_check.specs.Verdict.{verdict, IsOrdered, IsRight, IsCheckCall};
ghost use Rattle.c_packets.specs.Fields.{in_fields};
ghost use Rattle.c_packets.specs.Words.{in_words, in_bytes};
ghost use Rattle.pciex_c.specs.Codes.{code_of, status_of};

use crate::codes::{code, exit_code, status};
use c_check::{Question, Sizes};
use c_packets::TlpFields;
use std::alloc::Global;

/// One packet at a device over the caller's bytes, whose first has the address `base`.
#[unsafe(no_mangle)]
pub extern "C" fn pciex_raw_answer(
    bytes: &mut [u8],
    base: u64,
    block: u16,
    packet: &[u8],
    buffer: &mut [u8],
) -> u32
    ensures code { result ≡ code_of (call base block bytes.old packet.now buffer.old).outcome }
    ensures bytes { bytes.new ≡ (call base block bytes.old packet.now buffer.old).bytes }
    ensures buffer { buffer.new ≡ (call base block bytes.old packet.now buffer.old).buffer }
    ensures unchanged { 1000 ≤ result → (bytes.new ≡ bytes.old) × (buffer.new ≡ buffer.old) }
{
    code(c_device::answer_bytes(base, block, bytes, packet, buffer))
}

/// Whether the history of the text explains its trace.
#[unsafe(no_mangle)]
pub extern "C" fn pciex_raw_check(alloc: Global, text: &[u8], buffer: &mut [u8]) -> u32
    ensures code { ¬ (result ≡ NO_MEMORY) → result ≡ status_of (verdict false text.now buffer.old).outcome }
    ensures buffer { ¬ (result ≡ NO_MEMORY) → buffer.new ≡ (verdict false text.now buffer.old).buffer }
    ensures no_memory { result ≡ NO_MEMORY → IsCheckCall text.now buffer.old }
    ensures unchanged { (result ≡ 0) ⊎ (2000 ≤ result) → buffer.new ≡ buffer.old }
    ensures explained { result ≡ 0 → (c : Claim) × (read_of text.now ≡ Ok c) × Explains c }
    ensures unexplained { (c : Claim) → read_of text.now ≡ Ok c → Explains c → (result ≡ 0) ⊎ (result ≡ SMALL_BUFFER) ⊎ (result ≡ NO_MEMORY) }
{
    status(c_check::check_text(alloc, text, false, buffer))
}

/// The same, and whether its `n` are those of a history that grew: then requests act in real-time order.
#[unsafe(no_mangle)]
pub extern "C" fn pciex_raw_check_clocked(alloc: Global, text: &[u8], buffer: &mut [u8]) -> u32
    ensures code { ¬ (result ≡ NO_MEMORY) → result ≡ status_of (verdict true text.now buffer.old).outcome }
    ensures buffer { ¬ (result ≡ NO_MEMORY) → buffer.new ≡ (verdict true text.now buffer.old).buffer }
    ensures no_memory { result ≡ NO_MEMORY → IsCheckCall text.now buffer.old }
    ensures unchanged { (result ≡ 0) ⊎ (2000 ≤ result) → buffer.new ≡ buffer.old }
    ensures ordered { result ≡ 0 → (c : Claim) × (read_of text.now ≡ Ok c) × IsOrdered c }
    ensures flawed { (c : Claim) → read_of text.now ≡ Ok c → IsRight true c → (result ≡ 0) ⊎ (result ≡ SMALL_BUFFER) ⊎ (result ≡ NO_MEMORY) }
{
    status(c_check::check_text(alloc, text, true, buffer))
}

/// A history that explains the log of the text, or that there is none.
#[unsafe(no_mangle)]
pub extern "C" fn pciex_raw_search(
    alloc: Global,
    text: &[u8],
    limit: u64,
    buffer: &mut [u8],
    size: &mut usize,
) -> u32
    ensures answered { ¬ (result ≡ NO_MEMORY) →
        (outcome : Result ℕ Failure) × (result ≡ code_of outcome) × IsSearched limit text.now buffer.old buffer.new size.new outcome }
    ensures no_memory { result ≡ NO_MEMORY → WantsMemory text.now }
    ensures unchanged_size { result ≡ NO_MEMORY → size.new ≡ size.old }
    ensures unchanged { 2000 ≤ result → buffer.new ≡ buffer.old }
{
    exit_code(c_check::search_text(alloc, text, limit, buffer, size))
}

/// The same for a history of pieces of so many bytes, or of whole requests for 0; and why there is none.
#[unsafe(no_mangle)]
pub extern "C" fn pciex_raw_search_with_reasons(
    alloc: Global,
    text: &[u8],
    limit: u64,
    granularity: u32,
    buffer: &mut [u8],
    size: &mut usize,
    reasons: &mut [u8],
    reasons_size: &mut usize,
) -> u32
    ensures wrong { granularity_of granularity ≡ None → result ≡ WRONG_GRANULARITY }
    ensures answered { ¬ (result ≡ NO_MEMORY) → (g : Granularity) → granularity_of granularity ≡ Some g →
        (outcome : Result ℕ Failure) × (result ≡ code_of outcome) × IsSearchedIn g limit text.now buffer.old buffer.new size.new outcome }
    ensures reasons { result < 1000 → (lines : List ℕ) × (reasons_size.new ≡ length lines) × (reasons.new ≡ cut reasons.old lines) }
    ensures no_memory { result ≡ NO_MEMORY → WantsMemory text.now }
    ensures unchanged_sizes { (result ≡ NO_MEMORY) ⊎ (result ≡ WRONG_GRANULARITY) → (size.new ≡ size.old) × (reasons_size.new ≡ reasons_size.old) }
    ensures unchanged { 1000 ≤ result → (buffer.new ≡ buffer.old) × (reasons.new ≡ reasons.old) }
{
    let question = Question {
        text,
        limit,
        bytes: granularity,
    };
    let mut sizes = Sizes {
        answer: *size,
        reasons: *reasons_size,
    };
    let outcome = c_check::search_with_reasons(alloc, question, buffer, reasons, &mut sizes);
    *size = sizes.answer;
    *reasons_size = sizes.reasons;
    exit_code(outcome)
}

/// The fields of a TLP.
#[unsafe(no_mangle)]
pub extern "C" fn pciex_raw_decode_tlp(packet: &[u8], tlp: &mut TlpFields) -> u32
    ensures code { result ≡ status_of (in_fields packet.now tlp.old).outcome }
    ensures fields { tlp.new ≡ (in_fields packet.now tlp.old).fields }
    ensures payload { result ≡ 0 →
        (t : TlpView) × (reading packet.now ≡ Ok t) × (t.payload ≡ take tlp.new.payload_length (drop tlp.new.payload_start packet.now)) }
    ensures unchanged { 1 ≤ result → tlp.new ≡ tlp.old }
{
    status(c_packets::decode_tlp(packet, tlp))
}

/// The words of a TLP or a DLLP.
#[unsafe(no_mangle)]
pub extern "C" fn pciex_raw_decode(packet: &[u8], buffer: &mut [u8]) -> u32
    ensures code { result ≡ code_of (in_words packet.now buffer.old).outcome }
    ensures buffer { buffer.new ≡ (in_words packet.now buffer.old).buffer }
    ensures unchanged { 2000 ≤ result → buffer.new ≡ buffer.old }
{
    code(c_packets::tell_packet(packet, buffer))
}

/// The bytes of the packet that the words spell.
#[unsafe(no_mangle)]
pub extern "C" fn pciex_raw_encode(line: &[u8], buffer: &mut [u8]) -> u32
    ensures code { result ≡ code_of (in_bytes line.now buffer.old).outcome }
    ensures buffer { buffer.new ≡ (in_bytes line.now buffer.old).buffer }
    ensures unchanged { 2000 ≤ result → buffer.new ≡ buffer.old }
{
    code(c_packets::tell_bytes(line, buffer))
}

/// The name of the TLP's fault with that number.
#[unsafe(no_mangle)]
pub extern "C" fn pciex_raw_fault_name(number: u32, buffer: &mut [u8]) -> u32
    ensures code { (f : faults.TlpFault) → number ≡ number_of f → 512 ≤ length buffer.old → result ≡ length (name_of f) }
    ensures buffer { (f : faults.TlpFault) → number ≡ number_of f → 512 ≤ length buffer.old → buffer.new ≡ filled buffer.old (name_of f) }
    ensures small { length buffer.old < 512 → result ≡ SMALL_BUFFER }
    ensures unchanged { 1000 ≤ result → buffer.new ≡ buffer.old }
    ensures named { result < 1000 → (f : faults.TlpFault) × (number ≡ number_of f) }
    ensures no_fault { 512 ≤ length buffer.old → ((f : faults.TlpFault) → ¬ (number ≡ number_of f)) → result ≡ NO_FAULT }
{
    code(c_packets::name_fault(number, buffer))
}

/// The version of the library.
#[unsafe(no_mangle)]
pub extern "C" fn pciex_raw_version(buffer: &mut [u8]) -> u32
    ensures code { 512 ≤ length buffer.old → result ≡ 11 }
    ensures buffer { 512 ≤ length buffer.old → buffer.new ≡ filled buffer.old (codes "pciex 0.2.0") }
    ensures small { length buffer.old < 512 → result ≡ SMALL_BUFFER }
    ensures unchanged { 1000 ≤ result → buffer.new ≡ buffer.old }
{
    code(c_packets::tell_version(buffer))
}
