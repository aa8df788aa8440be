//! What holds of the trace and the history of a device, whatever it is asked.
ghost use Rattle.std.specs.Prelude.{◌≡◌, ◌<◌, ℕ, List, None, Some, slice_get, true};
ghost use Rattle.seq_memory.specs.declared.limits.TheConstants as limits;
ghost use Rattle.tlp_core.specs.Ops.{Op};
ghost use Rattle.seq_memory.specs.Entries.{Entry};
ghost use Rattle.seq_memory.specs.Entries.{Reply};
ghost use Rattle.seq_memory.specs.History.{extent_of};
ghost use Rattle.history_words.specs.declared.record.RecordOf.TheVariants.{Sub, Ans};
ghost use Rattle.history_words.specs.Clocks.{IsClocked, KeepsRealTimeOrder};
ghost use Rattle.history_words.specs.Flaws.{first_flaw_clocked};
ghost use Rattle.history_words.specs.Trace.{Explains};
ghost use Rattle.config_core.specs.SetupView.{SetupView, is_size};
ghost use Rattle.endpoint_core.specs.Runs.{Call};
ghost use Rattle.endpoint_laws.specs.Requests.{IsBlockRequest, IsDataReply};
ghost use Rattle.endpoint_laws.specs.Runs.{AreBytes, claim_after, submitted_after};

use config_core::laws::what_is_read_only_stays;
use endpoint_core::laws::whatever_comes;
use history_check::laws::explained_is_without_flaw;
use history_words::laws::answered_first_acts_first;
use op_pieces::laws::{blocks_are_the_request, pieces_act_as_their_request};
use seq_memory::laws::history_grows_by_steps;
use tlp_core::laws::reading_is_spelling;

/// Whatever TLPs come, and whenever requests act and resets happen: the history that is recorded of a device explains its
/// trace. Each answer is the sequential memory's at the point where its block request acted, which lies behind its
/// submission. The `n` are those of a history that grew, so that block requests act in real-time order. So a check of both
/// finds no flaw.
pub fn an_endpoints_trace_is_explained()
    ensures explained { (s : SetupView) (cs : List Call) → is_size s.size ≡ true → AreBytes cs → Explains (claim_after s cs) }
    ensures clocked { (s : SetupView) (cs : List Call) → is_size s.size ≡ true → AreBytes cs → IsClocked (claim_after s cs) }
    ensures ordered { (s : SetupView) (cs : List Call) → is_size s.size ≡ true → AreBytes cs → KeepsRealTimeOrder (claim_after s cs) }
    ensures flawless { (s : SetupView) (cs : List Call) → is_size s.size ≡ true → AreBytes cs → first_flaw_clocked (claim_after s cs) ≡ None }
{
    answered_first_acts_first();
    explained_is_without_flaw();
    blocks_are_the_request();
    history_grows_by_steps();
    pieces_act_as_their_request();
    reading_is_spelling();
    what_is_read_only_stays();
    whatever_comes();
}

/// What is recorded of a device are block requests of requester 1, in a memory from address 0 on: each has no fault and lies
/// in one block of 128 bytes, each answer is 1 to 128 bytes of data, and each number is below how many were submitted.
pub fn an_endpoint_records_block_requests()
    ensures memory { (s : SetupView) (cs : List Call) → is_size s.size ≡ true → AreBytes cs →
        extent_of (claim_after s cs).memory ≡ record { base = 0; size = s.size; block = limits.LARGE_BLOCK } }
    ensures submitted { (s : SetupView) (cs : List Call) (a i k n : ℕ) (op : Op) → is_size s.size ≡ true → AreBytes cs →
        slice_get (claim_after s cs).records a ≡ Some (Sub i k op n) → (i ≡ 1) × (k < submitted_after s cs) × IsBlockRequest s.size op }
    ensures answered { (s : SetupView) (cs : List Call) (a i k n : ℕ) (reply : Reply) → is_size s.size ≡ true → AreBytes cs →
        slice_get (claim_after s cs).records a ≡ Some (Ans i k reply n) → (i ≡ 1) × (k < submitted_after s cs) × IsDataReply reply }
    ensures acted { (s : SetupView) (cs : List Call) (p : ℕ) (e : Entry) → is_size s.size ≡ true → AreBytes cs →
        slice_get (claim_after s cs).memory.entries p ≡ Some e → (e.requester ≡ 1) × (e.number < submitted_after s cs) × IsBlockRequest s.size e.op }
{
    blocks_are_the_request();
    history_grows_by_steps();
    pieces_act_as_their_request();
    reading_is_spelling();
    what_is_read_only_stays();
    whatever_comes();
}
