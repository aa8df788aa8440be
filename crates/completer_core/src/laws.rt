//! Laws of completions: what holds of the definitions that the contracts cite.
ghost use Rattle.std.specs.Prelude.{◌≡◌, ◌*◌, false, None, Some, IsSomeAnd, length};
ghost use Rattle.tlp_core.specs.Ops.{Op};
ghost use Rattle.tlp_core.specs.TlpView.{TlpView};
ghost use Rattle.tlp_core.specs.Layout.{Spells, canonical};
ghost use Rattle.tlp_core.specs.Operation.{op_of, op_fault, is_posted, count_of};
ghost use Rattle.seq_memory.specs.Limits.{IsBlock};
ghost use Rattle.seq_memory.specs.Step.{refusal};
ghost use Rattle.seq_memory.specs.History.{MemoryView, bytes_of};
ghost use Rattle.completer_core.specs.Serving.{completion_to};

use tlp_core::laws::canonical_bytes_spell_their_packet;

/// A served request that is not posted has a completion with as many bytes of payload as its place
/// has, which are 4 times the completion's Length.
pub fn a_served_completion_has_its_length()
    ensures { (s : MemoryView) (t : TlpView) (op : Op) → op_of t ≡ Some op → op_fault op ≡ None → is_posted op ≡ false →
        refusal s.base s.size s.block op ≡ None → length (bytes_of s) ≡ s.size →
        IsSomeAnd (completion_to s t) (λ c. (length c.payload ≡ count_of op) × (4 * c.length ≡ length c.payload)) }
{}

/// The completion of a request is a packet: if canonical bytes spell the request, canonical bytes spell its completion.
pub fn a_completion_is_spelled()
    ensures { (s : MemoryView) (t c : TlpView) → IsBlock s.block → Spells (canonical t) t → completion_to s t ≡ Some c → Spells (canonical c) c }
{
    canonical_bytes_spell_their_packet();
}
