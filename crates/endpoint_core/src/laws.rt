//! Laws of any list of calls.
ghost use Rattle.std.specs.Prelude.{ℕ, ◌≡◌, ◌+◌, ◌-◌, ◌%◌, ◌++◌, ◌∷◌, [], List, Some, None, IsSome, false, true};
ghost use Rattle.seq_memory.specs.declared.limits.TheConstants as limits;
ghost use Rattle.tlp_core.specs.Ops.{Op};
ghost use Rattle.tlp_core.specs.Operation.{address_of, count_of, op_fault, op_of};
ghost use Rattle.tlp_core.specs.declared.packet.Kind.TheVariants as kinds;
ghost use Rattle.tlp_core.specs.TlpView.{TlpView};
ghost use Rattle.op_pieces.specs.Pieces.{enables_of};
ghost use Rattle.completer_core.specs.Span.{lead};
ghost use Rattle.completer_core.specs.Completion.{byte_count, lower_address};
ghost use Rattle.config_core.specs.SetupView.{SetupView};
ghost use Rattle.endpoint_core.specs.declared.received.Received.TheVariants as received;
ghost use Rattle.config_core.specs.declared.request.CfgRequest.{CfgRequest};
ghost use Rattle.endpoint_core.specs.Classes.{becomes, descriptor_of, is_poisoned};
ghost use Rattle.endpoint_core.specs.EndpointView.{DeviceView, EndpointView};
ghost use Rattle.endpoint_core.specs.declared.waiting.Waiting.{Waiting};
ghost use Rattle.endpoint_core.specs.declared.waiting.Waiting.TheVariants as waits;
ghost use Rattle.endpoint_core.specs.Steps.{new_endpoint, is_claimed, taken, next_completion, first_block, dw_in_front, behind};
ghost use Rattle.endpoint_core.specs.Runs.{Call, Take, after_calls, blocks_in, all_coming, all_leaving, effects_posted, all_effects, bytes_by, blocks_waiting, descriptor_in, descriptors_waiting, all_asked, all_finished, register_effects_as, register_effects_by, all_register_effects, registers_by};

/// Whatever comes, and whenever requests act and resets happen: the block requests of all non-posted memory requests that
/// came, in order, are those that left the queue, in order, and those that wait. So each leaves it once: it acts, its request
/// is not supported, or a reset drops it. The memory holds what the block requests that acted make of the bytes that it had,
/// and the registers what writes, errors and resets make of them, in order. Each request that acts has a completion then, a
/// read one for each block.
pub fn whatever_comes()
    ensures requests { (s : SetupView) (cs : List Call) → all_coming cs ≡ all_leaving (new_endpoint s) cs ++ blocks_waiting (after_calls (new_endpoint s) cs) }
    ensures bytes { (e : EndpointView) (cs : List Call) → (after_calls e cs).device.bytes ≡ bytes_by e.device.bytes (all_effects e cs) }
    ensures registers { (e : EndpointView) (cs : List Call) →
        (after_calls e cs).device.registers ≡ registers_by e.device.registers (all_register_effects e cs) }
    ensures completions { (s : SetupView) (cs : List Call) (w : Waiting) (ws : List Waiting) → (after_calls (new_endpoint s) cs).waiting ≡ w ∷ ws →
        IsSome (next_completion (after_calls (new_endpoint s) cs)) }
{}

/// The same from any device in which nothing waits, as after a reset: each block request that came leaves the queue once,
/// or waits.
pub fn each_request_leaves_once()
    ensures { (e : EndpointView) (cs : List Call) → e.waiting ≡ [] → all_coming cs ≡ all_leaving e cs ++ blocks_waiting (after_calls e cs) }
{}

/// A posted request is never behind a completion (section 2.4.1): whatever waits, it acts when it comes, behind all that acted
/// before it and in front of all that acts later, and what waits is as it was. A non-posted request that comes does nothing
/// yet: it waits behind the others, and so it acts behind all posted requests that came before it. Writes alone are posted.
pub fn posted_requests_act_when_they_come()
    ensures acts { (e : EndpointView) (cs ds : List Call) (b : List ℕ) (t : TlpView) → becomes b ≡ received.Posted t →
        all_effects e (cs ++ Take b ∷ ds) ≡ all_effects e cs ++
        (effects_posted (after_calls e cs).device (op_of t) ++ all_effects (after_calls e (cs ++ Take b ∷ [])) ds) }
    ensures stays { (e : EndpointView) (cs : List Call) (b : List ℕ) (t : TlpView) → becomes b ≡ received.Posted t →
        (after_calls e (cs ++ Take b ∷ [])).waiting ≡ (after_calls e cs).waiting }
    ensures later { (e : EndpointView) (cs ds : List Call) (b : List ℕ) (t : TlpView) → becomes b ≡ received.NonPosted t →
        all_effects e (cs ++ Take b ∷ ds) ≡ all_effects e cs ++ all_effects (after_calls e (cs ++ Take b ∷ [])) ds }
    ensures writes { (b : List ℕ) (t : TlpView) → becomes b ≡ received.Posted t → t.kind ≡ kinds.MemoryWrite }
    ensures waits { (e : EndpointView) (cs : List Call) (b : List ℕ) (t : TlpView) → becomes b ≡ received.NonPosted t →
        blocks_waiting (after_calls e (cs ++ Take b ∷ [])) ≡ blocks_waiting (after_calls e cs) ++ blocks_in (op_of t) }
{}

/// Poisoned data is not used (section 2.7.2.2): when it comes no byte of the memory changes, no block request of it waits, and
/// it writes no register.
pub fn poisoned_data_is_not_used()
    ensures bytes { (e : EndpointView) (b : List ℕ) → is_poisoned b ≡ true → (taken e b).device.bytes ≡ e.device.bytes }
    ensures waits { (e : EndpointView) (b : List ℕ) → is_poisoned b ≡ true → blocks_waiting (taken e b) ≡ blocks_waiting e }
    ensures registers { (b : List ℕ) (r : CfgRequest) → is_poisoned b ≡ true → becomes b ≡ received.Configuration r → ⊥ }
{}

/// That a request isn't claimed goes before that it is poisoned (section 6.2.3.2.3): a poisoned write or AtomicOp that no BAR
/// claims has the report of one that isn't poisoned.
pub fn unsupported_goes_before_poisoned()
    ensures posted { (d : DeviceView) (t : TlpView) → is_claimed d (op_of t) ≡ false →
        register_effects_as d (received.PoisonedPosted t) ≡ register_effects_as d (received.Posted t) }
    ensures waits { (d : DeviceView) (t : TlpView) (ws : List Waiting) → is_claimed d (op_of t) ≡ false →
        register_effects_by d (waits.Poisoned t ∷ ws) ≡ register_effects_by d (waits.Memory t ∷ ws) }
{}

/// Non-posted requests are completed in the order in which they came, one after the other: those that came, in order, are
/// those that had their last completion or were dropped by a reset, in order, and those that wait. Each completion is of the
/// oldest that waits, with its Requester ID, tag, TC and attributes: none comes between two of one request.
pub fn requests_are_completed_in_order()
    ensures order { (s : SetupView) (cs : List Call) →
        all_asked cs ≡ all_finished (new_endpoint s) cs ++ descriptors_waiting (after_calls (new_endpoint s) cs) }
    ensures oldest { (e : EndpointView) (w : Waiting) (ws : List Waiting) (c : TlpView) → e.waiting ≡ w ∷ ws → next_completion e ≡ Some c →
        descriptor_of c ≡ descriptor_in w }
{}

/// The completions of a read are in the order of their addresses (section 2.3.1.1): if a read has more than its first block,
/// that block ends at a multiple of 128, where what is left of the read begins. Byte Count is all that is left (section
/// 2.2.9): that of the next completion is less by the bytes that this one returns, from the first enabled one on, and its
/// Lower Address is 0.
pub fn a_read_goes_on_where_its_first_block_ended()
    ensures boundary { (t : TlpView) (op rest : Op) → op_of t ≡ Some op → op_fault op ≡ None → (dw_in_front op ≡ 0 → ⊥) →
        op_of (behind (dw_in_front op) t) ≡ Some rest →
        (address_of rest ≡ address_of (first_block op) + count_of (first_block op)) × (address_of rest % limits.LARGE_BLOCK ≡ 0) }
    ensures counts { (t : TlpView) (op : Op) → op_of t ≡ Some op → op_fault op ≡ None → (dw_in_front op ≡ 0 → ⊥) →
        (byte_count t.kind t.body t.length ≡ count_of (first_block op) - lead (enables_of op) +
        byte_count (behind (dw_in_front op) t).kind (behind (dw_in_front op) t).body (behind (dw_in_front op) t).length)
        × (lower_address (behind (dw_in_front op) t).kind (behind (dw_in_front op) t).body (behind (dw_in_front op) t).length ≡ 0) }
{}
