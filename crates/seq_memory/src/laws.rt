//! Laws of the sequential memory: what holds of the definitions that the contracts cite.
ghost use Rattle.std.specs.Prelude.{ℕ, ◌≡◌, ◌+◌, ◌-◌, ◌*◌, ◌/◌, ◌%◌, ◌^◌, ◌<◌, ◌≤◌, ◌⊎◌, true, None, Some, List, [], ◌∷◌, ◌++◌, length, replicate, slice_get, slice_index};
ghost use Rattle.arrayvec.specs.ArrayVec.{ArrayVec};
ghost use Rattle.byteorder.specs.Endian.{little_number, little_bytes};
ghost use Rattle.tlp_core.specs.Ops.{Op};
ghost use Rattle.tlp_core.specs.declared.operation.OpOf.TheVariants as ops;
ghost use Rattle.tlp_core.specs.declared.operation.Width.{Width};
ghost use Rattle.tlp_core.specs.Enables.{enables};
ghost use Rattle.tlp_core.specs.Operation.{size_of, address_of, count_of};
ghost use Rattle.seq_memory.specs.Entries.{Entry};
ghost use Rattle.seq_memory.specs.declared.Refusal.{Refusal};
ghost use Rattle.seq_memory.specs.Limits.{IsBlock, Extent};
ghost use Rattle.seq_memory.specs.Step.{refusal, after, answer, bytes_at, place_after, data_of, is_enabled, written_over, read_over};
ghost use Rattle.seq_memory.specs.History.{contents, contents_at, reply_at, AreCounts, additions, Leaves, AreAddsOrLeave};

/// An operation changes no byte outside its place and not their number, and a served one leaves at
/// its place what it makes of the bytes that were there.
#[tactic(auto, using(crate::proofs::Steps::others_kept, crate::proofs::Steps::size_kept, crate::proofs::Steps::place_is))]
pub fn only_the_place_changes()
    ensures others { (base block k : ℕ) (m : List ℕ) (op : Op) → (base + k < address_of op) ⊎ (address_of op + count_of op ≤ base + k) →
        slice_index (after base block m op) k ≡ slice_index m k }
    ensures size { (base block : ℕ) (m : List ℕ) (op : Op) → length (after base block m op) ≡ length m }
    ensures place { (base block : ℕ) (m : List ℕ) (op : Op) → refusal base (length m) block op ≡ None →
        bytes_at (after base block m op) (address_of op - base) (count_of op) ≡ place_after op (bytes_at m (address_of op - base) (count_of op)) }
{}

/// An operation that is not served changes nothing, and neither does a read.
#[tactic(auto, using(crate::proofs::Steps::refused_kept))]
pub fn refused_and_read_change_nothing()
    ensures refused { (base block : ℕ) (m : List ℕ) (op : Op) (r : Refusal) → refusal base (length m) block op ≡ Some r → after base block m op ≡ m }
    ensures reads { (base block a dw f l : ℕ) (m : List ℕ) → after base block m (ops.Read a dw f l) ≡ m }
{}

/// A served AtomicOp returns the original bytes of its operand.
#[tactic(auto, using(crate::proofs::Steps::served_answer))]
pub fn atomics_return_the_original()
    ensures fetch_add { (base block a x : ℕ) (w : Width) (m : List ℕ) → refusal base (length m) block (ops.FetchAdd a w x) ≡ None →
        answer base block m (ops.FetchAdd a w x) ≡ data_of (bytes_at m (a - base) (size_of w)) }
    ensures swap { (base block a x : ℕ) (w : Width) (m : List ℕ) → refusal base (length m) block (ops.Swap a w x) ≡ None →
        answer base block m (ops.Swap a w x) ≡ data_of (bytes_at m (a - base) (size_of w)) }
    ensures cas { (base block a x y : ℕ) (w : Width) (m : List ℕ) → refusal base (length m) block (ops.Cas a w x y) ≡ None →
        answer base block m (ops.Cas a w x y) ≡ data_of (bytes_at m (a - base) (size_of w)) }
{}

/// A read of the DW of a served write, right after it, gives what was written, of the bytes that
/// both enable; where the read alone enables a byte it gives the old one, and else 0. A read of
/// the same enables is served too where all bytes are enabled.
#[tactic(auto, using(crate::proofs::Steps::write_read, crate::proofs::Steps::write_read_any, crate::proofs::Steps::enabled_read))]
pub fn what_was_written_is_read()
    ensures any { (base block a f l g h : ℕ) (m : List ℕ) (bytes : ArrayVec ℕ) → refusal base (length m) block (ops.Write a f l bytes) ≡ None →
        refusal base (length m) block (ops.Read a (length bytes.items / 4) g h) ≡ None →
        answer base block (after base block m (ops.Write a f l bytes)) (ops.Read a (length bytes.items / 4) g h) ≡
        data_of (read_over g h bytes.items (written_over f l bytes.items (bytes_at m (a - base) (length bytes.items)))) }
    ensures both { (base block a f l g h k : ℕ) (m : List ℕ) (bytes : ArrayVec ℕ) → refusal base (length m) block (ops.Write a f l bytes) ≡ None →
        is_enabled (length bytes.items / 4) f l k ≡ true → is_enabled (length bytes.items / 4) g h k ≡ true →
        slice_get (read_over g h bytes.items (written_over f l bytes.items (bytes_at m (a - base) (length bytes.items)))) k ≡ slice_get bytes.items k }
    ensures all { (base block a f l : ℕ) (m : List ℕ) (bytes : ArrayVec ℕ) → IsBlock block →
        enables (length bytes.items / 4) f l ≡ replicate (length bytes.items) true → refusal base (length m) block (ops.Write a f l bytes) ≡ None →
        answer base block (after base block m (ops.Write a f l bytes)) (ops.Read a (length bytes.items / 4) f l) ≡ data_of bytes.items }
{}

/// A history of no entries leaves zeros, and one more entry takes one step; the bytes keep their
/// number.
pub fn history_grows_by_steps()
    ensures none { (x : Extent) → contents x [] ≡ replicate x.size 0 }
    ensures next { (x : Extent) (es : List Entry) (e : Entry) → contents x (es ++ e ∷ []) ≡ after x.base x.block (contents x es) e.op }
    ensures at { (x : Extent) (p : ℕ) (es : List Entry) (e : Entry) → slice_get es p ≡ Some e →
        contents_at x es (p + 1) ≡ after x.base x.block (contents_at x es p) e.op }
    ensures size { (x : Extent) (es : List Entry) → length (contents x es) ≡ x.size }
{}

/// A counter counts each request once: a history of FetchAdds of 1 at one place, where they are
/// served, leaves its length there, modulo 2 to the number of the operand's bits.
#[tactic(auto, using(crate::proofs::Counts::count_number, crate::proofs::Counts::count_bytes))]
pub fn a_counter_counts_each_once()
    ensures number { (x : Extent) (a : ℕ) (w : Width) (es : List Entry) → refusal x.base x.size x.block (ops.FetchAdd a w 1) ≡ None → AreCounts a w es →
        little_number (size_of w) (bytes_at (contents x es) (a - x.base) (size_of w)) ≡ length es % 2 ^ (8 * size_of w) }
    ensures bytes { (x : Extent) (a : ℕ) (w : Width) (es : List Entry) → refusal x.base x.size x.block (ops.FetchAdd a w 1) ≡ None → AreCounts a w es →
        bytes_at (contents x es) (a - x.base) (size_of w) ≡ little_bytes (size_of w) (length es % 2 ^ (8 * size_of w)) }
{}

/// A counter beside other traffic counts each request once: if each other request leaves the bytes of the counter as
/// they are, the number there is that of the FetchAdds of 1 in the history, modulo 2 to the number of the operand's
/// bits. A request that is not served, a read and a request whose place is apart leave them.
#[tactic(auto, using(crate::proofs::Beside::beside_number, crate::proofs::Beside::beside_bytes, crate::proofs::Beside::apart_leaves, crate::proofs::Beside::refused_leaves, crate::proofs::Beside::read_leaves))]
pub fn a_counter_counts_beside_other_traffic()
    ensures number { (x : Extent) (a : ℕ) (w : Width) (es : List Entry) → refusal x.base x.size x.block (ops.FetchAdd a w 1) ≡ None → AreAddsOrLeave x a w es →
        little_number (size_of w) (bytes_at (contents x es) (a - x.base) (size_of w)) ≡ additions a w es % 2 ^ (8 * size_of w) }
    ensures bytes { (x : Extent) (a : ℕ) (w : Width) (es : List Entry) → refusal x.base x.size x.block (ops.FetchAdd a w 1) ≡ None → AreAddsOrLeave x a w es →
        bytes_at (contents x es) (a - x.base) (size_of w) ≡ little_bytes (size_of w) (additions a w es % 2 ^ (8 * size_of w)) }
    ensures refused { (x : Extent) (a count : ℕ) (op : Op) (r : Refusal) → refusal x.base x.size x.block op ≡ Some r → Leaves x a count op }
    ensures reads { (x : Extent) (a count b dw f l : ℕ) → Leaves x a count (ops.Read b dw f l) }
    ensures apart { (x : Extent) (a count : ℕ) (op : Op) → x.base ≤ a → (a + count ≤ address_of op) ⊎ (address_of op + count_of op ≤ a) → Leaves x a count op }
{}

/// The reply to an entry is the answer of the memory that the entries before it make, whatever
/// comes behind it.
pub fn replies_stay()
    ensures before { (x : Extent) (p : ℕ) (es fs : List Entry) → p < length es → reply_at x (es ++ fs) p ≡ reply_at x es p }
    ensures next { (x : Extent) (es fs : List Entry) (e : Entry) → reply_at x (es ++ e ∷ fs) (length es) ≡ Some (answer x.base x.block (contents x es) e.op) }
    ensures past { (x : Extent) (p : ℕ) (es : List Entry) → length es ≤ p → reply_at x es p ≡ None }
{}
