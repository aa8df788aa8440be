//! Laws of pieces: together they are the request.
ghost use Rattle.std.specs.Prelude.{ℕ, ◌≡◌, ◌+◌, ◌≤◌, List, None, Some, [], ◌∷◌, length, fold, map, take, drop, slice_get, true, false, is_none};
ghost use Rattle.seq_memory.specs.declared.limits.TheConstants.{LARGE_BLOCK};
ghost use Rattle.std.specs.List.{list_all};
ghost use Rattle.tlp_core.specs.Ops.{Op};
ghost use Rattle.tlp_core.specs.declared.operation.OpOf.TheVariants as ops;
ghost use Rattle.tlp_core.specs.Operation.{address_of, count_of, is_posted, op_fault};
ghost use Rattle.seq_memory.specs.Entries.{Reply};
ghost use Rattle.seq_memory.specs.Limits.{Extent};
ghost use Rattle.seq_memory.specs.Step.{after, answer};
ghost use Rattle.op_pieces.specs.Pieces.{dw_of, cut, parts, is_served, left_by, AreAdjacent, all_enables, enables_of, all_bytes, bytes_of, is_in_one_block, begins_a_block, is_faultless, returned};

use seq_memory::laws::{only_the_place_changes, refused_and_read_change_nothing};

/// Pieces of any size that a memory serves, of a request that it serves, do together what the request does, and are
/// answered its reply in parts. They are posted if it is; if it isn't, none changes a byte before the last has acted.
pub fn pieces_act_as_their_request()
    ensures posted { (b : ℕ) (op piece : Op) (j : ℕ) → slice_get (cut b (dw_of op) op) j ≡ Some piece → is_posted piece ≡ is_posted op }
    ensures acts { (x : Extent) (b : ℕ) (m : List ℕ) (op : Op) → length m ≡ x.size → is_served x op ≡ true →
        list_all (is_served x) (cut b (dw_of op) op) ≡ true →
        fold (left_by x) m (cut b (dw_of op) op) ≡ left_by x m op }
    ensures still { (x : Extent) (b : ℕ) (m : List ℕ) (op piece : Op) (j : ℕ) → is_posted op ≡ false → slice_get (cut b (dw_of op) op) j ≡ Some piece →
        fold (left_by x) m (take j (cut b (dw_of op) op)) ≡ m }
    ensures replied { (x : Extent) (b : ℕ) (m : List ℕ) (op piece : Op) (j : ℕ) (part : Reply) → length m ≡ x.size → is_served x op ≡ true →
        list_all (is_served x) (cut b (dw_of op) op) ≡ true → is_posted op ≡ false →
        slice_get (cut b (dw_of op) op) j ≡ Some piece → slice_get (parts (cut b (dw_of op) op) (answer x.base x.block m op)) j ≡ Some part →
        answer x.base x.block m piece ≡ part }
{
    only_the_place_changes();
    refused_and_read_change_nothing();
}

/// The pieces of a request by blocks of 128 bytes are the request. Each lies in one block, all but the first begin one, and
/// none has a fault. Their places stand side by side and are together the request's place, their byte enables in turn are
/// its byte enables, and the bytes of a write in turn are its bytes.
#[tactic(auto, using(crate::proofs::Blocks::adjacent_blocks, crate::proofs::Blocks::inside_blocks, crate::proofs::Blocks::begun_blocks, crate::proofs::Blocks::faultless_blocks, crate::proofs::Blocks::enabled_blocks, crate::proofs::Blocks::written_blocks))]
pub fn blocks_are_the_request()
    ensures adjacent { (op : Op) → op_fault op ≡ None → AreAdjacent (address_of op) (address_of op + count_of op) (cut LARGE_BLOCK (dw_of op) op) }
    ensures inside { (op : Op) → op_fault op ≡ None → list_all is_in_one_block (cut LARGE_BLOCK (dw_of op) op) ≡ true }
    ensures begun { (op : Op) → op_fault op ≡ None → list_all begins_a_block (drop 1 (cut LARGE_BLOCK (dw_of op) op)) ≡ true }
    ensures faultless { (op : Op) → op_fault op ≡ None → list_all is_faultless (cut LARGE_BLOCK (dw_of op) op) ≡ true }
    ensures enables { (op : Op) → op_fault op ≡ None → all_enables (cut LARGE_BLOCK (dw_of op) op) ≡ enables_of op }
    ensures bytes { (op : Op) → op_fault op ≡ None → all_bytes (cut LARGE_BLOCK (dw_of op) op) ≡ bytes_of op }
{}

/// If a memory with larger blocks serves a request, a memory with blocks of 128 bytes serves each of its pieces. The data of
/// a read's pieces in turn, if nothing acts between, are the data of the read.
#[tactic(auto, using(crate::proofs::Blocks::served_blocks, crate::proofs::Blocks::read_blocks))]
pub fn a_read_of_blocks_is_a_read()
    ensures served { (x : Extent) (op : Op) → is_served x op ≡ true →
        list_all (is_served (record { base = x.base; size = x.size; block = LARGE_BLOCK })) (cut LARGE_BLOCK (dw_of op) op) ≡ true }
    ensures whole { (x : Extent) (m : List ℕ) (a dw f l : ℕ) → length m ≡ x.size → is_served x (ops.Read a dw f l) ≡ true →
        returned (map (answer x.base LARGE_BLOCK m) (cut LARGE_BLOCK dw (ops.Read a dw f l))) ≡ returned (answer x.base x.block m (ops.Read a dw f l) ∷ []) }
{}
