//! Laws of what requests need and put.
ghost use Rattle.std.specs.Prelude.{ℕ, ◌≡◌, ◌+◌, ◌-◌, ◌<◌, ◌⊎◌, true, false, None, Option, List, length, slice_index};
ghost use Rattle.arrayvec.specs.ArrayVec.{ArrayVec};
ghost use Rattle.tlp_core.specs.Ops.{Op};
ghost use Rattle.tlp_core.specs.Operation.{address_of};
ghost use Rattle.seq_memory.specs.Entries.{Reply};
ghost use Rattle.seq_memory.specs.declared.reply.ReplyOf.TheVariants as replies;
ghost use Rattle.seq_memory.specs.Step.{refusal, after, answer};
ghost use Rattle.search_effects.specs.Effects as effects;
ghost use Rattle.search_effects.specs.Effects.{Agrees};

use seq_memory::laws::{only_the_place_changes, refused_and_read_change_nothing};

/// Where the memory answers with data, it has the needed ones of their bytes.
#[tactic(auto, using(crate::proofs::Needs::answered))]
pub fn what_is_needed_is_there()
    ensures { (base block at : ℕ) (m : List ℕ) (op : Op) (d : ArrayVec ℕ) → effects.is_needed op at ≡ true → answer base block m op ≡ replies.Data d →
        at < length d.items → slice_index m (address_of op - base + at) ≡ slice_index d.items at }
{}

/// Of two requests that have no byte in common, the first changes neither what the second is
/// answered nor what it does, and their order makes no difference.
#[tactic(auto, using(crate::proofs::Apart::answer_kept, crate::proofs::Apart::commute))]
pub fn apart_requests_commute()
    ensures answer { (base block : ℕ) (m : List ℕ) (one other : Op) → effects.AreApart one other →
        answer base block (after base block m one) other ≡ answer base block m other }
    ensures after { (base block : ℕ) (m : List ℕ) (one other : Op) → effects.AreApart one other →
        after base block (after base block m one) other ≡ after base block (after base block m other) one }
{
    only_the_place_changes();
    refused_and_read_change_nothing();
}

/// What the memory answers depends on the bytes at the request's addresses, and what it makes of
/// another byte on that byte, too.
#[tactic(auto, using(crate::proofs::Apart::same_answer, crate::proofs::Apart::same_byte))]
pub fn a_request_sees_its_addresses()
    ensures answer { (base block : ℕ) (m n : List ℕ) (op : Op) → length n ≡ length m → effects.AreSameAt base op m n →
        answer base block n op ≡ answer base block m op }
    ensures after { (base block k : ℕ) (m n : List ℕ) (op : Op) → length n ≡ length m → effects.AreSameAt base op m n → slice_index n k ≡ slice_index m k →
        slice_index (after base block n op) k ≡ slice_index (after base block m op) k }
{
    only_the_place_changes();
    refused_and_read_change_nothing();
}

/// A byte in an operation's range that it doesn't write stays what it is.
#[tactic(auto, using(crate::proofs::Staying::unput))]
pub fn what_is_not_put_stays()
    ensures { (base block at : ℕ) (m : List ℕ) (op : Op) → effects.is_put op at ≡ false →
        slice_index (after base block m op) (address_of op - base + at) ≡ slice_index m (address_of op - base + at) }
{
    only_the_place_changes();
    refused_and_read_change_nothing();
}

/// Where an operation, wherever it is served, takes another's reply away, it doesn't bring that reply;
/// and it ends it, or their order makes no difference.
pub fn what_takes_a_reply_away_yields()
    ensures brings { (base block : ℕ) (m : List ℕ) (one other : Op) (reply : Reply) →
        (refusal base (length m) block one ≡ None → answer base block (after base block m one) other ≡ reply → ⊥) →
        answer base block (after base block m one) other ≡ reply → answer base block m other ≡ reply }
    ensures order { (base block : ℕ) (m : List ℕ) (one other : Op) (told : Option Reply) (reply : Reply) →
        (refusal base (length m) block one ≡ None → answer base block (after base block m one) other ≡ reply → ⊥) → Agrees base block m one told →
        answer base block m other ≡ reply →
        (answer base block (after base block m one) other ≡ reply → ⊥) ⊎
        ((answer base block (after base block m one) other ≡ reply) × Agrees base block (after base block m other) one told ×
        (after base block (after base block m one) other ≡ after base block (after base block m other) one)) }
{
    only_the_place_changes();
    refused_and_read_change_nothing();
}
