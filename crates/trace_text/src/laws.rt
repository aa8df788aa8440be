//! Laws of the texts: what holds of the definitions that the contracts cite.
ghost use Rattle.std.specs.Prelude.{◌≡◌, Bool, List, ℕ, Ok, Some};
ghost use Rattle.seq_memory.specs.Limits.{Extent, IsWithinLimits};
ghost use Rattle.history_words.specs.Claim.{Claim};
ghost use Rattle.record_text.specs.Forms.{requester, number, memory_of};
ghost use Rattle.trace_text.specs.TraceReaderView.{read_of};
ghost use Rattle.trace_text.specs.Tellable.{IsRequest, IsTellable};
ghost use Rattle.trace_text.specs.Rewritten.{RewritingIsReading};
ghost use Rattle.trace_text.specs.Texts.{trace_text};

use operation_text::{own_digits_spell_number, own_text_spells_operation, own_text_spells_reply};

/// A trace and a history that some text spells are read back from their own text, so no two of them
/// have one text.
pub fn own_text_spells_trace()
    ensures read_back { (text : List ℕ) (c : Claim) → read_of text ≡ Ok c → read_of (trace_text c) ≡ Ok c }
    ensures one_trace { (t u : List ℕ) (c d : Claim) → read_of t ≡ Ok c → read_of u ≡ Ok d → trace_text c ≡ trace_text d → c ≡ d }
{
    own_digits_spell_number();
    own_text_spells_operation();
    own_text_spells_reply();
}

/// A trace and a history whose requests, counts, operations and replies lines can tell, over a memory
/// that there can be, are read back from their own text.
pub fn told_trace_is_read_back()
    ensures { (c : Claim) → IsTellable c → read_of (trace_text c) ≡ Ok c }
{
    own_digits_spell_number();
    own_text_spells_operation();
    own_text_spells_reply();
}

/// Lines can tell the request whose numbers two fields spell, and there can be a memory of the extent that fields spell.
pub fn fields_can_be_told()
    ensures request { (v w : List ℕ) (i k : ℕ) → requester v ≡ Some i → number w ≡ Some k → IsRequest i k }
    ensures memory { (has_block : Bool) (ws : List (List ℕ)) (x : Extent) → memory_of has_block ws ≡ Some x → IsWithinLimits x }
{
    own_digits_spell_number();
}

/// Lines can tell each trace and history that is read: its requests, counts, operations and replies, over a memory
/// that there can be.
pub fn what_is_read_can_be_told()
    ensures { (text : List ℕ) (c : Claim) → read_of text ≡ Ok c → IsTellable c }
{
    own_digits_spell_number();
}

/// What a rewriter has written of lines at their end is the text of what a reader has read of them, or the
/// same first fault.
pub fn a_rewriting_is_a_reading()
    ensures { RewritingIsReading }
{}
