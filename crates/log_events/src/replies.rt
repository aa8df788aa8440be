//! What records answer.
ghost use Rattle.std.specs.Prelude.{◌≡◌, ℕ, IfSome, Some, slice_get};
ghost use Rattle.history_words.specs.declared.record.RecordOf.TheVariants as kinds;

use crate::answer_at;
use history_words::RecordRef;
use seq_memory::ReplyRef;
use trace_store::Records;

/// The reply to the request, if the record at that place answers it, and has it.
pub fn reply_at<'a>(
    records: &Records<'a>,
    place: usize,
    requester: u8,
    number: u32,
) -> Option<ReplyRef<'a>>
    ensures { IfSome result (λ r. (n : ℕ) × (slice_get records.now place ≡ Some (kinds.Ans requester number r n))) }
{
    let place = answer_at(records, Some(place), requester, number)?;
    match records.get(place)? {
        RecordRef::Ans { reply, .. } => Some(reply),
        RecordRef::Sub { .. } => None,
    }
}
