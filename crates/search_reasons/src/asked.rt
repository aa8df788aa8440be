//! What was answered at a place of a log, and to which operation.
ghost use Rattle.std.specs.Prelude.{IfSome};
ghost use Rattle.search_reasons.specs.Reasons.{IsAsked};

use log_events::{Partners, reply_at};
use seq_memory::ReplyRef;
use tlp_core::OpRef;
use trace_store::Records;

/// An operation that was answered.
#[derive(Drop)]
pub(crate) struct Asked<'a> {
    pub(crate) op: OpRef<'a>,
    pub(crate) reply: ReplyRef<'a>,
}

/// What was submitted at one place and answered at another.
fn asked_at<'a>(records: &Records<'a>, submission: usize, answer: usize) -> Option<Asked<'a>>
    ensures { IfSome result (λ a. IsAsked records.now a.op a.reply) }
{
    let asked = records.submitted(submission)?;
    let reply = reply_at(records, answer, asked.requester, asked.number)?;
    Some(Asked {
        op: asked.op,
        reply,
    })
}

/// The operation that was answered at the place, and the reply.
pub(crate) fn asked_by<'a>(
    records: &Records<'a>,
    partners: &Partners,
    answer: usize,
) -> Option<Asked<'a>>
    ensures { IfSome result (λ a. IsAsked records.now a.op a.reply) }
{
    asked_at(records, partners.of(answer)?, answer)
}
