//! Why lines of packets are refused.
ghost use Rattle.std.specs.Prelude.{◌≡◌, ◌≤◌, length};

use crate::bytes::{packet_reason, request_reason};
use diagnostics::{Reason, ReasonLines, Reasons, refusal_reason};
use packet_text::{Unread, read_words};
use std::alloc::AllocError;

/// What an engine reads of a line.
#[derive(Clone, Copy)]
pub enum PacketLines {
    /// A packet in words.
    Words,
    /// The bytes of a TLP or, where they are four, of a DLLP.
    Bytes,
    /// The bytes of a request.
    Requests,
}

/// Why a packet's line in words is refused.
fn words_reason(line: &[u8]) -> Reason {
    match read_words(line) {
        Ok(_) => refusal_reason(line, ""),
        Err(Unread::Words(misfit)) => Reason::of_misfit(line, &misfit),
        Err(Unread::Packet(cause)) => refusal_reason(line, cause.name()),
    }
}

impl<P> Reasons<P> for PacketLines {
    fn tell(
        &self,
        _responder: &mut P,
        line: &[u8],
        _text: &[u8],
        reasons: &mut ReasonLines,
    ) -> Result<(), AllocError> {
        let reason = match self {
            PacketLines::Words => words_reason(line),
            PacketLines::Bytes => packet_reason(line),
            PacketLines::Requests => request_reason(line),
        };
        reasons.tell(&reason)
    }
}
