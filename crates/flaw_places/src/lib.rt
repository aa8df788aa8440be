//! What the first flaw of a trace is found at, which request it names, the reply that is expected there, and the line that
//! tells it.
#![tactic(auto)]

ghost use Rattle.std.specs.Prelude.{◌≡◌, ◌≤◌, ◌+◌, ◌++◌};
ghost use Rattle.arrayvec.specs.ArrayString.{array_string_len};
ghost use Rattle.flaw_places.specs.Places as spec;

mod replies;

use arrayvec::ArrayString;
use history_words::{AsClaim, Flaw, FlawKind};
use operation_text::write_decimal;
pub use replies::{expected_reply, point_of};

/// Whether a flaw of this kind is found at an entry of the history: then its place is the entry's index.
/// Else it is found at a record.
pub fn is_of_entry(kind: FlawKind) -> bool
    ensures { result ≡ spec.is_of_entry kind }
{
    matches!(kind, FlawKind::Stranger | FlawKind::Twice | FlawKind::Order)
}

/// The requester and the number of the request that the flaw names. None where there is no flaw, or
/// nothing at its place.
pub fn flawed_request<C: AsClaim>(claim: &C, flaw: Option<Flaw>) -> Option<(u8, u32)>
    ensures { result ≡ spec.flawed_request (C.claim claim.now).records (C.claim claim.now).memory.entries flaw }
{
    let flaw = flaw?;
    if is_of_entry(flaw.kind) {
        claim.request(flaw.place)
    } else {
        Some(claim.header(flaw.place)?.request())
    }
}

/// Adds `flaw`, the flaw's number, its name and its place, at most 56 bytes.
pub fn write_flaw(flaw: Flaw, out: &mut ArrayString<512>)
    requires { array_string_len out.old + 56 ≤ 512 }
    ensures text { out.new.bytes ≡ out.old.bytes ++ spec.flaw_line flaw.kind flaw.place }
    ensures len { array_string_len out.new ≤ array_string_len out.old + 56 }
{
    out.push_str("flaw ");
    write_decimal(u64::from(flaw.kind.number()), out);
    out.push_str(" ");
    out.push_str(flaw.kind.name());
    out.push_str(" ");
    write_decimal(flaw.place as u64, out);
}
