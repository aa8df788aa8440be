//! The ordering table.
ghost use Rattle.std.specs.Prelude.{◌≡◌, ◌==◌, ◌&&◌};
ghost use Rattle.flow_control.specs.Ordering as spec;

use crate::class_of;
use dllp_core::Class;
use tlp_core::Tlp;

/// Whether a packet may pass an earlier one of the same virtual channel (section 2.4.1): nothing passes a posted
/// request, everything passes a non-posted request, and a completion is passed but by one of the same Requester ID and
/// Tag.
pub fn may_pass(later: &Tlp, earlier: &Tlp) -> bool
    ensures { result ≡ spec.may_pass later.now earlier.now }
{
    let same = later.requester == earlier.requester && later.tag == earlier.tag;
    match (class_of(later.kind), class_of(earlier.kind)) {
        (_, Class::Posted) => false,
        (_, Class::NonPosted) => true,
        (Class::Completion, Class::Completion) => !same,
        (_, Class::Completion) => true,
    }
}
