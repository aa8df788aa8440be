//! One queue, and arrival numbers.
ghost use Rattle.std.specs.Prelude.{◌≡◌, ◌++◌, take, drop, map, remove, slice_get};
ghost use Rattle.std.specs.Option.{option_map};
ghost use Rattle.std.specs.List.{list_all};
ghost use Rattle.flow_control.specs.Credits.{same};
ghost use Rattle.flow_control.specs.Ordering as spec;
ghost use Rattle.flow_control.specs.Queue.{is_takeable};
ghost use Rattle.flow_control.specs.Arrivals.{item_of, first_number, is_older, oldest_of, renumbered};

use crate::classes::Arrived;
use crate::ordering::may_pass;
use dllp_core::Class;
use std::collections::VecDeque;
use tlp_core::Tlp;

/// The arrival number at a place of one queue.
pub(crate) fn number_at(queue: &VecDeque<Arrived>, place: usize) -> Option<u64>
    ensures { result ≡ first_number (drop place queue.now.items) }
{
    let arrived = queue.get(place)?;
    Some(arrived.arrival)
}

/// Whether the first is there, and smaller than the second if that is there too.
fn is_older(first: Option<u64>, second: Option<u64>) -> bool
    ensures { result ≡ is_older first second }
{
    match (first, second) {
        (Some(first), Some(second)) => first < second,
        (first, None) => first.is_some(),
        (None, _) => false,
    }
}

/// The class of the smallest number.
pub(crate) fn oldest_of(
    posted: Option<u64>,
    non_posted: Option<u64>,
    completion: Option<u64>,
) -> Option<Class>
    ensures { result ≡ oldest_of posted non_posted completion }
{
    if is_older(posted, non_posted) && is_older(posted, completion) {
        Some(Class::Posted)
    } else if is_older(non_posted, completion) {
        Some(Class::NonPosted)
    } else {
        completion.map(|_| Class::Completion)
    }
}

/// Whether two classes are the same.
pub(crate) fn is_same(one: Class, other: Class) -> bool
    ensures { result ≡ same one other }
{
    one == other
}

/// Gives the packet at a place of one queue another arrival number.
pub(crate) fn renumber(queue: &mut VecDeque<Arrived>, place: usize, arrival: u64)
    ensures { queue.new.items ≡ take place queue.old.items ++ renumbered arrival (drop place queue.old.items) }
{
    if let Some(arrived) = queue.get_mut(place) {
        arrived.arrival = arrival;
    }
}

/// Takes the packet at a place of one queue out, with its mark.
#[inline(always)]
pub(crate) fn take_item(queue: &mut VecDeque<Arrived>, place: usize) -> Option<(Tlp, u32)>
    ensures item { result ≡ option_map item_of (slice_get queue.old.items place) }
    ensures rest { queue.new.items ≡ remove queue.old.items place }
{
    let arrived = if place == 0 {
        queue.pop_front()?
    } else {
        queue.remove(place)?
    };
    Some((arrived.tlp, arrived.mark))
}

/// Whether the packet may pass each of the first `count` packets.
fn passes_first(tlp: &Tlp, queue: &VecDeque<Arrived>, count: usize) -> bool
    ensures { result ≡ list_all (λ e. spec.may_pass tlp.now e.tlp) (take count queue.now.items) }
{
    queue
        .iter()
        .take(count)
        .all(|earlier| may_pass(tlp, &earlier.tlp))
}

/// Whether there is a packet at a place of one queue that may pass each one before it there.
pub(crate) fn passes_before(queue: &VecDeque<Arrived>, place: usize) -> bool
    ensures { result ≡ is_takeable (map item_of queue.now.items) place }
{
    match queue.get(place) {
        Some(arrived) => passes_first(&arrived.tlp, queue, place),
        None => false,
    }
}
