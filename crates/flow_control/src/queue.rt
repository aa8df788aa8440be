//! The receive queue.
ghost use Rattle.std.specs.Prelude.{◌≡◌, ◌+◌, ◌<◌, ◌↔◌, ◌==◌, ◌∷◌, ◌++◌, [], Some, length, take, remove, slice_get, true, false, IsTrue, IsSome, IsNone, IfSome, OnOk, OnErr};
ghost use Rattle.flow_control.specs.Queue.{is_takeable, first_of};
ghost use Rattle.flow_control.specs.Arrivals.{AreItemsOf};

use crate::classes::{Arrived, Classes};
use dllp_core::Class;
use std::alloc::{AllocError, Global};
use std::collections::VecDeque;
use std::marker::Model;
use tlp_core::Tlp;

/// Packets in order of arrival, each with its mark, which no decision about order looks at. Places count from 0, oldest
/// first: the place of a packet is the number of packets that arrived before it. Each class has a queue of its own.
#[derive(Drop)]
pub struct OrderedQueue {
    classes: Classes,
}

impl Model for OrderedQueue {
    ghost use Rattle.std.specs.Prelude.{ℕ, List};
    ghost use Rattle.tlp_core.specs.TlpView.{TlpView};
    ghost use Rattle.flow_control.specs.Arrivals.{IsSound, items_of};

    ghost Value = { List (TlpView × ℕ) };

    ghost view = { λ q. items_of q.classes };

    ghost invariant = { λ q. IsSound q.classes };
}

impl OrderedQueue {
    /// An empty queue.
    pub fn new(alloc: Global) -> OrderedQueue
        ensures { result ≡ [] }
    {
        OrderedQueue::starting_at(alloc, 0)
    }

    /// An empty queue whose next packet gets this arrival number; only `class_items` shows it.
    pub fn starting_at(alloc: Global, next: u64) -> OrderedQueue
        ensures { result ≡ [] }
    {
        OrderedQueue {
            classes: Classes::new(alloc, next),
        }
    }

    /// How many packets there are.
    pub fn len(&self) -> usize
        ensures { result ≡ length self.now }
    {
        self.classes.len()
    }

    /// Whether there is none.
    pub fn is_empty(&self) -> bool
        ensures { IsTrue result ↔ (self.now ≡ []) }
    {
        self.classes.len() == 0
    }

    /// Adds a packet behind the others. Fails only where the queue can't grow.
    #[inline(always)]
    pub fn push(&mut self, tlp: Tlp, mark: u32) -> Result<(), AllocError>
        ensures ok { OnOk result (self.new ≡ self.old ++ (tlp, mark) ∷ []) }
        ensures err { OnErr result (self.new ≡ self.old) }
    {
        self.classes.push(tlp, mark)
    }

    /// Whether there is a packet at this place that may pass every earlier one.
    pub fn takeable(&self, place: usize) -> bool
        ensures { result ≡ is_takeable self.now place }
    {
        self.classes.takeable(place)
    }

    /// The packet and the mark at this place if [`take`](Self::take) would take them out, otherwise none.
    pub fn peek(&self, place: usize) -> Option<(&Tlp, u32)>
        ensures none { IsNone result ↔ (is_takeable self.now place ≡ false) }
        ensures item { IfSome result (λ x. IsTrue (is_takeable self.now place) × (slice_get self.now place ≡ Some (x.0.now, x.1))) }
    {
        let arrived = self.classes.peek(place)?;
        Some((&arrived.tlp, arrived.mark))
    }

    /// The packet and the mark at this place, none past the end.
    pub fn at(&self, place: usize) -> Option<(&Tlp, u32)>
        ensures there { IsSome result ↔ (place < length self.now) }
        ensures item { IfSome result (λ x. slice_get self.now place ≡ Some (x.0.now, x.1)) }
    {
        let arrived = self.classes.at(place)?;
        Some((&arrived.tlp, arrived.mark))
    }

    /// Takes the packet at this place out, with its mark.
    #[inline(always)]
    pub fn take(&mut self, place: usize) -> (Tlp, u32)
        requires { IsTrue (is_takeable self.old place) }
        ensures item { slice_get self.old place ≡ Some result }
        ensures rest { self.new ≡ remove self.old place }
    {
        self.classes.take(place).unwrap()
    }

    /// The first place of a class, none where there is no packet of it.
    pub fn first_of(&self, class: Class) -> Option<usize>
        ensures { result ≡ first_of self.now class }
    {
        self.classes.first_of(class)
    }

    /// The packets of a class, the oldest first, each with its arrival number. The numbers of all packets rise in their
    /// order, so the place of a packet is the number of packets with a smaller one.
    pub fn class_items(&self, class: Class) -> &VecDeque<Arrived>
        ensures { AreItemsOf self.now class result.now.items }
    {
        self.classes.of(class)
    }
}
