//! A queue for each class.
ghost use Rattle.std.specs.Prelude.{◌≡◌, ◌+◌, ◌<◌, ◌^◌, ℕ, List, [], ◌∷◌, ◌++◌, length, take, drop, remove, map, slice_get, true, false, IfSome, OnOk, OnErr, Some, None, MatchOption};
ghost use Rattle.std.specs.Option.{option_map};

use crate::class_of;
use crate::numbers::{is_same, number_at, oldest_of, passes_before, renumber, take_item};
use dllp_core::Class;
use std::alloc::{AllocError, Global};
use std::collections::VecDeque;
use tlp_core::Tlp;

/// A packet of a receive queue, its arrival number and its mark. What arrived later has a greater number.
#[derive(Drop)]
pub struct Arrived {
    pub arrival: u64,
    pub tlp: Tlp,
    pub mark: u32,
}

/// A queue for each class, the oldest packet first, and the arrival number of the next packet.
#[derive(Drop)]
pub(crate) struct Classes {
    posted: VecDeque<Arrived>,
    non_posted: VecDeque<Arrived>,
    completion: VecDeque<Arrived>,
    next: u64,
}

/// How many packets of each class stand before a place.
#[derive(Clone, Copy)]
pub(crate) struct Cut {
    pub(crate) posted: usize,
    pub(crate) non_posted: usize,
    pub(crate) completion: usize,
}

impl Cut {
    ghost use Rattle.flow_control.specs.Arrivals.{count_in, past, IsCut};

    /// Before the first place stands nothing.
    fn start() -> Cut
        ensures { IsCut [] result }
    {
        Cut {
            posted: 0,
            non_posted: 0,
            completion: 0,
        }
    }

    fn count(self, class: Class) -> usize
        ensures { result ≡ count_in class self }
    {
        match class {
            Class::Posted => self.posted,
            Class::NonPosted => self.non_posted,
            Class::Completion => self.completion,
        }
    }

    /// With one more of a class.
    fn past(self, class: Class) -> Cut
        requires { count_in class self < 2 ^ 63 }
        ensures { result ≡ past class self }
    {
        match class {
            Class::Posted => Cut {
                posted: self.posted + 1,
                ..self
            },
            Class::NonPosted => Cut {
                non_posted: self.non_posted + 1,
                ..self
            },
            Class::Completion => Cut {
                completion: self.completion + 1,
                ..self
            },
        }
    }
}

impl Classes {
    ghost use Rattle.flow_control.specs.Queue.{is_takeable, first_of};
    ghost use Rattle.flow_control.specs.Arrivals.{item_of, IsSplit, IsSound, IsAnew, in_order, items_of, list_of, HasInstead, count_in, IsCut, first_class};

    /// Three empty queues.
    pub(crate) fn new(alloc: Global, next: u64) -> Classes
        ensures value { IsSplit [] result }
        ensures next { result.next ≡ next }
    {
        Classes {
            posted: VecDeque::new(alloc),
            non_posted: VecDeque::new(alloc),
            completion: VecDeque::new(alloc),
            next,
        }
    }

    /// The queue of a class.
    pub(crate) fn of(&self, class: Class) -> &VecDeque<Arrived>
        ensures { result.now.items ≡ list_of class self.now }
    {
        match class {
            Class::Posted => &self.posted,
            Class::NonPosted => &self.non_posted,
            Class::Completion => &self.completion,
        }
    }

    /// How many packets there are.
    pub(crate) fn len(&self) -> usize
        requires { IsSound self.now }
        ensures { result ≡ length (in_order self.now) }
    {
        self.posted.len() + self.non_posted.len() + self.completion.len()
    }

    /// The class of the oldest packet.
    fn first(&self) -> Option<Class>
        ensures { (all : List _) → IsSplit all self.now → result ≡ first_class all }
    {
        oldest_of(
            number_at(&self.posted, 0),
            number_at(&self.non_posted, 0),
            number_at(&self.completion, 0),
        )
    }

    /// The class of the oldest packet behind a cut.
    pub(crate) fn oldest(&self, cut: Cut) -> Option<Class>
        ensures first { (before rest : List _) → IsSplit (before ++ rest) self.now → IsCut before cut → result ≡ first_class rest }
        ensures there { IfSome result (λ class. count_in class cut < length (list_of class self.now)) }
    {
        let posted = number_at(&self.posted, cut.posted);
        let non_posted = number_at(&self.non_posted, cut.non_posted);
        let completion = number_at(&self.completion, cut.completion);
        oldest_of(posted, non_posted, completion)
    }

    /// The cut before a place: behind all packets where there are fewer.
    pub(crate) fn cut(&self, place: usize) -> Cut
        ensures { (all : List _) → IsSplit all self.now → IsCut (take place all) result }
    {
        let mut cut = Cut::start();
        for _before in 0..place {
            let Some(class) = self.oldest(cut) else {
                return cut;
            };
            cut = cut.past(class);
        }
        cut
    }

    /// The packet at a place of all, none past the end.
    pub(crate) fn at(&self, place: usize) -> Option<&Arrived>
        ensures { (all : List _) → IsSplit all self.now → MatchOption result (slice_get all place ≡ None) (λ x. slice_get all place ≡ Some x.now) }
    {
        let cut = self.cut(place);
        let Some(class) = self.oldest(cut) else {
            return None;
        };
        self.of(class).get(cut.count(class))
    }

    /// Takes the packet at a place of the queue of a class out, with its mark: that queue closes up.
    #[inline(always)]
    fn take_of(&mut self, class: Class, place: usize) -> Option<(Tlp, u32)>
        ensures item { result ≡ option_map item_of (slice_get (list_of class self.old) place) }
        ensures queue { HasInstead class (remove (list_of class self.old) place) self.old self.new }
        ensures next { self.new.next ≡ self.old.next }
    {
        match class {
            Class::Posted => take_item(&mut self.posted, place),
            Class::NonPosted => take_item(&mut self.non_posted, place),
            Class::Completion => take_item(&mut self.completion, place),
        }
    }

    /// Takes the oldest packet out, with its mark.
    #[inline(always)]
    fn take_first(&mut self) -> Option<(Tlp, u32)>
        ensures item { (all : List _) → IsSplit all self.old → result ≡ slice_get (map item_of all) 0 }
        ensures rest { (all : List _) → IsSplit all self.old → IsSplit (remove all 0) self.new }
    {
        let class = self.first()?;
        self.take_of(class, 0)
    }

    /// Takes the packet at a place of all out, with its mark.
    #[inline(always)]
    pub(crate) fn take(&mut self, place: usize) -> Option<(Tlp, u32)>
        ensures item { (all : List _) → IsSplit all self.old → result ≡ slice_get (map item_of all) place }
        ensures rest { (all : List _) → IsSplit all self.old → IsSplit (remove all place) self.new }
    {
        if place == 0 {
            return self.take_first();
        }
        let cut = self.cut(place);
        let class = self.oldest(cut)?;
        self.take_of(class, cut.count(class))
    }

    /// The cut before a place that no posted packet stands before: none behind a posted packet, and past the end.
    fn cut_free(&self, place: usize) -> Option<Cut>
        ensures { (all : List _) → IsSplit all self.now →
            MatchOption result (is_takeable (map item_of all) place ≡ false) (λ cut. IsCut (take place all) cut × (cut.posted ≡ 0)) }
    {
        let mut cut = Cut::start();
        for _before in 0..place {
            let Some(class) = self.oldest(cut) else {
                return None;
            };
            if is_same(class, Class::Posted) {
                return None;
            }
            cut = cut.past(class);
        }
        Some(cut)
    }

    /// Whether the packet behind a cut, of this class, may pass the packets before it in its own queue.
    fn passes_its_own(&self, class: Class, cut: Cut) -> bool
        ensures { (all : List _) (place : ℕ) → IsSplit all self.now → IsCut (take place all) cut → cut.posted ≡ 0 →
            first_class (drop place all) ≡ Some class → result ≡ is_takeable (map item_of all) place }
    {
        if is_same(class, Class::Completion) {
            return passes_before(&self.completion, cut.completion);
        }
        true
    }

    /// The oldest packet, before which there is none to pass.
    fn lend_first(&self) -> Option<&Arrived>
        ensures { (all : List _) → IsSplit all self.now →
            MatchOption result (is_takeable (map item_of all) 0 ≡ false) (λ x. (is_takeable (map item_of all) 0 ≡ true) × (slice_get all 0 ≡ Some x.now)) }
    {
        let Some(class) = self.first() else {
            return None;
        };
        self.of(class).get(0)
    }

    /// The packet at a place of all that may pass every earlier one; none otherwise.
    pub(crate) fn peek(&self, place: usize) -> Option<&Arrived>
        ensures { (all : List _) → IsSplit all self.now →
            MatchOption result (is_takeable (map item_of all) place ≡ false) (λ x. (is_takeable (map item_of all) place ≡ true) ×
            (slice_get all place ≡ Some x.now)) }
    {
        if place == 0 {
            return self.lend_first();
        }
        let Some(cut) = self.cut_free(place) else {
            return None;
        };
        let Some(class) = self.oldest(cut) else {
            return None;
        };
        if !self.passes_its_own(class, cut) {
            return None;
        }
        self.of(class).get(cut.count(class))
    }

    /// Whether there is a packet at a place of all that may pass every earlier one.
    pub(crate) fn takeable(&self, place: usize) -> bool
        ensures { (all : List _) → IsSplit all self.now → result ≡ is_takeable (map item_of all) place }
    {
        self.peek(place).is_some()
    }

    /// The first place of a class.
    pub(crate) fn first_of(&self, class: Class) -> Option<usize>
        requires { IsSound self.now }
        ensures { result ≡ first_of (items_of self.now) class }
    {
        if self.of(class).is_empty() {
            return None;
        }
        let mut cut = Cut::start();
        for place in 0..self.len() {
            let Some(oldest) = self.oldest(cut) else {
                return None;
            };
            if is_same(oldest, class) {
                return Some(place);
            }
            cut = cut.past(oldest);
        }
        None
    }

    /// Puts a packet behind the others, with the next arrival number. Fails only where its queue can't grow.
    #[inline(always)]
    fn add(&mut self, tlp: Tlp, mark: u32) -> Result<(), AllocError>
        requires { self.old.next + 1 < 2 ^ 64 }
        ensures ok { OnOk result ((all : List _) → IsSplit all self.old →
            IsSplit (all ++ record { arrival = self.old.next; tlp = tlp; mark = mark } ∷ []) self.new) }
        ensures err { OnErr result ((all : List _) → IsSplit all self.old → IsSplit all self.new) }
    {
        let arrival = self.next;
        let class = class_of(tlp.kind);
        let arrived = Arrived { arrival, tlp, mark };
        match class {
            Class::Posted => self.posted.push_back(arrived)?,
            Class::NonPosted => self.non_posted.push_back(arrived)?,
            Class::Completion => self.completion.push_back(arrived)?,
        }
        self.next = arrival + 1;
        Ok(())
    }

    /// Makes room for one more packet of a class. Where there is none, nothing changes.
    fn reserve(&mut self, class: Class) -> Result<(), AllocError>
        ensures queues { (all : List _) → IsSplit all self.old → IsSplit all self.new }
        ensures next { self.new.next ≡ self.old.next }
    {
        match class {
            Class::Posted => self.posted.reserve(1),
            Class::NonPosted => self.non_posted.reserve(1),
            Class::Completion => self.completion.reserve(1),
        }
    }

    /// Gives the packet behind a cut its place as arrival number.
    fn give_place(&mut self, cut: Cut, place: u64) -> Cut
        ensures numbered { (items : List _) → IsAnew items place cut self.old → place < length items → IsAnew items (place + 1) result self.new }
        ensures next { self.new.next ≡ self.old.next }
    {
        let Some(class) = self.oldest(cut) else {
            return cut;
        };
        match class {
            Class::Posted => renumber(&mut self.posted, cut.posted, place),
            Class::NonPosted => renumber(&mut self.non_posted, cut.non_posted, place),
            Class::Completion => renumber(&mut self.completion, cut.completion, place),
        }
        cut.past(class)
    }

    /// Numbers the packets anew from 0, in their order.
    fn number_anew(&mut self)
        requires { IsSound self.old }
        ensures sound { IsSound self.new }
        ensures items { items_of self.new ≡ items_of self.old }
    {
        let count = self.len() as u64;
        let mut cut = Cut::start();
        for place in 0..count {
            cut = self.give_place(cut, place);
        }
        self.next = count;
    }

    /// Puts a packet behind the others. Fails only where its queue can't grow.
    #[inline(always)]
    pub(crate) fn push(&mut self, tlp: Tlp, mark: u32) -> Result<(), AllocError>
        requires { IsSound self.old }
        ensures sound { IsSound self.new }
        ensures ok { OnOk result (items_of self.new ≡ items_of self.old ++ (tlp, mark) ∷ []) }
        ensures err { OnErr result (items_of self.new ≡ items_of self.old) }
    {
        if self.next == u64::MAX {
            self.reserve(class_of(tlp.kind))?;
            self.number_anew();
        }
        if self.next == u64::MAX {
            return Err(AllocError);
        }
        self.add(tlp, mark)
    }
}
