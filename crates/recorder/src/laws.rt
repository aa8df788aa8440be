//! The rule of the recorder's queue, and its calls, each lent its caller's pass.
ghost use Rattle.std.specs.Prelude.{◌≡◌, ◌+◌, ◌-◌, ◌<◌, [], ◌∷◌, ◌++◌, IsTrue, IfOk, IfErr, OnOk, IfSome, IfNone};
ghost use Rattle.history_words.specs.Lookup.{requester_of};
ghost use Rattle.recorder.specs.Rule.{unbegun, with_pushed, with_taken, IsWhole, IsBegun};

use crossbeam_queue::protocol::{Join, Lesson, Outcome, Protocol, Split};
use crossbeam_queue::{Pass, RuledArrayQueue};
use history_words::Record;
use std::alloc::{AllocError, Global};
use std::collections::LinkedList;
use std::marker::Model;
use std::sync::Wait;

/// How many records the queue has room for.
pub const ROOM: usize = 256;

/// What a requester pushed. No value of it is made.
pub struct Pushed {
    pub requester: u64,
    pub records: LinkedList<Record>,
}

/// What the checker took, and what those requesters pushed whose passes it has: those who have not
/// begun or have ended. No value of it is made.
pub struct Taken {
    pub known: LinkedList<Pushed>,
    pub records: LinkedList<Record>,
}

/// What a pass knows. No value of it is made.
pub enum Knows {
    Pusher(Pushed),
    Taker(Taken),
    Spent,
}

/// The rule of the queue: what it holds of each requester follows what was taken of it.
struct InOrder;

impl Protocol<Record, Knows> for InOrder {
    ghost use Rattle.recorder.specs.Rule.{Kept, newcomer};

    ghost holds = { Kept };

    ghost first = { newcomer };
}

/// A record is pushed.
struct Pushes;

impl Outcome<Record, Knows> for Pushes {
    ghost use Rattle.recorder.specs.Rule.{pushes};

    ghost then = { pushes };
}

/// A record is taken, or there is none.
struct Takes;

impl Outcome<Record, Knows> for Takes {
    ghost use Rattle.recorder.specs.Rule.{takes};

    ghost then = { takes };
}

impl Lesson<Record, Knows> for Takes {
    ghost use Rattle.recorder.specs.Rule.{Rests};

    ghost fact = { Rests };
}

/// The first requester whom the checker's pass knows gets its own.
struct FirstKnown;

impl Split<Knows> for FirstKnown {
    ghost use Rattle.recorder.specs.Rule.{but_first, first_alone};

    ghost left = { but_first };

    ghost right = { first_alone };
}

/// The checker's pass gets that of a requester, as the last that it knows.
struct LastKnown;

impl Join<Knows> for LastKnown {
    ghost use Rattle.recorder.specs.Rule.{both};
    ghost use Rattle.recorder.specs.declared.laws.Knows.TheVariants.{Spent};

    ghost both = { both };

    ghost spent = { Spent };
}

type Queue = RuledArrayQueue<Record, Knows, InOrder>;

/// A bounded queue of records. Contracts see which queue it is.
#[derive(Drop)]
pub struct Recorder {
    queue: Queue,
}

impl Model for Recorder {
    ghost use Rattle.atomic_table.specs.Seated.{TableId};

    ghost Value = { TableId };

    ghost view = { λ r. r.queue.table.shared.table_id };
}

/// The pass of a requester, which knows the list that it pushed.
#[derive(Drop)]
pub struct Pusher {
    pass: Pass<Record, Knows>,
}

impl Model for Pusher {
    ghost use Rattle.std.specs.Prelude.{◌≡◌, []};
    ghost use Rattle.recorder.specs.Views.{PusherView};

    ghost Value = { PusherView };

    ghost use Rattle.recorder.specs.Rule.{pushed_of};
    ghost use Rattle.recorder.specs.declared.laws.Knows.TheVariants as knows;

    ghost view = { λ p. record { queue = p.pass.table_id; pushed = pushed_of p.pass.me.0.client } };

    ghost invariant = { λ p. (p.pass.me.1 ≡ []) × (p.pass.me.0.client ≡ knows.Pusher (pushed_of p.pass.me.0.client)) };
}

/// The pass of the checker, which knows the list that it took.
#[derive(Drop)]
pub struct Taker {
    pass: Pass<Record, Knows>,
}

impl Model for Taker {
    ghost use Rattle.std.specs.Prelude.{◌≡◌, []};
    ghost use Rattle.recorder.specs.Views.{TakerView};

    ghost Value = { TakerView };

    ghost use Rattle.recorder.specs.Rule.{taken_of};
    ghost use Rattle.recorder.specs.declared.laws.Knows.TheVariants as knows;

    ghost view = { λ p. record { queue = p.pass.table_id; taken = taken_of p.pass.me.0.client } };

    ghost invariant = { λ p. (p.pass.me.1 ≡ []) × (p.pass.me.0.client ≡ knows.Taker (taken_of p.pass.me.0.client)) };
}

impl Recorder {
    /// An empty queue, and the checker's pass, which has those of the requesters 1 to 7.
    pub fn new(alloc: Global) -> Result<(Recorder, Taker), AllocError>
        ensures { IfOk result (λ r. (r.1.queue ≡ r.0) × (r.1.taken ≡ record { known = unbegun 7 1; records = [] })) }
    {
        let (queue, pass) = Queue::ruled(alloc, ROOM)?;
        Ok((Recorder { queue }, Taker { pass }))
    }

    /// The pass of the requester of this number, 1 to 7, the first that has none yet.
    pub fn begin(&self, taker: &mut Taker, requester: u8) -> Pusher
        requires same { taker.old.queue ≡ self.now }
        requires next { (0 < requester) × (requester < 8) × (taker.old.taken.known ≡ unbegun (8 - requester) requester) }
        ensures taker { (taker.new.queue ≡ taker.old.queue) ×
            (taker.new.taken ≡ record { known = unbegun (7 - requester) (requester + 1); records = taker.old.taken.records }) }
        ensures pusher { (result.queue ≡ self.now) × (result.pushed ≡ record { requester = requester; records = [] }) }
    {
        let _ = requester;
        Pusher {
            pass: self.queue.another::<FirstKnown>(&mut taker.pass),
        }
    }

    /// Pushes a record at the queue's end, in one attempt. The record comes back where the queue was
    /// full or another thread was in the way. Takes no memory.
    pub fn push(&self, pusher: &mut Pusher, recorded: Record) -> Result<(), Record>
        requires same { pusher.old.queue ≡ self.now }
        requires own { requester_of recorded ≡ pusher.old.pushed.requester }
        ensures queue { pusher.new.queue ≡ pusher.old.queue }
        ensures pushed { OnOk result (pusher.new.pushed ≡ with_pushed pusher.old.pushed recorded) }
        ensures back { IfErr result (λ r. (r ≡ recorded) × (pusher.new ≡ pusher.old)) }
    {
        self.queue.try_push_as::<Pushes>(&mut pusher.pass, recorded)
    }

    /// Takes the oldest record. Where there is none, all was taken that those pushed whose passes the
    /// checker has. Takes no memory.
    pub fn pop<R: Wait>(&self, rt: &R, taker: &mut Taker) -> Option<Record>
        requires same { taker.old.queue ≡ self.now }
        ensures queue { taker.new.queue ≡ taker.old.queue }
        ensures taken { IfSome result (λ r. taker.new.taken ≡ with_taken taker.old.taken r) }
        ensures none { IfNone result ((taker.new.taken ≡ taker.old.taken) × IsWhole taker.old.taken) }
    {
        self.queue.pop_as::<Takes, R>(rt, &mut taker.pass)
    }

    /// Takes records, oldest first, to the end of the list of all that were taken, up to as many as the
    /// queue has room for: whether none was left then. Where the list can't grow, the queue keeps what
    /// was not taken.
    pub fn drain<R: Wait>(
        &self,
        rt: &R,
        taker: &mut Taker,
        records: &mut Vec<Record>,
    ) -> Result<bool, AllocError>
        requires same { taker.old.queue ≡ self.now }
        requires all { taker.old.taken.records ≡ records.old.items }
        ensures queue { taker.new.queue ≡ taker.old.queue }
        ensures known { taker.new.taken.known ≡ taker.old.taken.known }
        ensures all { taker.new.taken.records ≡ records.new.items }
        ensures whole { IfOk result (λ none. IsTrue none → IsWhole taker.new.taken) }
    {
        for _ in 0..ROOM {
            records.reserve(1)?;
            match self.pop(rt, taker) {
                Some(recorded) => records.push_reserved(recorded),
                None => return Ok(true),
            }
        }
        Ok(false)
    }

    /// The checker gets the pass of a requester that has ended.
    pub fn end(&self, taker: &mut Taker, pusher: Pusher)
        requires same { (taker.old.queue ≡ self.now) × (pusher.queue ≡ self.now) }
        ensures queue { taker.new.queue ≡ taker.old.queue }
        ensures known { taker.new.taken ≡ record { known = taker.old.taken.known ++ pusher.pushed ∷ []; records = taker.old.taken.records } }
    {
        let Pusher { pass } = pusher;
        self.queue.absorb::<LastKnown>(&mut taker.pass, pass);
    }

    /// What was taken of each requester whose pass the checker has is a prefix of what it pushed.
    pub fn compare(&self, taker: &mut Taker)
        requires same { taker.old.queue ≡ self.now }
        ensures same { taker.new ≡ taker.old }
        ensures begun { IsBegun taker.old.taken }
    {
        self.queue.learn_as::<Takes>(&mut taker.pass);
    }
}
