//! Steps that were taken, in little room.
ghost use Rattle.std.specs.Prelude.{◌≡◌, ◌∷◌, ◌++◌, [], ◌≤◌, OnOk, OnErr, IfSome, IfNone, length, option_to_list};
ghost use Rattle.tlp_core.specs.Limits.{max_payload};
ghost use Rattle.log_runs.specs.declared.Step.TheVariants as kinds;

use arrayvec::ArrayVec;
use log_runs::Step;
use search_places::Done;
use std::alloc::{AllocError, Global};
use std::marker::Model;
use tlp_core::MAX_PAYLOAD;

/// The mark of an event that was passed.
const PASSED: u8 = 255;

/// Steps that were taken, one after the other, and the bytes that each overwrote. A pass takes a
/// byte, an act nine and the bytes that it overwrote.
#[derive(Drop)]
pub(crate) struct Trail {
    /// For each step [`PASSED`], or how many bytes the act overwrote.
    marks: Vec<u8>,
    /// The requests that acted.
    requests: Vec<usize>,
    /// The bytes that they overwrote.
    bytes: Vec<u8>,
}

impl Model for Trail {
    ghost use Rattle.std.specs.Prelude.{List};
    ghost use Rattle.search_places.specs.declared.steps.Done.{Done};
    ghost use Rattle.search_run.specs.Trails.{trail_of, IsTrail};

    ghost Value = { List Done };

    ghost view = { λ t. trail_of t.marks.items t.requests.items t.bytes.items };

    ghost invariant = { λ t. IsTrail t.marks.items t.requests.items t.bytes.items };
}

/// Takes the last bytes off.
fn taken_off(bytes: &mut Vec<u8>, size: u8) -> ArrayVec<u8, MAX_PAYLOAD>
    requires few { size ≤ max_payload }
    requires there { size ≤ length bytes.old.items }
    ensures items { bytes.old.items ≡ bytes.new.items ++ result.items }
    ensures len { length result.items ≡ size }
{
    let from = bytes.len() - usize::from(size);
    let mut last = ArrayVec::new();
    let _ = last.try_extend_from_slice(&bytes[from..]);
    bytes.truncate(from);
    last
}

impl Trail {
    /// No steps.
    pub(crate) fn new(alloc: Global) -> Trail
        ensures { result ≡ [] }
    {
        Trail {
            marks: Vec::new(alloc),
            requests: Vec::new(alloc),
            bytes: Vec::new(alloc),
        }
    }

    /// How many steps there are.
    pub(crate) fn len(&self) -> usize
        ensures { result ≡ length self.now }
    {
        self.marks.len()
    }

    fn push_pass(&mut self) -> Result<(), AllocError>
        ensures more { OnOk result (self.new ≡ self.old ++ record { step = kinds.Pass; old = record { items = [] } } ∷ []) }
        ensures same { OnErr result (self.new ≡ self.old) }
    {
        self.marks.push(PASSED)?;
        Ok(())
    }

    fn push_act(&mut self, b: usize, old: &[u8]) -> Result<(), AllocError>
        requires { length old.now ≤ max_payload }
        ensures more { OnOk result (self.new ≡ self.old ++ record { step = kinds.Act b; old = record { items = old.now } } ∷ []) }
        ensures same { OnErr result (self.new ≡ self.old) }
    {
        self.requests.reserve(1)?;
        self.bytes.reserve(old.len())?;
        self.marks.push(old.len() as u8)?;
        self.requests.push(b)?;
        self.bytes.extend_from_slice(old)?;
        Ok(())
    }

    /// One step more. A pass overwrote nothing.
    pub(crate) fn push(&mut self, done: &Done) -> Result<(), AllocError>
        requires { done.now.step ≡ kinds.Pass → done.now.old.items ≡ [] }
        ensures more { OnOk result (self.new ≡ self.old ++ done.now ∷ []) }
        ensures same { OnErr result (self.new ≡ self.old) }
    {
        match done.step {
            Step::Pass => self.push_pass()?,
            Step::Act(b) => self.push_act(b, done.old.as_slice())?,
        }
        Ok(())
    }

    /// Takes the last step off, if there is one.
    pub(crate) fn pop(&mut self) -> Option<Done>
        ensures items { self.old ≡ self.new ++ option_to_list result }
        ensures none { IfNone result (self.old ≡ []) }
    {
        let Some(mark) = self.marks.pop() else {
            return None;
        };
        if mark == PASSED {
            return Some(Done {
                step: Step::Pass,
                old: ArrayVec::new(),
            });
        }
        let Some(b) = self.requests.pop() else {
            return None;
        };
        let old = taken_off(&mut self.bytes, mark);
        Some(Done {
            step: Step::Act(b),
            old,
        })
    }
}

/// The steps of a trail from some place on, in their order.
#[derive(Drop)]
pub(crate) struct Rest<'a> {
    marks: &'a [u8],
    requests: &'a [usize],
    bytes: &'a [u8],
}

impl<'a> Model for Rest<'a> {
    ghost use Rattle.std.specs.Prelude.{List};
    ghost use Rattle.search_places.specs.declared.steps.Done.{Done};
    ghost use Rattle.search_run.specs.Trails.{trail_of, IsTrail};

    ghost Value = { List Done };

    ghost view = { λ r. trail_of r.marks.now r.requests.now r.bytes.now };

    ghost invariant = { λ r. IsTrail r.marks.now r.requests.now r.bytes.now };
}

impl<'a> Rest<'a> {
    /// The next step, and the bytes that it overwrote.
    pub(crate) fn next(&mut self) -> Option<(Step, &'a [u8])>
        ensures none { IfNone result (self.old ≡ []) }
        ensures some { IfSome result (λ r. self.old ≡ record { step = r.0; old = record { items = r.1.now } } ∷ self.new) }
    {
        if self.marks.is_empty() {
            return None;
        }
        let mark = self.marks[0];
        self.marks = &self.marks[1..];
        if mark == PASSED {
            return Some((Step::Pass, &self.bytes[..0]));
        }
        let size = usize::from(mark);
        let b = self.requests[0];
        let old = &self.bytes[..size];
        self.requests = &self.requests[1..];
        self.bytes = &self.bytes[size..];
        Some((Step::Act(b), old))
    }
}

impl Trail {
    /// All steps, in their order.
    pub(crate) fn steps(&self) -> Rest<'_>
        ensures { result ≡ self.now }
    {
        Rest {
            marks: self.marks.as_slice(),
            requests: self.requests.as_slice(),
            bytes: self.bytes.as_slice(),
        }
    }
}
