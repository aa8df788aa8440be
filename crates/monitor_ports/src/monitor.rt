//! The monitor.
ghost use Rattle.std.specs.Prelude.{◌≡◌, ◌<◌, ◌≤◌, ◌+◌, ◌∷◌, ◌++◌, [], true, length, replicate, position, Some, Err, IfOk, OnOk, IfErr, OnErr, IsOk};
ghost use Rattle.tlp_core.specs.Limits.{most_requesters};
ghost use Rattle.history_words.specs.Trace.{is_request};
ghost use Rattle.monitor_ports.specs.declared.fault.MonitorFault.TheVariants as faults;
ghost use Rattle.monitor_ports.specs.Watched.{fresh};
ghost use Rattle.monitor_ports.specs.Monitoring as spec;

use crate::fault::MonitorFault;
use crate::reading::{is_requester, packet_from};
use crate::watched::Watched;
use history_words::Record;
use seq_memory::Entry;
use std::alloc::{AllocError, Global};
use std::marker::Model;
use tlp_core::{OpRef, REQUESTERS, TlpRef, op_lent};

/// A place for each requester, and one for 0.
const PLACES: u8 = REQUESTERS + 1;

/// A monitor of the ports of a memory. It writes the lines of a log or, with n's and a history, of a
/// trace. It holds the open requests of each requester, in a trace also those that haven't acted.
#[derive(Drop)]
pub struct Monitor {
    is_trace: bool,
    /// How many requests have acted.
    acted: u64,
    /// By requester; that of 0 isn't used.
    requesters: Vec<Watched>,
    /// In a trace, the requests that haven't acted, oldest first.
    waiting: Vec<Entry>,
}

impl Model for Monitor {
    ghost use Rattle.monitor_ports.specs.Monitoring.{Monitor, IsMonitor};

    ghost Value = { Monitor };

    ghost view = { λ m. record { is_trace = m.is_trace; acted = m.acted; requesters = m.requesters.items; waiting = m.waiting.items } };

    ghost invariant = { λ m. IsMonitor (record { is_trace = m.is_trace; acted = m.acted; requesters = m.requesters.items; waiting = m.waiting.items }) };
}

/// The requesters of requesters that have sent nothing.
fn new_requesters(alloc: Global) -> Result<Vec<Watched>, AllocError>
    ensures { IfOk result (λ v. v.items ≡ replicate (most_requesters + 1) fresh) }
{
    let mut requesters = Vec::new(alloc);
    for _place in 0..PLACES {
        requesters.push(Watched::new())?;
    }
    Ok(requesters)
}

/// Where the request waits to act.
fn place_of(waiting: &[Entry], requester: u8, number: u32) -> Option<usize>
    ensures { result ≡ position (is_request requester number) waiting.now }
{
    waiting.iter().position(|entry| entry.requester == requester && entry.number == number)
}

impl Monitor {
    /// A monitor that has seen nothing, of a trace or of a log.
    pub fn new(alloc: Global, is_trace: bool) -> Result<Self, AllocError>
        ensures { IfOk result (λ m. m ≡ spec.new is_trace) }
    {
        Ok(Monitor {
            is_trace,
            acted: 0,
            requesters: new_requesters(alloc)?,
            waiting: Vec::new(alloc),
        })
    }

    /// Whether it is of a trace.
    pub fn is_trace(&self) -> bool
        ensures { result ≡ self.now.is_trace }
    {
        self.is_trace
    }

    /// How many requests wait for their completions.
    pub fn open(&self) -> usize
        ensures { result ≡ spec.open_requests self.now }
    {
        let mut count = 0;
        for watched in &self.requesters {
            count += watched.open_count();
        }
        count
    }

    /// In a trace, the request waits to act.
    fn wait(&mut self, requester: u8, number: u32, op: &OpRef<'_>) -> Result<(), AllocError>
        ensures ok { OnOk result (self.new ≡ spec.with_waiting self.old requester number op.now) }
        ensures err { OnErr result ((self.new ≡ self.old) × (self.old.is_trace ≡ true)) }
    {
        if self.is_trace {
            self.waiting.push(Entry {
                requester,
                number,
                op: op.to_owned(),
            })?;
        }
        Ok(())
    }

    /// The next request of the requester asks for the operation.
    fn ask(
        &mut self,
        requester: u8,
        request: &TlpRef<'_>,
        op: &OpRef<'_>,
    ) -> Result<Record, MonitorFault>
        requires { requester ≤ most_requesters }
        ensures answer { IfOk result (λ r. (spec.opening self.old requester request.now op.now).answer ≡ Ok r) }
        ensures state { OnOk result (self.new ≡ (spec.opening self.old requester request.now op.now).monitor) }
        ensures fault { IfErr result (λ f. ¬ (f ≡ faults.Memory) → (spec.opening self.old requester request.now op.now).answer ≡ Err f) }
        ensures no_memory { IfErr result (λ f. f ≡ faults.Memory →
            (self.old.is_trace ≡ true) × IsOk (spec.opening self.old requester request.now op.now).answer) }
        ensures unchanged { OnErr result (self.new ≡ self.old) }
    {
        let watched = &self.requesters[usize::from(requester)];
        if let Some(fault) = watched.request_fault(request) {
            return Err(fault);
        }
        let number = watched.next;
        if self.wait(requester, number, op).is_err() {
            return Err(MonitorFault::Memory);
        }
        self.requesters[usize::from(requester)].ask(request);
        Ok(Record::Sub {
            requester,
            number,
            op: op.to_owned(),
            n: self.acted,
        })
    }

    /// A port carried a request of the requester, 1 to 7: its record. The first that holds of
    /// `NoRequester`, the packet's fault, `NoRequest` for a completion, `OtherRequester`, `TagInUse`,
    /// `NumbersUsed` and, in a trace alone, `Memory`; then nothing has changed.
    pub fn request(&mut self, requester: u8, tlp: &[u8]) -> Result<Record, MonitorFault>
        ensures answer { IfOk result (λ r. (spec.request self.old requester tlp.now).answer ≡ Ok r) }
        ensures state { OnOk result (self.new ≡ (spec.request self.old requester tlp.now).monitor) }
        ensures fault { IfErr result (λ f. ¬ (f ≡ faults.Memory) → (spec.request self.old requester tlp.now).answer ≡ Err f) }
        ensures no_memory { IfErr result (λ f. f ≡ faults.Memory → (self.old.is_trace ≡ true) × IsOk (spec.request self.old requester tlp.now).answer) }
        ensures unchanged { OnErr result (self.new ≡ self.old) }
    {
        let request = match packet_from(requester, tlp) {
            Ok(request) => request,
            Err(fault) => return Err(fault),
        };
        match op_lent(&request) {
            Some(op) => self.ask(requester, &request, &op),
            None => Err(MonitorFault::NoRequest),
        }
    }

    /// The completion answers a request of the requester.
    fn answer(&mut self, requester: u8, completion: &TlpRef<'_>) -> Result<Record, MonitorFault>
        requires { requester ≤ most_requesters }
        ensures answer { result ≡ (spec.completing self.old requester completion.now).answer }
        ensures state { self.new ≡ (spec.completing self.old requester completion.now).monitor }
        ensures unchanged { OnErr result (self.new ≡ self.old) }
    {
        let watched = &mut self.requesters[usize::from(requester)];
        match watched.answered(completion) {
            Ok((number, reply)) => {
                watched.close(completion.header.tag);
                Ok(Record::Ans {
                    requester,
                    number,
                    reply,
                    n: self.acted,
                })
            }
            Err(fault) => Err(fault),
        }
    }

    /// A port carried a completion to the requester, 1 to 7: its record. Bytes of a read that were
    /// not enabled are 00 there. The first that holds of `NoRequester`, the packet's fault,
    /// `NoCompletion` for a request, `OtherRequester`, `Unexpected` and `Mismatch`; then nothing has
    /// changed. TC, attributes, Byte Count and Lower Address are not looked at. Takes no memory.
    pub fn completion(&mut self, requester: u8, tlp: &[u8]) -> Result<Record, MonitorFault>
        ensures answer { result ≡ (spec.completion self.old requester tlp.now).answer }
        ensures state { self.new ≡ (spec.completion self.old requester tlp.now).monitor }
        ensures unchanged { OnErr result (self.new ≡ self.old) }
    {
        let completion = packet_from(requester, tlp)?;
        if !completion.header.kind.is_completion() {
            return Err(MonitorFault::NoCompletion);
        }
        self.answer(requester, &completion)
    }

    /// No completion is waited for any longer under the tag: the tag is free, and the request that was
    /// open under it has no answer. So after a completion that was refused with `Mismatch`, or one that
    /// never came. The first that holds of `NoRequester` and `Unexpected` if no request is open under
    /// the tag; then nothing has changed. Takes no memory.
    pub fn give_up(&mut self, requester: u8, tag: u8) -> Result<(), MonitorFault>
        ensures answer { result ≡ (spec.given_up self.old requester tag).answer }
        ensures state { self.new ≡ (spec.given_up self.old requester tag).monitor }
        ensures unchanged { OnErr result (self.new ≡ self.old) }
    {
        if !is_requester(requester) {
            return Err(MonitorFault::NoRequester);
        }
        let watched = &mut self.requesters[usize::from(requester)];
        if !watched.is_open(tag) {
            return Err(MonitorFault::Unexpected);
        }
        watched.close(tag);
        Ok(())
    }

    /// A request acted on the memory: its entry, the next of the history. The first that holds of
    /// `NoRequester`, `Unexpected` if no request of that number waits to act, as in a log, and
    /// `NumbersUsed`; then nothing has changed. Takes no memory.
    pub fn acted(&mut self, requester: u8, number: u32) -> Result<Entry, MonitorFault>
        ensures answer { result ≡ (spec.acted self.old requester number).answer }
        ensures state { self.new ≡ (spec.acted self.old requester number).monitor }
        ensures unchanged { OnErr result (self.new ≡ self.old) }
    {
        if !is_requester(requester) {
            return Err(MonitorFault::NoRequester);
        }
        let Some(place) = place_of(&self.waiting, requester, number) else {
            return Err(MonitorFault::Unexpected);
        };
        if self.acted == u64::MAX {
            return Err(MonitorFault::NumbersUsed);
        }
        self.acted += 1;
        Ok(self.waiting.remove(place))
    }
}
