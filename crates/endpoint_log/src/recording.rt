//! What is recorded of a device, until memory for a record runs out.
ghost use Rattle.std.specs.Prelude.{◌≡◌, if◌then◌else◌, Some, None, option_map, IfOk, OnOk, OnErr, IsErr};
ghost use Rattle.endpoint_core.specs.Classes.{becomes};
ghost use Rattle.endpoint_core.specs.Steps as device;
ghost use Rattle.endpoint_log.specs.LogView.{LogView};
ghost use Rattle.endpoint_log.specs.Steps as steps;
ghost use Rattle.endpoint_log.specs.Recordings as spec;

use crate::log::Log;
use config_core::Setup;
use endpoint_core::{Endpoint, Handled, PacketRoom, Room};
use std::alloc::{AllocError, Global};
use tlp_core::TlpRef;

/// What is recorded of a device.
#[derive(Drop)]
pub enum Recording {
    /// Nothing, of a device that is made so.
    Off(Setup),
    /// What its memory was asked, answered and did, from the first TLP on.
    On(Log),
    /// Nothing any more: memory for a record ran out.
    Lost,
}

/// Records what a TLP of these bytes does at the device.
fn come_in(log: &mut Log, endpoint: &Endpoint, tlp: &[u8]) -> Result<(), AllocError>
    ensures ok { OnOk result (log.new ≡ steps.came endpoint.now.device (becomes tlp.now) log.old) }
    ensures err { IsErr result → steps.IsPosted (becomes tlp.now) }
{
    log.come(endpoint, tlp, &mut PacketRoom::new())
}

/// Records the answer of the block request with that number, if there are both.
fn answer_in(
    log: &mut Log,
    number: Option<u32>,
    completion: &Option<TlpRef<'_>>,
) -> Result<(), AllocError>
    ensures { OnOk result (log.new ≡ steps.answered_by log.old number completion.now) }
{
    match (number, completion) {
        (Some(number), Some(completion)) => log.answer(number, completion),
        _ => Ok(()),
    }
}

impl Recording {
    pub fn new(alloc: Global, setup: Setup, is_traced: bool) -> Recording
        ensures recording { result ≡ spec.new_recording setup is_traced }
        ensures log { spec.log_of result ≡ (if is_traced then Some (steps.new_log setup) else None) }
    {
        if is_traced {
            Recording::On(Log::new(alloc, setup))
        } else {
            Recording::Off(setup)
        }
    }

    /// What a TLP of these bytes does is recorded before it comes to the device.
    #[inline(always)]
    fn come(&mut self, endpoint: &Endpoint, tlp: &[u8])
        ensures came { spec.IsOrLost self.new (spec.came endpoint.now tlp.now self.old) }
        ensures others { ¬ steps.IsPosted (becomes tlp.now) → self.new ≡ self.old }
    {
        if let Recording::On(log) = self {
            if come_in(log, endpoint, tlp).is_err() {
                *self = Recording::Lost;
            }
        }
    }

    /// A TLP of these bytes [comes](Endpoint::take) to the device, and what it does is recorded. Fails where the device does, and
    /// then nothing changed.
    #[inline(always)]
    pub fn take(
        &mut self,
        endpoint: &mut Endpoint,
        tlp: &[u8],
        room: &mut Room,
    ) -> Result<Handled, AllocError>
        ensures ok { OnOk result (endpoint.new ≡ device.taken endpoint.old tlp.now) }
        ensures answer { IfOk result (λ h. h ≡ device.handled endpoint.old tlp.now) }
        ensures recording { spec.IsOrLost self.new (spec.came endpoint.old tlp.now self.old) }
        ensures no_memory { IsErr result → device.handled endpoint.old tlp.now ≡ Handled.Waits }
        ensures err { OnErr result (endpoint.new ≡ endpoint.old) }
        ensures unrecorded { OnErr result (self.new ≡ self.old) }
    {
        self.come(endpoint, tlp);
        endpoint.take(tlp, room)
    }

    /// The oldest request that waits at the device is about to act. The number of its block request, if it is recorded.
    #[inline(always)]
    fn begin(&mut self, endpoint: &Endpoint) -> Option<u32>
        ensures { spec.IsEntered endpoint.now self.old self.new result }
    {
        let Recording::On(log) = self else {
            return None;
        };
        match log.act(endpoint) {
            Ok(number) => number,
            Err(_) => {
                *self = Recording::Lost;
                None
            }
        }
    }

    /// The block request with that number is answered, if it is recorded.
    #[inline(always)]
    fn answer(&mut self, number: Option<u32>, completion: &Option<TlpRef<'_>>)
        ensures { spec.IsOrLost self.new (spec.noted (λ l. steps.answered_by l number completion.now) self.old) }
    {
        if let Recording::On(log) = self {
            if answer_in(log, number, completion).is_err() {
                *self = Recording::Lost;
            }
        }
    }

    /// The oldest request that waits at the device [acts](Endpoint::act), and is recorded with its completion, which lends its
    /// payload from the room.
    #[inline(always)]
    #[tactic(auto, using(crate::proofs::Recordings::acts_then))]
    pub fn act<'r>(&mut self, endpoint: &mut Endpoint, room: &'r mut Room) -> Option<TlpRef<'r>>
        ensures completion { result ≡ device.next_completion endpoint.old }
        ensures endpoint { endpoint.new ≡ device.acted endpoint.old }
        ensures recording { spec.IsOrLost self.new (spec.acted endpoint.old self.old) }
    {
        let number = self.begin(endpoint);
        let completion = endpoint.act(room);
        self.answer(number, &completion);
        completion
    }

    /// The device is reset.
    pub fn reset(&mut self)
        ensures recording { self.new ≡ spec.dropped self.old }
        ensures log { spec.log_of self.new ≡ option_map steps.dropped (spec.log_of self.old) }
    {
        if let Recording::On(log) = self {
            log.reset();
        }
    }

    /// Fails if what was recorded is lost. If it isn't, all that was to be recorded is.
    #[tactic(auto, using(crate::proofs::Recordings::whole_off, crate::proofs::Recordings::whole_on))]
    pub fn check(&self) -> Result<(), AllocError>
        ensures { OnOk result ((f : LogView → LogView) (old : Recording) → spec.IsOrLost self.now (spec.noted f old) →
            spec.log_of self.now ≡ option_map f (spec.log_of old)) }
    {
        match self {
            Recording::Lost => Err(AllocError),
            Recording::Off(_) | Recording::On(_) => Ok(()),
        }
    }
}
