//! What an endpoint behind its link is made with.
ghost use Rattle.std.specs.Prelude.{◌≡◌, true, false, IfOk, IfErr};
ghost use Rattle.config_core.specs.SetupView.{is_size};
ghost use Rattle.flow_control.specs.Limits.{IsInLimits};
ghost use Rattle.c_linked.specs.declared.setup.NewFailure.TheVariants.{WrongSize, WrongCredits};
ghost use Rattle.c_linked.specs.Making as spec;

use config_core::Setup;
use flow_control::LaneCredits;
use seq_memory::MAX_SIZE;

/// The credits that an endpoint advertises, in header units and in data units of 16 bytes. They are finite, so what waits
/// is bounded whatever the peer sends. Those of completions are infinite, since it has no requests.
#[repr(C)]
#[derive(Clone, Copy)]
pub struct FiniteCredits {
    /// Posted headers, 1 to 127.
    pub ph: u8,
    /// Posted data, 8 to 2047.
    pub pd: u16,
    /// Non-posted headers, 1 to 127.
    pub nph: u8,
    /// Non-posted data, 2 to 2047.
    pub npd: u16,
}

/// What an endpoint behind its link is made with.
#[derive(Clone, Copy)]
pub struct LinkedSetup {
    /// The memory's bytes, a power of two from 4096 to 1,048,576.
    pub size: usize,
    /// Vendor ID.
    pub vendor: u16,
    /// Device ID.
    pub device: u16,
    pub credits: FiniteCredits,
    /// Keeps a trace, which grows with what the memory is asked and answers.
    pub is_traced: bool,
}

/// Why no endpoint is made.
#[derive(Clone, Copy)]
pub enum NewFailure {
    /// The memory's size is no power of two from 4096 to 1,048,576.
    WrongSize,
    /// A credit is out of its range.
    WrongCredits,
    /// Memory was refused.
    NoMemory,
}

fn is_between(least: u16, most: u16, first: u16) -> bool
    ensures { result ≡ spec.is_between least most first }
{
    least <= first && first <= most
}

impl FiniteCredits {
    /// Whether each is in its range.
    fn are_right(&self) -> bool
        ensures value { result ≡ spec.are_right self.now }
        ensures in_limits { result ≡ true → IsInLimits (spec.advertised self.now) }
    {
        is_between(1, 127, u16::from(self.ph))
            && is_between(8, 2047, self.pd)
            && is_between(1, 127, u16::from(self.nph))
            && is_between(2, 2047, self.npd)
    }

    /// All credits of the port, or `WrongCredits`.
    pub(crate) fn advertised(&self) -> Result<LaneCredits, NewFailure>
        ensures ok { IfOk result (λ ours. (ours ≡ spec.advertised self.now) × IsInLimits ours × (spec.are_right self.now ≡ true)) }
        ensures err { IfErr result (λ f. (f ≡ WrongCredits) × (spec.are_right self.now ≡ false)) }
    {
        if !self.are_right() {
            return Err(NewFailure::WrongCredits);
        }
        Ok(LaneCredits {
            ph: self.ph,
            pd: self.pd,
            nph: self.nph,
            npd: self.npd,
            cplh: 0,
            cpld: 0,
        })
    }
}

impl LinkedSetup {
    /// What the device is made with, or `WrongSize`.
    pub(crate) fn device(&self) -> Result<Setup, NewFailure>
        ensures ok { IfOk result (λ s. (s ≡ spec.setup_of self.now) × (is_size self.now.size ≡ true)) }
        ensures err { IfErr result (λ f. (f ≡ WrongSize) × (is_size self.now.size ≡ false)) }
    {
        if self.size > MAX_SIZE {
            return Err(NewFailure::WrongSize);
        }
        match Setup::new(self.size as u32, self.vendor, self.device) {
            Some(setup) => Ok(setup),
            None => Err(NewFailure::WrongSize),
        }
    }
}
