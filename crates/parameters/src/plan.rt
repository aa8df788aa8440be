//! Plans of faults: what becomes of the packets and DLLPs of a wire, as a fixed function of their
//! count, so that a run under a plan can be repeated.
ghost use Rattle.std.specs.Prelude.{◌≡◌, ℕ, ◌-◌, ◌/◌, ◌<◌, ◌≤◌, min};
ghost use Rattle.lane_core.specs.declared.packet.Fate.TheVariants.{Good};
ghost use Rattle.parameters.specs.Fates.{fate_of, is_failed, is_lost, how_many};

use lane_core::Fate;

/// The most that a plan can say: one of 65,536.
pub const MOST: u32 = 65536;

/// What a count is multiplied by, modulo 65,536. It is odd, so that of 65,536 counts in a row each has its own product;
/// it is near 65,536 divided by the golden ratio, so that products of counts that follow each other lie far apart.
const SPREAD: u64 = 40503;

/// How many are lost and how many arrive with a failed check: one of each so many, spread evenly,
/// none where it is 0. Each is 0 to 65,536.
#[derive(Clone, Copy)]
pub struct Plan {
    pub lose_every: u32,
    pub corrupt_every: u32,
    ghost loses: { lose_every ≤ 65536 },
    ghost corrupts: { corrupt_every ≤ 65536 },
}

impl Plan {
    /// What becomes of the packet or DLLP of this count, from 1. Takes no memory.
    pub fn fate(&self, count: u64) -> Fate
        ensures { result ≡ fate_of self.now.lose_every self.now.corrupt_every count }
    {
        let spread = (count % u64::from(MOST) * SPREAD % u64::from(MOST)) as u32;
        if self.lose_every > 0 && spread < MOST / self.lose_every {
            return Fate::Lost;
        }
        if self.corrupt_every > 0 && spread >= MOST - MOST / self.corrupt_every {
            return Fate::Failed;
        }
        Fate::Good
    }
}

/// Of 65,536 counts in a row, from any, a plan that loses one of so many loses just that part of 65,536, and as many
/// fail as it says, but for those that are lost. Under a plan that loses nothing none is lost, and as many fail as it says.
pub fn each_part_is_lost()
    ensures failed { (lose corrupt start : ℕ) → 0 < lose → 0 < corrupt →
        how_many (λ count. is_failed (fate_of lose corrupt count)) start 65536 ≡ min (65536 / corrupt) (65536 - 65536 / lose) }
    ensures lost { (lose corrupt start : ℕ) → 0 < lose → how_many (λ count. is_lost (fate_of lose corrupt count)) start 65536 ≡ 65536 / lose }
    ensures failed_alone { (corrupt start : ℕ) → 0 < corrupt → how_many (λ count. is_failed (fate_of 0 corrupt count)) start 65536 ≡ 65536 / corrupt }
    ensures none_lost { (corrupt start : ℕ) → how_many (λ count. is_lost (fate_of 0 corrupt count)) start 65536 ≡ 0 }
{}

/// Under a plan that neither loses nor corrupts, all arrive good.
pub fn a_plan_without_faults_is_good()
    ensures { (count : ℕ) → fate_of 0 0 count ≡ Good }
{}
