//! Laws of the registers. A mask names bits of a register.
ghost use Rattle.std.specs.Prelude.{◌≡◌, ◌+◌, ◌-◌, ◌*◌, ◌/◌, ◌^◌, ◌<◌, ℕ, List, true, bit_and};
ghost use Rattle.std.specs.List.{list_all};
ghost use Rattle.config_core.specs.declared.register.Register.{Register};
ghost use Rattle.config_core.specs.SetupView.{SetupView, is_size};
ghost use Rattle.config_core.specs.RegistersView.{RegistersView};
ghost use Rattle.config_core.specs.Registers.{after_reset, after_write, base_of, lanes, offered, register_at, row, value, written};
ghost use Rattle.config_core.specs.Changes.{Change, after_changes, leaves, writes_no_one, is_write};

/// A bit that no write sets and no 1 clears is what it was, whatever is written, if the two masks share no bit, so that
/// their sum has 32. So are the read-only bits of each register of the table, after any writes and any errors.
#[tactic(auto, using(crate::proofs::Bits::read_only, crate::proofs::Kept::stays))]
pub fn what_is_read_only_stays()
    ensures one_write { (r : Register) (enables new old j : ℕ) → j < 32 → r.written + r.cleared < 2 ^ 32 → bit_and r.written (2 ^ j) ≡ 0 →
        bit_and r.cleared (2 ^ j) ≡ 0 →
        bit_and (after_write r enables new old) (2 ^ j) ≡ bit_and old (2 ^ j) }
    ensures any { (r : RegistersView) (changes : List Change) (offset mask : ℕ) → is_size r.setup.size ≡ true → mask < 2 ^ 32 →
        bit_and (register_at r.setup offset).written mask ≡ 0 → bit_and (register_at r.setup offset).cleared mask ≡ 0 →
        bit_and (value (after_changes r changes) offset) mask ≡ bit_and (value r offset) mask }
{}

/// All ones in both halves of the BAR of a memory: but for its four lowest bits it then reads 2^64 less the size.
pub fn a_bar_of_all_ones_tells_the_size()
    ensures of_4096 { after_write (row 12 (2 ^ 32 - 4096) 0) 15 4294967295 12 ≡ 4294963212 }
    ensures of_8192 { after_write (row 12 (2 ^ 32 - 8192) 0) 15 4294967295 12 ≡ 4294959116 }
    ensures of_16384 { after_write (row 12 (2 ^ 32 - 16384) 0) 15 4294967295 12 ≡ 4294950924 }
    ensures of_32768 { after_write (row 12 (2 ^ 32 - 32768) 0) 15 4294967295 12 ≡ 4294934540 }
    ensures of_65536 { after_write (row 12 (2 ^ 32 - 65536) 0) 15 4294967295 12 ≡ 4294901772 }
    ensures of_131072 { after_write (row 12 (2 ^ 32 - 131072) 0) 15 4294967295 12 ≡ 4294836236 }
    ensures of_262144 { after_write (row 12 (2 ^ 32 - 262144) 0) 15 4294967295 12 ≡ 4294705164 }
    ensures of_524288 { after_write (row 12 (2 ^ 32 - 524288) 0) 15 4294967295 12 ≡ 4294443020 }
    ensures of_1048576 { after_write (row 12 (2 ^ 32 - 1048576) 0) 15 4294967295 12 ≡ 4293918732 }
    ensures high { after_write (row 0 4294967295 0) 15 4294967295 0 ≡ 4294967295 }
{}

/// Whatever was written and whatever errors were reported since a reset: the BAR then takes the base address that is
/// written in its two halves, down to a multiple of the size. So all ones read as 2^64 less the size.
#[tactic(auto, using(crate::proofs::Kept::takes, crate::proofs::Kept::takes_low, crate::proofs::Kept::sized))]
pub fn a_bar_takes_a_multiple_of_the_size()
    ensures taken { (s : SetupView) (changes : List Change) (low high : ℕ) → is_size s.size ≡ true → low < 2 ^ 32 → high < 2 ^ 32 →
        base_of (written (written (after_changes (after_reset s) changes) 16 15 low) 20 15 high) ≡ high * 2 ^ 32 + low / s.size * s.size }
    ensures low { (s : SetupView) (changes : List Change) (low : ℕ) → is_size s.size ≡ true → low < 2 ^ 32 →
        value (written (after_changes (after_reset s) changes) 16 15 low) 16 ≡ low / s.size * s.size + 12 }
    ensures sized { (s : SetupView) (changes : List Change) → is_size s.size ≡ true →
        base_of (written (written (after_changes (after_reset s) changes) 16 15 4294967295) 20 15 4294967295) ≡ 2 ^ 64 - s.size }
{}

/// The bits that a write sets read as they were written, in the bytes that it enabled, until the next write of that
/// register that enables such a byte. The other bytes stay. Of PowerState, D1 and D2 aren't taken.
#[tactic(auto, using(crate::proofs::Kept::read_back, crate::proofs::Kept::other_bytes))]
pub fn what_was_written_is_read()
    ensures until_the_next { (r : RegistersView) (changes : List Change) (offset enables new mask : ℕ) → is_size r.setup.size ≡ true →
        bit_and (register_at r.setup offset).written mask ≡ mask → bit_and (lanes enables) mask ≡ mask → list_all (leaves offset mask) changes ≡ true →
        bit_and (value (after_changes (written r offset enables new) changes) offset) mask ≡ bit_and (offered offset new (value r offset)) mask }
    ensures other_bytes { (r : RegistersView) (offset enables new mask : ℕ) → is_size r.setup.size ≡ true → mask < 2 ^ 32 → bit_and (lanes enables) mask ≡ 0 →
        bit_and (value (written r offset enables new) offset) mask ≡ bit_and (value r offset) mask }
{}

/// A status bit that is set stays until a 1 is written to it: of Device Status, here Unsupported Request Detected.
pub fn ones_clear()
    ensures zeros { after_write (row 0 15 983040) 15 0 524288 ≡ 524288 }
    ensures ones { after_write (row 0 15 983040) 15 524288 524288 ≡ 0 }
    ensures masked { after_write (row 0 15 983040) 3 524288 524288 ≡ 524288 }
{}

/// A 1 clears a status bit, in a byte that is enabled. Nothing else does: bits that are set stay set through any writes
/// that have no 1 there, and any errors. No write sets one.
#[tactic(auto, using(crate::proofs::Kept::cleared_by_ones, crate::proofs::Kept::stays_set, crate::proofs::Kept::stays_clear))]
pub fn only_ones_clear()
    ensures cleared { (r : RegistersView) (offset enables new mask : ℕ) → is_size r.setup.size ≡ true →
        bit_and (register_at r.setup offset).cleared mask ≡ mask → bit_and (lanes enables) mask ≡ mask → bit_and new mask ≡ mask →
        bit_and (value (written r offset enables new) offset) mask ≡ 0 }
    ensures set { (r : RegistersView) (changes : List Change) (offset mask : ℕ) → is_size r.setup.size ≡ true →
        bit_and (register_at r.setup offset).cleared mask ≡ mask → list_all (writes_no_one offset mask) changes ≡ true →
        bit_and (value r offset) mask ≡ mask → bit_and (value (after_changes r changes) offset) mask ≡ mask }
    ensures clear { (r : RegistersView) (changes : List Change) (offset mask : ℕ) → is_size r.setup.size ≡ true →
        bit_and (register_at r.setup offset).cleared mask ≡ mask → list_all is_write changes ≡ true →
        bit_and (value r offset) mask ≡ 0 → bit_and (value (after_changes r changes) offset) mask ≡ 0 }
{}
