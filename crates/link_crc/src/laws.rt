//! Which errors the two CRCs detect, in any packet and any DLLP.
ghost use Rattle.std.specs.Prelude.{◌≡◌, ◌≢◌, ◌-◌, ◌<◌, ◌≤◌, ◌++◌, ℕ, List, length, slice_index, bit_xor};
ghost use Rattle.std.specs.Int.{w16, w32, bit_at, to_be_bytes};
ghost use Rattle.link_crc.specs.Crc.{sent, mapped, lcrc_of, dllp_crc_of, ones};
ghost use Rattle.link_crc.specs.Checks.{lcrc_check_of, dllp_check_of};
ghost use Rattle.link_crc.specs.Errors.{AreBytes, IsBurst, AreTwoBits, changed};

use crate::check::{Check, LcrcCheck};

/// A field's bits are sent from the remainder's highest bit to its lowest.
pub fn the_highest_bit_is_sent_first()
    ensures packet { (remainder i : ℕ) → i < 32 →
        slice_index (sent (to_be_bytes w32 (mapped 32 remainder))) i ≡ bit_at remainder (31 - i) }
    ensures dllp { (remainder i : ℕ) → i < 16 →
        slice_index (sent (to_be_bytes w16 (mapped 16 remainder))) i ≡ bit_at remainder (15 - i) }
{}

/// Bytes with their CRC behind them are good. A packet with the complement of its LCRC is nullified.
pub fn what_was_added_is_good()
    ensures packet { (bytes : List ℕ) →
        lcrc_check_of (bytes ++ to_be_bytes w32 (lcrc_of bytes)) ≡ LcrcCheck.Good }
    ensures nullified { (bytes : List ℕ) →
        lcrc_check_of (bytes ++ to_be_bytes w32 (bit_xor (lcrc_of bytes) (ones 32))) ≡ LcrcCheck.Nullified }
    ensures dllp { (bytes : List ℕ) → length bytes ≡ 4 →
        dllp_check_of (bytes ++ to_be_bytes w16 (dllp_crc_of bytes)) ≡ Check.Good }
{}

/// Whether an error is detected depends on the error alone: one that passes in one packet passes in every packet of that
/// length.
pub fn the_error_alone_decides()
    ensures packet { (packet other error : List ℕ) → AreBytes packet → AreBytes other → AreBytes error →
        length other ≡ length packet → length error ≡ length packet →
        lcrc_check_of packet ≡ LcrcCheck.Good → lcrc_check_of other ≡ LcrcCheck.Good →
        lcrc_check_of (changed packet error) ≡ LcrcCheck.Good → lcrc_check_of (changed other error) ≡ LcrcCheck.Good }
    ensures dllp { (dllp other error : List ℕ) → AreBytes dllp → AreBytes other → AreBytes error →
        length dllp ≡ 6 → length other ≡ 6 → length error ≡ 6 →
        dllp_check_of dllp ≡ Check.Good → dllp_check_of other ≡ Check.Good →
        dllp_check_of (changed dllp error) ≡ Check.Good → dllp_check_of (changed other error) ≡ Check.Good }
{}

/// Every burst is detected: a packet of any length isn't good if all its wrong bits are within 32 successive bits, nor is
/// a DLLP if they are within 16.
pub fn every_burst_is_seen()
    ensures packet { (packet got : List ℕ) (start : ℕ) → AreBytes packet → AreBytes got →
        lcrc_check_of packet ≡ LcrcCheck.Good → IsBurst packet got start 32 → got ≢ packet →
        lcrc_check_of got ≢ LcrcCheck.Good }
    ensures dllp { (dllp got : List ℕ) (start : ℕ) → AreBytes dllp → AreBytes got → length dllp ≡ 6 →
        dllp_check_of dllp ≡ Check.Good → IsBurst dllp got start 16 → got ≢ dllp →
        dllp_check_of got ≢ Check.Good }
{}

/// One or two wrong bits are detected in each DLLP, and in each packet of at most 4160 bytes. The longest TLP, of 4096
/// bytes of data behind prefixes and header, fits with its number and its LCRC.
pub fn two_wrong_bits_are_seen()
    ensures packet { (packet got : List ℕ) (i j : ℕ) → AreBytes packet → AreBytes got → length packet ≤ 4160 →
        lcrc_check_of packet ≡ LcrcCheck.Good → AreTwoBits packet got i j → got ≢ packet →
        lcrc_check_of got ≢ LcrcCheck.Good }
    ensures dllp { (dllp got : List ℕ) (i j : ℕ) → AreBytes dllp → AreBytes got → length dllp ≡ 6 →
        dllp_check_of dllp ≡ Check.Good → AreTwoBits dllp got i j → got ≢ dllp →
        dllp_check_of got ≢ Check.Good }
{}
