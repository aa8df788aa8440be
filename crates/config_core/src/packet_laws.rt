//! Laws of configuration requests and their bytes.
ghost use Rattle.std.specs.Prelude.{◌≡◌, ◌/◌, ◌%◌, List, ℕ, Ok, slice_index};
ghost use Rattle.config_core.specs.declared.request.CfgRequest.{CfgRequest};
ghost use Rattle.config_core.specs.Layout.{Spells, reading};
ghost use Rattle.config_core.specs.Canonical.{FitsFields, IsBytes, canonical};

/// What is read is what the bytes spell, and no bytes spell two requests. A request that was read fits its fields.
#[tactic(auto, using(crate::proofs::Reading::only, crate::proofs::Reading::one_request))]
pub fn reading_is_spelling()
    ensures spelled { (b : List ℕ) (r : CfgRequest) → reading b ≡ Ok r → Spells b r }
    ensures read { (b : List ℕ) (r : CfgRequest) → Spells b r → reading b ≡ Ok r }
    ensures one_value { (b : List ℕ) (r s : CfgRequest) → Spells b r → Spells b s → r ≡ s }
    ensures fits { (b : List ℕ) (r : CfgRequest) → IsBytes b → reading b ≡ Ok r → FitsFields r }
{}

/// The canonical bytes of a request spell it, and are read back as it. Bytes that are read are the canonical bytes of
/// what they are read as, if the reserved bits beside the register's number are 0.
#[tactic(auto, using(crate::proofs::Canon::spells_canonical, crate::proofs::Canon::reads_canonical, crate::proofs::Canon::canonical_again))]
pub fn canonical_is_read_back()
    ensures spelled { (r : CfgRequest) → FitsFields r → Spells (canonical r) r }
    ensures read { (r : CfgRequest) → FitsFields r → reading (canonical r) ≡ Ok r }
    ensures written { (b : List ℕ) (r : CfgRequest) → IsBytes b → reading b ≡ Ok r → slice_index b 10 / 16 ≡ 0 → slice_index b 11 % 4 ≡ 0 → canonical r ≡ b }
{}
