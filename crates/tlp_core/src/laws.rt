//! Laws of packets: what holds of the definitions that the contracts cite.
ghost use Rattle.std.specs.Prelude.{◌≡◌, ◌^◌, ◌<◌, List, ℕ, None, Ok};
ghost use Rattle.tlp_core.specs.Bits.{IsBytes};
ghost use Rattle.tlp_core.specs.TlpView.{TlpView, IsPacket, IsBodyInRange};
ghost use Rattle.tlp_core.specs.Layout.{Spells, canonical};
ghost use Rattle.tlp_core.specs.Faults.{first_fault, reading};

/// What the decoder reads is what the bytes spell, and no bytes spell two packets. Bytes that have
/// none of the faults are spelled by a packet.
#[tactic(auto, using(crate::proofs::Grammar::reading_spelled, crate::proofs::Grammar::spelled_reading, crate::proofs::Grammar::one_value, crate::proofs::Grammar::faultless))]
pub fn reading_is_spelling()
    ensures spelled { (b : List ℕ) (t : TlpView) → IsBytes b → reading b ≡ Ok t → Spells b t }
    ensures read { (b : List ℕ) (t : TlpView) → Spells b t → reading b ≡ Ok t }
    ensures one_value { (b : List ℕ) (t u : TlpView) → Spells b t → Spells b u → t ≡ u }
    ensures faultless { (b : List ℕ) → IsBytes b → first_fault b ≡ None → (t : TlpView) × Spells b t }
{}

/// The canonical bytes of a packet spell it if its numbers fit their fields: a Requester ID of 16 bits, an address of 64
/// bits or a Completer ID of 16. If they spell it, the Requester ID has 16 bits.
#[tactic(auto, using(crate::proofs::Ranges::requester_fits))]
pub fn canonical_bytes_spell_their_packet()
    ensures spelled { (t : TlpView) → t.requester < 2 ^ 16 → IsBodyInRange t.body → IsPacket t → Spells (canonical t) t }
    ensures requester { (t : TlpView) → Spells (canonical t) t → t.requester < 2 ^ 16 }
{}
