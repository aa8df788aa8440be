//! What holds of bytes and the DLLPs that they spell.
ghost use Rattle.std.specs.Prelude.{◌≡◌, ℕ, List};
ghost use Rattle.dllp_core.specs.declared.packet.Dllp.{Dllp};
ghost use Rattle.dllp_core.specs.Layout.{canonical, Spells, FitsFields};
ghost use Rattle.dllp_core.specs.Faults.{reading};

/// No bytes spell two DLLPs, and what `decode` reads is what they spell.
pub fn bytes_spell_one_dllp()
    ensures one { (bytes : List ℕ) (d e : Dllp) → Spells bytes d → Spells bytes e → d ≡ e }
    ensures read { (bytes : List ℕ) (d : Dllp) → Spells bytes d → reading bytes ≡ Ok d }
    ensures spelled { (bytes : List ℕ) (d : Dllp) → reading bytes ≡ Ok d → Spells bytes d }
{}

/// The canonical bytes of a DLLP spell it, and are read back as it.
pub fn canonical_is_read_back()
    ensures spelled { (d : Dllp) → FitsFields d → Spells (canonical d) d }
    ensures read { (d : Dllp) → FitsFields d → reading (canonical d) ≡ Ok d }
{}
