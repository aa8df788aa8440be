//! Laws of the texts: what holds of the definitions that the contracts cite.
ghost use Rattle.std.specs.Prelude.{◌≡◌, ◌≤◌, List, ℕ, length, Ok};
ghost use Rattle.tlp_core.specs.Bits.{IsBytes};
ghost use Rattle.operation_text.specs.Texts.{IsPrinted};
ghost use Rattle.packet_text.specs.declared.packet.Packet.{Packet};
ghost use Rattle.packet_text.specs.Packets.{IsPacket, reading};
ghost use Rattle.packet_text.specs.Texts.{packet_text};
ghost use Rattle.packet_text.specs.Lines.{BeginsWithLetter};
ghost use Rattle.packet_text.specs.Forms.{text_reading};

use dllp_core::bytes_spell_one_dllp;
use operation_text::{own_digits_spell_number, own_text_spells_operation};
use tlp_core::laws::reading_is_spelling;

/// The text of a packet is read back as that packet, so no two packets have one text. It is one
/// printed line of at most 400 bytes, and no comment. What bytes spell is such a packet.
pub fn own_text_spells_packet()
    ensures read_back { (p : Packet) → IsPacket p → text_reading (packet_text p) ≡ Ok p }
    ensures one_packet { (p q : Packet) → IsPacket p → IsPacket q → packet_text p ≡ packet_text q → p ≡ q }
    ensures of_bytes { (bytes : List ℕ) (p : Packet) → IsBytes bytes → reading bytes ≡ Ok p → IsPacket p }
    ensures printed { (p : Packet) → IsPacket p → IsPrinted (packet_text p) }
    ensures letter { (p : Packet) → IsPacket p → BeginsWithLetter (packet_text p) }
    ensures short { (p : Packet) → IsPacket p → length (packet_text p) ≤ 400 }
{
    own_digits_spell_number();
    own_text_spells_operation();
    reading_is_spelling();
    config_core::packet_laws::reading_is_spelling();
    bytes_spell_one_dllp();
}
