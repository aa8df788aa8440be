//! Laws of the runs: what holds of the definitions that the contracts cite.
ghost use Rattle.std.specs.Prelude.{◌≡◌, List, ℕ};
ghost use Rattle.packet_engine.specs.Lines.{out_decode, out_encode};
ghost use Rattle.packet_engine.specs.Runs.{packets_in, words_lines, bytes_lines, IsDecoded, IsCanonical};

use packet_text::own_text_spells_packet;

/// Where `decode` tells no fault, it writes the packets of its input's lines in words, and `encode`
/// on that writes their canonical bytes: so the two leave canonical bytes as they are.
pub fn decoded_packets_are_encoded()
    ensures words { (input : List ℕ) → IsDecoded input → (out_decode input).text ≡ words_lines (packets_in input) }
    ensures bytes { (input : List ℕ) → IsDecoded input → (out_encode (out_decode input).text).text ≡ bytes_lines (packets_in input) }
    ensures status { (input : List ℕ) → IsDecoded input → (out_encode (out_decode input).text).status ≡ 0 }
    ensures canonical { (input : List ℕ) → IsCanonical input → (out_encode (out_decode input).text).text ≡ input }
{
    own_text_spells_packet();
}
