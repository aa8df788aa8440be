//! Laws of the texts: what holds of the definitions that the contracts cite.
ghost use Rattle.std.specs.Prelude.{◌≡◌, ◌≤◌, ◌<◌, ◌^◌, List, ℕ, [], ◌∷◌, ◌++◌, Some, length};
ghost use Rattle.std.specs.Fmt.{decimal};
ghost use Rattle.tlp_core.specs.Ops.{Op};
ghost use Rattle.seq_memory.specs.Entries.{Reply};
ghost use Rattle.operation_text.specs.Words.{words};
ghost use Rattle.operation_text.specs.Numbers.{numeral};
ghost use Rattle.operation_text.specs.Operations.{op_spelled, reply_spelled};
ghost use Rattle.operation_text.specs.Texts.{hexadecimal, op_text, reply_text, IsPrinted};

/// An operation that some words spell is read back from its own text, which is one printed line.
pub fn own_text_spells_operation()
    ensures read_back { (ws : List (List ℕ)) (op : Op) → op_spelled ws ≡ Some op → op_spelled (words (op_text op)) ≡ Some op }
    ensures printed { (ws : List (List ℕ)) (op : Op) → op_spelled ws ≡ Some op → IsPrinted (op_text op) }
    ensures short { (ws : List (List ℕ)) (op : Op) → op_spelled ws ≡ Some op → length (op_text op) ≤ 320 }
{}

/// A reply that some words spell is read back from its own text, which is one printed line.
pub fn own_text_spells_reply()
    ensures read_back { (ws : List (List ℕ)) (reply : Reply) → reply_spelled ws ≡ Some reply → reply_spelled (words (reply_text reply)) ≡ Some reply }
    ensures printed { (ws : List (List ℕ)) (reply : Reply) → reply_spelled ws ≡ Some reply → IsPrinted (reply_text reply) }
    ensures short { (ws : List (List ℕ)) (reply : Reply) → reply_spelled ws ≡ Some reply → length (reply_text reply) ≤ 261 }
{}

/// Numbers are read back from their own digits, which are one printed word. No other word spells the number in decimal.
pub fn own_digits_spell_number()
    ensures range { (radix most n : ℕ) (word : List ℕ) → numeral radix most word ≡ Some n → n ≤ most }
    ensures decimal { (most n : ℕ) → n ≤ most → n < 2 ^ 64 → numeral 10 most (decimal n) ≡ Some n }
    ensures one_word { (most n : ℕ) (word : List ℕ) → most < 2 ^ 64 → numeral 10 most word ≡ Some n → word ≡ decimal n }
    ensures hexadecimal { (most n : ℕ) → n ≤ most → n < 2 ^ 64 → numeral 16 most (hexadecimal n) ≡ Some n }
    ensures decimal_word { (n : ℕ) (line : List ℕ) → words (decimal n ++ 32 ∷ line) ≡ decimal n ∷ words line }
    ensures decimal_last { (n : ℕ) → words (decimal n) ≡ decimal n ∷ [] }
    ensures hexadecimal_word { (n : ℕ) (line : List ℕ) → words (hexadecimal n ++ 32 ∷ line) ≡ hexadecimal n ∷ words line }
    ensures printed { (n : ℕ) → IsPrinted (decimal n) × IsPrinted (hexadecimal n) }
    ensures short { (n : ℕ) → n < 2 ^ 64 → (length (decimal n) ≤ 20) × (length (hexadecimal n) ≤ 16) }
{}
