//! Laws of AtomicOps.
ghost use Rattle.std.specs.Prelude.{◌≡◌, ◌≢◌, ℕ, ◌+◌, ◌*◌, ◌^◌, ◌<◌, ◌≤◌};
ghost use Rattle.tlp_core.specs.declared.operation.Width.{Width};
ghost use Rattle.tlp_core.specs.Operation.{size_of};
ghost use Rattle.seq_memory.specs.NewValue.{new_value};
ghost use Rattle.seq_memory.specs.declared.atomics.AtomicOp.TheVariants as atomics;

/// A sum that fits the width is the sum, and one that does not loses 2 to the number of bits, once.
pub fn fetch_add_wraps()
    ensures fits { (w : Width) (old x : ℕ) → old + x < 2 ^ (8 * size_of w) → new_value (atomics.FetchAdd x) w old ≡ old + x }
    ensures wraps { (w : Width) (old x : ℕ) → old < 2 ^ (8 * size_of w) → x < 2 ^ (8 * size_of w) → 2 ^ (8 * size_of w) ≤ old + x →
        new_value (atomics.FetchAdd x) w old + 2 ^ (8 * size_of w) ≡ old + x }
{}

/// The order of two additions makes no difference.
pub fn fetch_adds_commute()
    ensures { (w : Width) (old x y : ℕ) →
        new_value (atomics.FetchAdd y) w (new_value (atomics.FetchAdd x) w old) ≡ new_value (atomics.FetchAdd x) w (new_value (atomics.FetchAdd y) w old) }
{}

/// Compare and swap writes the swap value if the location holds the compare value, and only then.
pub fn cas_writes_where_equal()
    ensures equal { (w : Width) (old x y : ℕ) → old ≡ x → new_value (atomics.Cas x y) w old ≡ y }
    ensures other { (w : Width) (old x y : ℕ) → old ≢ x → new_value (atomics.Cas x y) w old ≡ old }
{}
