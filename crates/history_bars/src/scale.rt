//! The points that are shown, and where they stand.
ghost use Rattle.std.specs.Prelude.{◌≡◌, ◌≤◌};
ghost use Rattle.history_bars.specs.Layout as layout;

/// The points that are shown: so many after one. A point is a length of the history.
#[derive(Clone, Copy)]
pub struct Scale {
    pub from: u64,
    pub span: u32,
}

/// Where a point stands, in pixels from the left.
pub fn x_at(offset: u64) -> u64
    requires { offset ≤ 4294967296 }
    ensures { result ≡ layout.x_at offset }
{
    120 + 96 * offset
}
