//! Which points are shown.
ghost use Rattle.std.specs.Prelude.{◌≡◌, ◌≤◌, ◌+◌};
ghost use Rattle.history_picture.specs.Points as spec;

use history_bars::scale::Scale;

/// The first and the last point that are to be shown. A point is a length of the history. From 0 to the greatest number
/// nothing is chosen: of a long history 60 points after one are shown, up to 20 of them behind the first flaw.
#[derive(Clone, Copy)]
pub struct Window {
    pub from: u64,
    pub to: u64,
}

/// Points are left out of a history of that length, and none were chosen.
pub(crate) fn is_cut(window: Window, count: usize) -> bool
    ensures { result ≡ spec.is_cut window count }
{
    window.from == 0 && window.to == u64::MAX && count > 60
}

/// What was chosen of a history of that length.
fn chosen(window: Window, count: u64) -> Scale
    ensures scale { result ≡ spec.chosen window count }
    ensures within { result.from + result.span ≤ count }
{
    let to = window.to.min(count);
    let from = window.from.min(to);
    Scale {
        from,
        span: (to - from).min(4_294_967_295) as u32,
    }
}

/// 60 points of a history of that length, up to 20 of them behind this point.
fn around(point: u64, count: u64) -> Scale
    requires { 60 ≤ count }
    ensures scale { result ≡ spec.around point count }
    ensures within { result.from + result.span ≤ count }
{
    Scale {
        from: point.saturating_sub(40).min(count - 60),
        span: 60,
    }
}

/// What is shown of a history of that length, in which the first flaw is at this point.
pub(crate) fn scale_of(window: Window, point: u64, count: usize) -> Scale
    ensures scale { result ≡ spec.scale_of window point count }
    ensures within { result.from + result.span ≤ count }
{
    if is_cut(window, count) {
        around(point, count as u64)
    } else {
        chosen(window, count as u64)
    }
}
