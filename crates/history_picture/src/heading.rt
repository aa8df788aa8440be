//! What stands above a picture.
ghost use Rattle.std.specs.Prelude.{◌≡◌, ◌≤◌, ◌+◌, ◌++◌, [], OnOk};
ghost use Rattle.arrayvec.specs.ArrayString.{array_string_len};
ghost use Rattle.svg_text.specs.Shapes.{shapes_text};
ghost use Rattle.history_picture.specs.Notes.{others_words, verdict_words, window_words};
ghost use Rattle.history_picture.specs.Picture as spec;

use crate::flaws::Finding;
use arrayvec::ArrayString;
use flaw_places::write_flaw;
use history_bars::marks::{View, edge_of, plain_label};
use operation_text::write_decimal;
use std::alloc::AllocError;
use svg_text::{Label, put_label};

/// Where the title stands, in red where it tells a flaw.
pub(crate) fn title_label(is_flaw: bool) -> Label
    ensures { result ≡ spec.title_label is_flaw }
{
    Label {
        x: 10,
        y: 22,
        size: 16,
        colour: edge_of(is_flaw),
        is_centred: false,
    }
}

/// Writes the first flaw and its line, or that there is none.
fn put_verdict(finding: Option<Finding>, text: &mut ArrayString<512>)
    requires { text.old.bytes ≡ [] }
    ensures { text.new.bytes ≡ verdict_words finding }
{
    match finding {
        None => text.push_str("ok"),
        Some(finding) => {
            write_flaw(finding.flaw, text);
            text.push_str(" (line ");
            write_decimal(finding.line, text);
            text.push_str(")");
        }
    }
}

/// Adds how other points are shown, if points are left out.
fn put_others(is_cut: bool, text: &mut ArrayString<512>)
    requires { array_string_len text.old ≤ 200 }
    ensures { text.new.bytes ≡ text.old.bytes ++ others_words is_cut }
{
    if is_cut {
        text.push_str("; --from and --to choose others");
    }
}

/// Writes which points of how many are shown, and how others are, if points are left out.
fn put_window(view: &View, count: u64, text: &mut ArrayString<512>)
    requires empty { text.old.bytes ≡ [] }
    requires within { view.now.scale.from + view.now.scale.span ≤ count }
    ensures { text.new.bytes ≡ window_words view.now count }
{
    text.push_str("points ");
    write_decimal(view.scale.from, text);
    text.push_str(" to ");
    write_decimal(view.scale.from + u64::from(view.scale.span), text);
    text.push_str(" of ");
    write_decimal(count, text);
    put_others(view.is_cut, text);
}

/// Adds the first flaw, the window, and the names of the axis.
#[tactic(auto, unfolding(svg_text::specs::Shapes::shapes_text))]
pub(crate) fn put_captions(
    view: &View,
    count: u64,
    finding: Option<Finding>,
    out: &mut Vec<u8>,
) -> Result<(), AllocError>
    requires { view.now.scale.from + view.now.scale.span ≤ count }
    ensures { OnOk result (out.new.items ≡ out.old.items ++ shapes_text (spec.captions view.now count finding)) }
{
    let mut text = ArrayString::new();
    put_verdict(finding, &mut text);
    put_label(&title_label(has_flaw(finding)), text.as_bytes(), out)?;
    text.clear();
    put_window(view, count, &mut text);
    put_label(&plain_label(420, 22), text.as_bytes(), out)?;
    put_label(&plain_label(10, 88), b"points", out)?;
    put_label(&plain_label(10, 109), b"history", out)
}

fn has_flaw(finding: Option<Finding>) -> bool
    ensures { result ≡ spec.has_flaw finding }
{
    finding.is_some()
}
