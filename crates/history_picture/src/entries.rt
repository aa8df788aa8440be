//! The history along the axis.
ghost use Rattle.std.specs.Prelude.{◌≡◌, ◌≤◌, ◌<◌, ◌+◌, ◌^◌, ◌++◌, None, false, length, IfOk, OnOk};
ghost use Rattle.svg_text.specs.Shapes.{shapes_text};
ghost use Rattle.history_bars.specs.Signs.{signs_of, joined, bar_signs};
ghost use Rattle.history_bars.specs.Words.{kind_colour as colour_of};
ghost use Rattle.history_picture.specs.Picture as spec;

use arrayvec::ArrayString;
use history_bars::marks::{View, centred_label, edge_of, thickness_of};
use history_bars::scale::{Scale, x_at};
use history_bars::signs::Signs;
use history_bars::words::{kind_colour, put_entry_words, put_pair, put_point_words};
use operation_text::write_decimal;
use seq_memory::Entry;
use std::alloc::AllocError;
use svg_text::{Block, Colour, Rule, put_block, put_label, put_lines};

/// Adds a point's number, and a line down from it.
#[tactic(auto, unfolding(svg_text::specs::Shapes::shapes_text))]
fn put_tick(from: u64, offset: u64, bottom: u64, out: &mut Vec<u8>) -> Result<(), AllocError>
    requires offset { offset ≤ 4294967295 }
    requires point { from + offset < 2 ^ 64 }
    ensures { OnOk result (out.new.items ≡ out.old.items ++ shapes_text (spec.tick from offset bottom)) }
{
    let mut number = ArrayString::new();
    write_decimal(from + offset, &mut number);
    let place = centred_label(x_at(offset), 88, Colour::Grey);
    put_label(&place, number.as_bytes(), out)?;
    let line = Rule {
        left: x_at(offset),
        top: 93,
        right: x_at(offset),
        bottom,
        colour: Colour::Grey,
        thickness: 1,
        dash: 2,
    };
    number.clear();
    put_point_words(from + offset, &mut number);
    put_lines(&[line], number.as_bytes(), out)
}

/// The block of an entry.
fn entry_block(view: &View, offset: u64, entry: &Entry) -> Block
    requires { offset ≤ 4294967295 }
    ensures { result ≡ spec.entry_block view.now offset entry.now }
{
    let is_flawed = view.is_flawed(entry.requester, entry.number);
    Block {
        left: x_at(offset) + 1,
        top: 94,
        right: x_at(offset) + 95,
        bottom: 116,
        fill: kind_colour(&entry.op),
        edge: edge_of(is_flawed),
        thickness: thickness_of(is_flawed),
        is_open: false,
    }
}

/// Adds an entry.
#[tactic(auto, unfolding(svg_text::specs::Shapes::shapes_text))]
fn put_entry(view: &View, offset: u64, entry: &Entry, out: &mut Vec<u8>) -> Result<(), AllocError>
    requires offset { offset ≤ 4294967295 }
    requires point { view.now.scale.from + offset < 2 ^ 64 }
    ensures { OnOk result (out.new.items ≡ out.old.items ++ shapes_text (spec.entry_shapes view.now offset entry.now)) }
{
    let mut text = ArrayString::new();
    put_entry_words(
        view.scale.from + offset,
        entry.requester,
        entry.number,
        &entry.op,
        &mut text,
    );
    put_block(&entry_block(view, offset, entry), text.as_bytes(), out)?;
    text.clear();
    put_pair(entry.requester, entry.number, &mut text);
    let place = centred_label(x_at(offset) + 48, 109, Colour::Black);
    put_label(&place, text.as_bytes(), out)
}

/// What occurs with an entry more.
fn with_entry(signs: Signs, entry: &Entry) -> Signs
    ensures { result ≡ joined signs (bar_signs (colour_of entry.now.op) false None) }
{
    signs.joined(Signs::of_bar(kind_colour(&entry.op), false, None))
}

/// Adds the entries that are shown, each after its point, and gives what occurs among them.
pub(crate) fn put_entries(
    view: &View,
    bottom: u64,
    shown: &[Entry],
    out: &mut Vec<u8>,
) -> Result<Signs, AllocError>
    requires span { length shown.now ≤ 4294967295 }
    requires point { view.now.scale.from + length shown.now < 2 ^ 64 }
    ensures shapes { OnOk result (out.new.items ≡ out.old.items ++ shapes_text (spec.entries view.now bottom 0 shown.now)) }
    ensures signs { IfOk result (λ signs. signs ≡ signs_of (spec.entries view.now bottom 0 shown.now)) }
{
    let mut offset = 0;
    let mut signs = Signs::none();
    for entry in shown {
        put_tick(view.scale.from, offset, bottom, out)?;
        put_entry(view, offset, entry, out)?;
        signs = with_entry(signs, entry);
        offset += 1;
    }
    put_tick(view.scale.from, offset, bottom, out)?;
    Ok(signs)
}

/// The entries that are shown.
pub(crate) fn shown_entries(scale: Scale, history: &[Entry]) -> &[Entry]
    requires { scale.from + scale.span ≤ length history.now }
    ensures shown { result.now ≡ spec.shown_entries scale history.now }
    ensures length { length result.now ≡ scale.span }
    ensures few { length result.now < 2 ^ 32 }
{
    let from = scale.from as usize;
    &history[from..from + scale.span as usize]
}
