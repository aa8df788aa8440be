//! What is drawn of a step line.
ghost use Rattle.std.specs.Prelude.{◌≡◌, ◌≤◌, ◌<◌, ◌+◌, ◌++◌, ◌∷◌, [], drop, length, OnOk};
ghost use Rattle.chart_rows.specs.Sizes.{AreRows, IsOnPage};
ghost use Rattle.std.specs.Fmt.{decimal};
ghost use Rattle.arrayvec.specs.ArrayString.{array_string_len};
ghost use Rattle.script_text.specs.LineTexts.{lane_text};
ghost use Rattle.svg_text.specs.Shapes.{shape_text, shapes_text};
ghost use Rattle.chart_levels.specs.Strips as spec;

use crate::level::{Level, level_name, level_words};
use crate::step_line::Step;
use arrayvec::ArrayString;
use chart_rows::{put_lane, put_on, text_line, top_of};
use fabric_core::LaneName;
use operation_text::write_decimal;
use std::alloc::AllocError;
use svg_text::{Block, Colour, Label, Rule, put_block, put_label, put_lines};

/// Where a step line stands.
#[derive(Clone, Copy)]
pub(crate) struct Strip {
    pub(crate) lane: LaneName,
    pub(crate) level: Level,
    pub(crate) left: u64,
    /// The value that is drawn at its right.
    pub(crate) greatest: u64,
    /// Where the rows end.
    pub(crate) bottom: u64,
}

/// How far right of the left a value is drawn: 24 pixels stand for the greatest.
fn share_of(value: u64, greatest: u64) -> u64
    ensures value { result ≡ spec.share_of value greatest }
    ensures range { result ≤ 24 }
{
    (u128::from(value) * 24 / u128::from(greatest.max(1))).min(24) as u64
}

/// Where a value is drawn; infinite credits stand at the right.
fn value_x(strip: Strip, value: Option<u64>) -> u64
    requires { IsOnPage strip.left }
    ensures value { result ≡ spec.value_x strip value }
{
    match value {
        Some(value) => strip.left + share_of(value, strip.greatest),
        None => strip.left + 24,
    }
}

/// A black line from a point to another.
fn line(left: u64, top: u64, right: u64, bottom: u64) -> Rule
    ensures { result ≡ spec.line left top right bottom }
{
    Rule {
        left,
        top,
        right,
        bottom,
        colour: Colour::Black,
        thickness: 2,
        dash: 0,
    }
}

/// A thin grey line where 0 is drawn.
fn axis(strip: Strip) -> Rule
    ensures { result ≡ spec.axis strip }
{
    Rule {
        left: strip.left,
        top: 92,
        right: strip.left,
        bottom: strip.bottom,
        colour: Colour::Grey,
        thickness: 1,
        dash: 0,
    }
}

/// The value of a step, down to the end of its rows.
fn upright(strip: Strip, step: Step, end: u64) -> Rule
    requires { IsOnPage strip.left }
    ensures { result ≡ spec.upright strip step end }
{
    let x = value_x(strip, step.value);
    line(x, top_of(step.row), x, end)
}

/// From the value of a step to that of the next.
fn across(strip: Strip, step: Step, next: Step) -> Rule
    requires { IsOnPage strip.left }
    ensures { result ≡ spec.across strip step next }
{
    let y = top_of(next.row);
    line(value_x(strip, step.value), y, value_x(strip, next.value), y)
}

/// Adds a value.
fn put_value(value: Option<u64>, text: &mut ArrayString<512>)
    requires { array_string_len text.old ≤ 300 }
    ensures { text.new.bytes ≡ text.old.bytes ++ spec.value_words value }
{
    match value {
        Some(value) => write_decimal(value, text),
        None => text.push_str("inf"),
    }
}

/// Adds which level it is, and on which lane.
fn put_strip_words(strip: Strip, text: &mut ArrayString<512>)
    requires { array_string_len text.old ≤ 100 }
    ensures text { text.new.bytes ≡ text.old.bytes ++ spec.strip_words strip }
    ensures len { array_string_len text.new ≤ array_string_len text.old + 60 }
{
    text.push_str(level_words(strip.level));
    put_on(strip.lane, text);
}

/// Adds what a step says: which level it is, on which lane, and its value.
fn put_step_words(strip: Strip, value: Option<u64>, text: &mut ArrayString<512>)
    requires { array_string_len text.old ≤ 100 }
    ensures { text.new.bytes ≡ text.old.bytes ++ spec.step_words strip value }
{
    put_strip_words(strip, text);
    text.push_str(": ");
    put_value(value, text);
}

/// Adds the lines of a step, with their title.
#[tactic(auto, unfolding(svg_text::specs::Shapes::shapes_text))]
fn put_step_lines(
    strip: Strip,
    step: Step,
    next: Option<Step>,
    out: &mut Vec<u8>,
) -> Result<(), AllocError>
    requires { IsOnPage strip.left }
    ensures { OnOk result (out.new.items ≡ out.old.items ++ shape_text (spec.step_drawn strip step next)) }
{
    let mut words = ArrayString::new();
    put_step_words(strip, step.value, &mut words);
    match next {
        None => put_lines(&[upright(strip, step, strip.bottom)], words.as_bytes(), out),
        Some(next) => put_lines(
            &[
                upright(strip, step, top_of(next.row)),
                across(strip, step, next),
            ],
            words.as_bytes(),
            out,
        ),
    }
}

/// A text in letters of 12 pixels.
fn label_at(x: u64, y: u64, colour: Colour) -> Label
    ensures { result ≡ spec.label_at x y colour }
{
    Label {
        x,
        y,
        size: 12,
        colour,
        is_centred: false,
    }
}

/// Adds the value of a step, in its row.
fn put_step_value(strip: Strip, step: Step, out: &mut Vec<u8>) -> Result<(), AllocError>
    requires { IsOnPage strip.left }
    ensures { OnOk result (out.new.items ≡ out.old.items ++ shape_text (spec.step_said strip step)) }
{
    let mut words = ArrayString::new();
    put_value(step.value, &mut words);
    let label = label_at(strip.left + 30, text_line(step.row), Colour::Black);
    put_label(&label, words.as_bytes(), out)
}

/// Adds a step.
#[tactic(auto, unfolding(svg_text::specs::Shapes::shapes_text))]
fn put_step(
    strip: Strip,
    step: Step,
    next: Option<Step>,
    out: &mut Vec<u8>,
) -> Result<(), AllocError>
    requires { IsOnPage strip.left }
    ensures { OnOk result (out.new.items ≡ out.old.items ++ shapes_text (spec.step_shapes strip step next)) }
{
    put_step_lines(strip, step, next, out)?;
    put_step_value(strip, step, out)
}

/// The step at a place, if there is one.
fn step_at(steps: &[Step], place: usize) -> Option<Step>
    ensures { result ≡ spec.first_of (drop place steps.now) }
{
    match steps.get(place) {
        Some(step) => Some(*step),
        None => None,
    }
}

/// Adds the steps.
pub(crate) fn put_steps(strip: Strip, steps: &[Step], out: &mut Vec<u8>) -> Result<(), AllocError>
    requires { IsOnPage strip.left }
    ensures { OnOk result (out.new.items ≡ out.old.items ++ shapes_text (spec.steps_shapes strip steps.now)) }
{
    for place in 0..steps.len() {
        put_step(strip, steps[place], step_at(steps, place + 1), out)?;
    }
    Ok(())
}

/// Adds the name of a strip's lane.
fn put_lane_name(strip: Strip, y: u64, colour: Colour, out: &mut Vec<u8>) -> Result<(), AllocError>
    ensures { OnOk result (out.new.items ≡ out.old.items ++ shape_text (spec.lane_named strip y colour)) }
{
    let mut words = ArrayString::new();
    put_lane(strip.lane, &mut words);
    put_label(&label_at(strip.left, y, colour), words.as_bytes(), out)
}

/// Adds the name of a strip's level.
fn put_level_name(strip: Strip, y: u64, colour: Colour, out: &mut Vec<u8>) -> Result<(), AllocError>
    ensures { OnOk result (out.new.items ≡ out.old.items ++ shape_text (spec.level_named strip y colour)) }
{
    let words = level_name(strip.level);
    put_label(&label_at(strip.left, y, colour), words.as_bytes(), out)
}

/// Adds the greatest value of a strip.
fn put_greatest(strip: Strip, out: &mut Vec<u8>) -> Result<(), AllocError>
    ensures { OnOk result (out.new.items ≡ out.old.items ++ shape_text (spec.greatest_said strip)) }
{
    let mut words = ArrayString::new();
    words.push_str("max ");
    write_decimal(strip.greatest, &mut words);
    let label = label_at(strip.left, 90, Colour::Grey);
    put_label(&label, words.as_bytes(), out)
}

/// Adds a strip's line of 0, with its title.
fn put_axis(strip: Strip, out: &mut Vec<u8>) -> Result<(), AllocError>
    ensures { OnOk result (out.new.items ≡ out.old.items ++ shape_text (spec.axis_drawn strip)) }
{
    let mut words = ArrayString::new();
    put_strip_words(strip, &mut words);
    put_lines(&[axis(strip)], words.as_bytes(), out)
}

/// Adds what stands above a step line, and its line of 0.
#[tactic(auto, unfolding(svg_text::specs::Shapes::shapes_text))]
pub(crate) fn put_head(strip: Strip, out: &mut Vec<u8>) -> Result<(), AllocError>
    ensures { OnOk result (out.new.items ≡ out.old.items ++ shapes_text (spec.head strip)) }
{
    put_lane_name(strip, 68, Colour::Black, out)?;
    put_level_name(strip, 79, Colour::Black, out)?;
    put_greatest(strip, out)?;
    put_axis(strip, out)
}

/// Adds white below the names in the stripe that ends at y.
fn put_plate(strip: Strip, y: u64, out: &mut Vec<u8>) -> Result<(), AllocError>
    requires left { IsOnPage strip.left }
    requires y { IsOnPage y }
    ensures { OnOk result (out.new.items ≡ out.old.items ++ shape_text (spec.plate strip y)) }
{
    let block = Block {
        left: strip.left.saturating_sub(2),
        top: y.saturating_sub(20),
        right: strip.left + 60,
        bottom: y,
        fill: Colour::White,
        edge: Colour::White,
        thickness: 0,
        is_open: false,
    };
    put_block(&block, level_name(strip.level).as_bytes(), out)
}

/// Adds the names in the stripe that ends at y.
#[tactic(auto, unfolding(svg_text::specs::Shapes::shapes_text))]
fn put_names(strip: Strip, y: u64, out: &mut Vec<u8>) -> Result<(), AllocError>
    requires left { IsOnPage strip.left }
    requires y { IsOnPage y }
    ensures { OnOk result (out.new.items ≡ out.old.items ++ shapes_text (spec.names strip y)) }
{
    put_plate(strip, y, out)?;
    put_lane_name(strip, y.saturating_sub(11), Colour::Grey, out)?;
    put_level_name(strip, y.saturating_sub(1), Colour::Grey, out)
}

/// Adds the names in the stripe of this number, from 0.
fn put_stripe(strip: Strip, stripe: u16, out: &mut Vec<u8>) -> Result<(), AllocError>
    requires left { IsOnPage strip.left }
    requires stripe { stripe < 1000 }
    ensures { OnOk result (out.new.items ≡ out.old.items ++ shapes_text (spec.stripe strip stripe)) }
{
    put_names(strip, top_of(40 * (stripe + 1)), out)
}

/// Adds the names again in so many stripes.
pub(crate) fn put_stripes(strip: Strip, count: u16, out: &mut Vec<u8>) -> Result<(), AllocError>
    requires left { IsOnPage strip.left }
    requires count { AreRows count }
    ensures { OnOk result (out.new.items ≡ out.old.items ++ shapes_text (spec.stripes strip count)) }
{
    for stripe in 0..count {
        put_stripe(strip, stripe, out)?;
    }
    Ok(())
}
