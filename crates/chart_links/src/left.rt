//! What is still on the wires at the end.
ghost use Rattle.std.specs.Prelude.{◌≡◌, ◌++◌, OnOk};
ghost use Rattle.chart_links.specs.ChartView as spec;

use crate::course::Course;
use crate::lanes::lane_at;
use chart_rows::{DllpSent, Flying, Open, PacketSent};
use fabric_core::LaneName;
use std::alloc::AllocError;
use std::collections::VecDeque;

/// Adds what was sent in a row, if that is shown.
fn add_opened(
    lane: LaneName,
    what: Flying,
    row: Option<u16>,
    opens: &mut Vec<Open>,
) -> Result<(), AllocError>
    ensures { OnOk result (opens.new.items ≡ opens.old.items ++ spec.opened_at lane what row) }
{
    if let Some(row) = row {
        opens.push(Open { lane, what, row })?;
    }
    Ok(())
}

/// Adds a packet, if its sending is shown.
pub(crate) fn add_packet(
    lane: LaneName,
    sent: &PacketSent,
    opens: &mut Vec<Open>,
) -> Result<(), AllocError>
    ensures { OnOk result (opens.new.items ≡ opens.old.items ++ spec.opened_packet lane sent.now) }
{
    let what = Flying::Packet(sent.number, sent.carried);
    add_opened(lane, what, sent.row, opens)
}

/// Adds a DLLP, if its sending is shown.
pub(crate) fn add_dllp(
    lane: LaneName,
    sent: &DllpSent,
    opens: &mut Vec<Open>,
) -> Result<(), AllocError>
    ensures { OnOk result (opens.new.items ≡ opens.old.items ++ spec.opened_dllp lane sent.now) }
{
    add_opened(lane, Flying::Dllp(sent.dllp), sent.row, opens)
}

/// Adds what is still on the wire of a lane.
fn add_wire(
    lane: LaneName,
    wire: &VecDeque<PacketSent>,
    opens: &mut Vec<Open>,
) -> Result<(), AllocError>
    ensures { OnOk result (opens.new.items ≡ opens.old.items ++ spec.left_of_wire lane wire.now.items) }
{
    for place in 0..wire.len() {
        if let Some(sent) = wire.get(place) {
            add_packet(lane, sent, opens)?;
        }
    }
    Ok(())
}

/// Adds what is still on the wire back of a lane.
fn add_back(
    lane: LaneName,
    back: &VecDeque<DllpSent>,
    opens: &mut Vec<Open>,
) -> Result<(), AllocError>
    ensures { OnOk result (opens.new.items ≡ opens.old.items ++ spec.left_of_back lane back.now.items) }
{
    for place in 0..back.len() {
        if let Some(sent) = back.get(place) {
            add_dllp(lane, sent, opens)?;
        }
    }
    Ok(())
}

/// Adds what is still on both wires of a lane.
fn add_both(lane: LaneName, course: &Course, opens: &mut Vec<Open>) -> Result<(), AllocError>
    ensures { OnOk result (opens.new.items ≡ opens.old.items ++ spec.left_of lane course.now) }
{
    add_wire(lane, course.wire(), opens)?;
    add_back(lane, course.back(), opens)
}

/// Adds what is still on the wires.
pub(crate) fn add_left(courses: &[Course], opens: &mut Vec<Open>) -> Result<(), AllocError>
    ensures { OnOk result (opens.new.items ≡ opens.old.items ++ spec.left 0 courses.now) }
{
    for place in 0..courses.len() {
        add_both(lane_at(place), &courses[place], opens)?;
    }
    Ok(())
}
