//! The names of faults and refusals.
ghost use Rattle.std.specs.Prelude.{◌≡◌, ◌≤◌, ◌+◌, ◌++◌};
ghost use Rattle.arrayvec.specs.ArrayString.{array_string_len};
ghost use Rattle.fabric_core.specs.Config.{fault_name};
ghost use Rattle.script_text.specs.Names.{submit_refusal_text, lane_refusal_text, refusal_text};

use arrayvec::ArrayString;
use dllp_core::Class;
use fabric_core::{ConfigFault, Refusal};
use lane_core::LaneRefusal;
use requester_core::SubmitRefusal;

/// Adds the name of the fault, at most 32 bytes.
pub fn write_config_fault(fault: &ConfigFault, out: &mut ArrayString<512>)
    requires { array_string_len out.old + 32 ≤ 512 }
    ensures text { out.new.bytes ≡ out.old.bytes ++ fault_name fault.now }
    ensures len { array_string_len out.new ≤ array_string_len out.old + 32 }
{
    out.push_str(fault.name());
}

/// Adds the name of a refusal to prepare a request.
fn put_submit_refusal(refusal: SubmitRefusal, out: &mut ArrayString<512>)
    requires { array_string_len out.old + 32 ≤ 512 }
    ensures text { out.new.bytes ≡ out.old.bytes ++ submit_refusal_text refusal }
    ensures len { array_string_len out.new ≤ array_string_len out.old + 32 }
{
    match refusal {
        SubmitRefusal::Profile(cause) => {
            out.push_str("Profile ");
            out.push_str(cause.name());
        }
        SubmitRefusal::TagsUsed => out.push_str("TagsUsed"),
        SubmitRefusal::NumbersUsed => out.push_str("NumbersUsed"),
    }
}

/// Adds the name of a lane's refusal.
fn put_lane_refusal(refusal: LaneRefusal, out: &mut ArrayString<512>)
    requires { array_string_len out.old + 32 ≤ 512 }
    ensures text { out.new.bytes ≡ out.old.bytes ++ lane_refusal_text refusal }
    ensures len { array_string_len out.new ≤ array_string_len out.old + 32 }
{
    out.push_str(match refusal {
        LaneRefusal::NoCredits(Class::Posted) => "NoCredits P",
        LaneRefusal::NoCredits(Class::NonPosted) => "NoCredits NP",
        LaneRefusal::NoCredits(Class::Completion) => "NoCredits Cpl",
        LaneRefusal::WindowFull => "WindowFull",
        LaneRefusal::Memory => "Memory",
    });
}

/// Adds the name of the refusal, at most 32 bytes, with the fault of the operation or the class of
/// the credits that are used up.
pub fn write_refusal(refusal: &Refusal, out: &mut ArrayString<512>)
    requires { array_string_len out.old + 32 ≤ 512 }
    ensures text { out.new.bytes ≡ out.old.bytes ++ refusal_text refusal.now }
    ensures len { array_string_len out.new ≤ array_string_len out.old + 32 }
{
    match refusal {
        Refusal::NoSuchPart => out.push_str("NoSuchPart"),
        Refusal::Idle => out.push_str("Idle"),
        Refusal::NotTakeable => out.push_str("NotTakeable"),
        Refusal::Submit(refusal) => put_submit_refusal(*refusal, out),
        Refusal::Lane(refusal) => put_lane_refusal(*refusal, out),
        Refusal::Memory => out.push_str("Memory"),
        Refusal::Protocol(_) => out.push_str("Protocol"),
        Refusal::Strange(_) => out.push_str("Strange"),
        Refusal::Route(_) => out.push_str("Route"),
    }
}
