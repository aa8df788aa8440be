//! The name of a fault of a packet.
use std::alloc::Global;
use tlp_core::TlpFault;

/// Whether the fault has its number and its name, and is told so.
fn is_told(alloc: Global, fault: TlpFault) -> bool {
    let named = fault.number() == 9 && fault.name() == "LengthMismatch";
    match format!(in alloc; "{fault}") {
        Ok(text) => named && text.as_str() == "LengthMismatch",
        Err(_) => false,
    }
}

#[test]
fn names_and_numbers(rt: HostRuntime) {
    assert!(rt; is_told(rt.alloc(), TlpFault::LengthMismatch));
}
