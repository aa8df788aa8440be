//! A fabric and its trace.
use crate::witness::SessionWitness;
use fabric_core::Fabric;
use history_words::Record;
use std::marker::Model;

/// A fabric, the records of its trace where it keeps one, what the last settlement collected, and the text of the trace
/// and the history where a buffer was too small for it.
#[derive(Drop)]
pub struct Session {
    pub(crate) fabric: Fabric,
    pub(crate) is_traced: bool,
    pub(crate) witness: SessionWitness,
    pub(crate) collected: Vec<Record>,
    pub(crate) text: Option<String>,
}

impl Model for Session {
    ghost use Rattle.std.specs.Prelude.{option_map, string_bytes};
    ghost use Rattle.c_fabric.specs.SessionView.{SessionView, IsKept, IsTextOf};

    ghost Value = { SessionView };

    ghost view = { λ s. record { fabric = s.fabric; is_traced = s.is_traced; records = s.witness.records.items; collected = s.collected.items } };

    ghost invariant = { λ s. IsKept s.fabric s.is_traced s.witness.records.items × IsTextOf (option_map string_bytes s.text) s.fabric s.witness.records.items };
}
