//! An endpoint behind its link, and what is recorded of it.
use endpoint_log::Recording;
use linked_endpoint::LinkedEndpoint;
use std::marker::Model;

/// An endpoint behind its link, and what is recorded of it.
#[derive(Drop)]
pub struct Session {
    pub(crate) linked: LinkedEndpoint,
    pub(crate) recording: Recording,
}

impl Model for Session {
    ghost use Rattle.c_linked.specs.SessionView.{SessionView};

    ghost Value = { SessionView };

    ghost view = { λ s. record { linked = s.linked; recording = s.recording } };
}
