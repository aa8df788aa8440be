//! An endpoint and what is recorded of it.
use endpoint_core::Endpoint;
use endpoint_log::Recording;
use std::marker::Model;

/// An endpoint, and what is recorded of it.
#[derive(Drop)]
pub struct Session {
    pub(crate) endpoint: Endpoint,
    pub(crate) recording: Recording,
}

impl Model for Session {
    ghost use Rattle.c_endpoint.specs.SessionView.{SessionView};

    ghost Value = { SessionView };

    ghost view = { λ s. record { endpoint = s.endpoint; recording = s.recording } };
}
