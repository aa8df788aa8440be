//! Laws of what is recorded of a memory device.
//!
//! A [`Log`](endpoint_log::Log) is told of each call of an [`Endpoint`](endpoint_core::Endpoint). The laws say what its trace
//! and its history are then, over any list of calls.
#![tactic(auto)]

pub mod laws;
