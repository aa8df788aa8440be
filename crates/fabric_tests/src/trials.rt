//! What is tried on new fabrics.
use fabric_core::{Config, ConfigFault, Fabric};
use fabric_rows::drive::made;
use std::alloc::Global;

/// What is tried on a new fabric.
pub(super) trait Trial {
    /// The configuration of the fabric.
    fn config(&self) -> Config;

    /// Whether the fabric does as it should.
    fn is_right(&self, fabric: &mut Fabric, alloc: Global) -> bool;
}

/// Whether a new fabric does as it should. All trials share this function, so that no other drops a fabric.
pub(super) fn on_new<T: Trial>(trial: &T, alloc: Global) -> Result<bool, ConfigFault> {
    match made(trial.config(), alloc) {
        Ok(mut fabric) => Ok(trial.is_right(&mut fabric, alloc)),
        Err(fault) => Err(fault),
    }
}

/// The same, the fabric being made again where there was no memory for it.
pub(super) fn on_new_again<T: Trial>(trial: &T, alloc: Global) -> bool {
    match on_new(trial, alloc) {
        Err(ConfigFault::Memory) => on_new(trial, alloc) == Ok(true),
        first => first == Ok(true),
    }
}

/// Whether a new fabric does as it should in each trial.
pub(super) fn all_right<T: Trial>(trials: &[T], alloc: Global) -> bool {
    for trial in trials {
        if !on_new_again(trial, alloc) {
            return false;
        }
    }
    true
}
