//! Memories and who asks them: growth that is refused, flaws of traces, a store's owned form, a request with its
//! completion. More rows of them are in `plain/tests`.
#![tactic(auto)]

#[cfg(test)]
mod completers;
#[cfg(test)]
mod memories;
#[cfg(test)]
mod stores;
#[cfg(test)]
mod traces;
