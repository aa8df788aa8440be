//! What the rules look at, under one name.

use crate::catalog::Catalog;
use log_runs::Log;
use search_places::Place;

/// A log, and what is known of it.
#[derive(Clone, Copy)]
pub(crate) struct Known<'l> {
    pub(crate) log: &'l Log<'l>,
    pub(crate) catalog: &'l Catalog<'l>,
}

/// Where the search stands in a log, and what is known of the log.
#[derive(Clone, Copy)]
pub(crate) struct Scene<'p, 'l> {
    pub(crate) place: &'p Place,
    pub(crate) log: &'l Log<'l>,
    pub(crate) catalog: &'l Catalog<'l>,
}

/// A request at one of its words.
#[derive(Clone, Copy)]
pub(crate) struct AtWord {
    pub(crate) request: usize,
    pub(crate) word: u64,
}
