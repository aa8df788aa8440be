//! What is known of a log before the search begins.
ghost use Rattle.std.specs.Prelude.{◌≡◌, IfOk, OnOk};
ghost use Rattle.search_forced.specs.Catalogs.{IsCatalog};

use crate::hints::note_calm;
use crate::sketches::{Sketch, sketches_of};
use log_runs::Log;
use search_choices::{Hints, Links, Turn};
use search_others::Others;
use std::alloc::{AllocError, Global};

/// Which way a search goes.
#[derive(Clone, Copy)]
pub enum Way<'a> {
    /// Through a part of a log. Posted writes over what nobody needs act as soon as they may, so that the
    /// run is a good guide to the whole.
    Part,
    /// Through a whole log. These say when requests act in runs through its parts.
    Whole(&'a [Turn]),
    /// The same, where requests that are idle are tried, too.
    Open(&'a [Turn]),
}

/// What is known of a log's requests, and which way it is searched.
#[derive(Drop)]
pub struct Catalog<'a> {
    pub(crate) others: Others,
    sketches: Vec<Sketch>,
    pub(crate) way: Way<'a>,
    /// Which requests may be alike, once that is noted.
    pub(crate) links: Links,
    /// It is noted from where on nobody needs what a request leaves.
    calm: bool,
}

/// What is known of the log. A whole log without a choice needn't know from where on nobody needs what a
/// request leaves.
pub fn catalog_of<'a>(alloc: Global, log: &Log, way: Way<'a>) -> Result<Catalog<'a>, AllocError>
    ensures { IfOk result (IsCatalog log.now) }
{
    let others = Others::of(alloc, log)?;
    let mut sketches = sketches_of(alloc, log)?;
    if matches!(way, Way::Open(_)) {
        others.end_looks();
    }
    let calm = matches!(way, Way::Part);
    if calm {
        note_calm(&mut sketches, log, others.words());
    }
    Ok(Catalog {
        others,
        sketches,
        way,
        links: Links::none(alloc),
        calm,
    })
}

impl Catalog<'_> {
    /// What is looked at often of the request.
    pub(crate) fn sketch(&self, request: usize) -> Option<Sketch> {
        self.sketches.get(request).copied()
    }

    /// The request changes nothing, as it seems.
    pub(crate) fn is_quiet(&self, request: usize) -> bool {
        self.sketch(request).is_some_and(|sketch| sketch.is_quiet())
    }

    /// What is known of the log's requests.
    pub fn others(&self) -> &Others
        ensures { result.now ≡ self.now.others }
    {
        &self.others
    }

    /// When requests act in runs through the log's parts, and which may be alike.
    pub fn hints(&self) -> Hints<'_> {
        let turns: &[Turn] = match self.way {
            Way::Part => &[],
            Way::Whole(turns) | Way::Open(turns) => turns,
        };
        Hints {
            turns,
            links: &self.links,
        }
    }

    /// Notes which requests may be alike.
    pub fn note_alike(&mut self, alloc: Global, log: &Log) -> Result<(), AllocError>
        requires { IsCatalog log.now self.old }
        ensures { OnOk result (IsCatalog log.now self.new) }
    {
        self.links = Links::of(alloc, log, &self.others)?;
        Ok(())
    }

    /// Notes from where on nobody needs what a request leaves, if that isn't noted.
    pub fn note_calm(&mut self, log: &Log)
        requires { IsCatalog log.now self.old }
        ensures { IsCatalog log.now self.new }
    {
        if !self.calm {
            note_calm(&mut self.sketches, log, self.others.words());
            self.calm = true;
        }
    }
}
