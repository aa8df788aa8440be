//! The first records of a log.
ghost use Rattle.std.specs.Prelude.{◌≡◌, ◌≤◌, ◌<◌, [], length, take};

use trace_store::{RecordStore, Records};

/// The first records of a log.
#[derive(Clone, Copy)]
pub struct Prefix<'a> {
    pub seen: &'a RecordStore,
    pub count: usize,
}

/// The first records; none if there are fewer.
fn first<'a>(records: &Records<'a>, count: usize) -> Records<'a>
    ensures within { count ≤ length records.now → result ≡ take count records.now }
    ensures none { length records.now < count → result ≡ [] }
{
    if count <= records.len() {
        records.first(count)
    } else {
        records.first(0)
    }
}

impl<'a> Prefix<'a> {
    /// Its records; none if the log has fewer.
    pub fn records(self) -> Records<'a>
        ensures within { self.entry.count ≤ length self.entry.seen.now.records → result ≡ take self.entry.count self.entry.seen.now.records }
        ensures none { length self.entry.seen.now.records < self.entry.count → result ≡ [] }
    {
        first(&self.seen.records(), self.count)
    }
}
