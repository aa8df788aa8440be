//! The limits of credits that a lane's sender knows.
ghost use Rattle.std.specs.Prelude.{◌≡◌};
ghost use Rattle.chart_links.specs.CourseView as spec;
ghost use Rattle.chart_links.specs.News as news;

use dllp_core::Class;

/// What an update tells: all credits that were given so far, of headers modulo 256, of data units modulo 4096.
#[derive(Clone, Copy)]
pub(crate) struct Limit {
    pub(crate) headers: u8,
    pub(crate) units: u16,
}

/// What the last update of each class told, if one arrived.
#[derive(Clone, Copy)]
pub(crate) struct Limits {
    posted: Option<Limit>,
    non_posted: Option<Limit>,
    completion: Option<Limit>,
}

impl Limits {
    /// No update has arrived.
    pub(crate) const NONE: Limits = Limits {
        posted: None,
        non_posted: None,
        completion: None,
    };
}

/// The limit of a class.
pub(crate) fn limit_of(limits: Limits, class: Class) -> Option<Limit>
    ensures { result ≡ spec.limit_of limits class }
{
    match class {
        Class::Posted => limits.posted,
        Class::NonPosted => limits.non_posted,
        Class::Completion => limits.completion,
    }
}

/// The limits after an update of a class.
pub(crate) fn with_limit(limits: Limits, class: Class, now: Limit) -> Limits
    ensures { result ≡ spec.with_limit limits class now }
{
    match class {
        Class::Posted => Limits {
            posted: Some(now),
            ..limits
        },
        Class::NonPosted => Limits {
            non_posted: Some(now),
            ..limits
        },
        Class::Completion => Limits {
            completion: Some(now),
            ..limits
        },
    }
}

/// Whether a sender knows a limit: it was told the same, or it was told none and no packet has left the queue.
pub(crate) fn is_known(last: Option<Limit>, has_taken: bool, now: Limit) -> bool
    ensures { result ≡ news.is_known last has_taken now }
{
    match last {
        None => !has_taken,
        Some(last) => last.headers == now.headers && last.units == now.units,
    }
}
