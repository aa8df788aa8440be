//! How far a run is, told while it goes on.
ghost use Rattle.parameters.specs.Ranges.{IsCounting};
ghost use Rattle.run_engine.specs.Text.{IsOutput};

use crate::text::output;
use arrayvec::ArrayString;
use parameters::Counting;
use std::alloc::Global;
use std::io::Write;
use std::sync::Wait;
use std::sync::atomic::{AtomicU64, Ordering};
use std::thread;
use std::thread::Threads;
use std::time::{Clock, Duration};

/// How long it is to the first line, in milliseconds. From line to line it is twice as long as before, and no longer than
/// the longest.
const FIRST_PAUSE: u64 = 2000;

const LONGEST_PAUSE: u64 = 16_000;

/// How it is told how far a run is.
#[derive(Clone, Copy, PartialEq)]
pub enum Progress {
    Hidden,
    /// In lines, for a file.
    Lines,
    /// In one line that is written anew each time, for a terminal.
    OneLine,
}

/// How it is told how many of these answers were given.
#[derive(Clone, Copy)]
struct Telling {
    progress: Progress,
    all: u64,
}

impl Telling {
    /// Tells that so many were given.
    fn tell<E: Write>(self, given: u64, errors: &mut E) {
        let all = self.all;
        let _ = match self.progress {
            Progress::Hidden => Ok(()),
            Progress::Lines => writeln!(errors, "{given} of {all}"),
            Progress::OneLine => write!(errors, "\r{given} of {all}"),
        };
    }

    /// Ends the line that was written anew.
    fn end<E: Write>(self, errors: &mut E) {
        if self.progress == Progress::OneLine {
            let _ = writeln!(errors);
        }
    }
}

/// Tells how far a run is, until it is over.
fn tell<R: Wait, E: Write>(
    rt: &R,
    answered: &AtomicU64,
    over: &AtomicU64,
    telling: Telling,
    errors: &mut E,
) {
    let mut pause = FIRST_PAUSE;
    for _ in rt.forever() {
        over.park_timeout(rt, 0, Duration::from_millis(pause));
        if over.load(Ordering::SeqCst) != 0 {
            break;
        }
        let given = answered.load(Ordering::SeqCst);
        telling.tell(given, errors);
        pause = pause.saturating_mul(2).min(LONGEST_PAUSE);
    }
    if pause > FIRST_PAUSE {
        telling.end(errors);
    }
}

/// The text and the exit status of a counting; then the run is over.
fn counted<R: Threads + Wait + Sync + Clock>(
    rt: &R,
    alloc: Global,
    counting: &Counting,
    answered: &AtomicU64,
    over: &AtomicU64,
) -> (ArrayString<512>, u8)
    requires { IsCounting counting.now }
    ensures { IsOutput counting.now result.0.bytes result.1 }
{
    let done = output(rt, alloc, counting, answered);
    over.store(1, Ordering::SeqCst);
    over.wake_all();
    done
}

/// The text and the exit status of a counting of which is told how far it is. Where no thread can be had
/// for that, nothing is told.
pub(crate) fn watched<R: Threads + Wait + Sync + Clock, E: Write + Send>(
    rt: &R,
    alloc: Global,
    counting: &Counting,
    progress: Progress,
    errors: &mut E,
) -> (ArrayString<512>, u8)
    requires { IsCounting counting.now }
    ensures { IsOutput counting.now result.0.bytes result.1 }
{
    let answered = AtomicU64::new(0);
    let over = AtomicU64::new(0);
    let telling = Telling {
        progress,
        all: counting.each.saturating_mul(counting.requesters),
    };
    let ((), done) = thread::join(
        rt,
        || tell(rt, &answered, &over, telling, errors),
        || -> (ArrayString<512>, u8)
            requires { IsCounting counting.now }
            ensures { IsOutput counting.entry.now result.0.bytes result.1 }
        { counted(rt, alloc, counting, &answered, &over) },
    );
    done
}
