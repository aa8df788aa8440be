//! The lines of answers.
ghost use Rattle.std.specs.Prelude.{◌≡◌, ◌++◌, ◌∷◌, []};
ghost use Rattle.flaw_places.specs.Places.{flaw_line};
ghost use Rattle.record_text.specs.Names.{fault_line};
ghost use Rattle.search_engine.specs.Bounded.{limit_line, work_line, bound_line};
ghost use Rattle.search_engine.specs.Search.{none_line};

use arrayvec::ArrayString;
use flaw_places::write_flaw;
use history_words::Flaw;
use operation_text::write_decimal;
use record_text::{ReadFault, write_fault};
use search_history::{Bound, Bounds};

/// That no history explains the records up to this place.
pub(crate) fn none_text(place: usize) -> ArrayString<512>
    ensures { result.bytes ≡ none_line place ++ 10 ∷ [] }
{
    let mut text = ArrayString::new();
    text.push_str("none ");
    write_decimal(place as u64, &mut text);
    text.push_str("\n");
    text
}

/// That the search was given up after so many choices, its limit.
fn limit_text(limit: u64) -> ArrayString<512>
    ensures { result.bytes ≡ limit_line limit ++ 10 ∷ [] }
{
    let mut text = ArrayString::new();
    text.push_str("limit ");
    write_decimal(limit, &mut text);
    text.push_str("\n");
    text
}

/// That the search was given up after so much work.
fn work_text(work: u64) -> ArrayString<512>
    ensures { result.bytes ≡ work_line work ++ 10 ∷ [] }
{
    let mut text = ArrayString::new();
    text.push_str("work ");
    write_decimal(work, &mut text);
    text.push_str("\n");
    text
}

/// Which of the bounds ended the search.
pub(crate) fn bound_text(bounds: Bounds, bound: Bound) -> ArrayString<512>
    ensures { result.bytes ≡ bound_line bounds bound ++ 10 ∷ [] }
{
    match bound {
        Bound::Choices => limit_text(bounds.choices),
        Bound::Work => work_text(bounds.work),
    }
}

/// That the form of the log is wrong.
pub(crate) fn flaw_text(flaw: Flaw) -> ArrayString<512>
    ensures { result.bytes ≡ flaw_line flaw.kind flaw.place ++ 10 ∷ [] }
{
    let mut text = ArrayString::new();
    write_flaw(flaw, &mut text);
    text.push_str("\n");
    text
}

/// That the text can't be read.
pub(crate) fn fault_text(fault: ReadFault) -> ArrayString<512>
    ensures { result.bytes ≡ fault_line fault ++ 10 ∷ [] }
{
    let mut text = ArrayString::new();
    write_fault(fault, &mut text);
    text.push_str("\n");
    text
}
