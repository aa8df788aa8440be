//! The answer to the text of a log.
ghost use Rattle.std.specs.Prelude.{◌≡◌, ◌⊎◌, ℕ, List, Some, None, Ok, Err, IsOk, IsErr, length, if◌then◌else◌, nat_lt};
ghost use Rattle.log_pieces.specs.declared.Granularity as granularities;
ghost use Rattle.search_engine.specs.Findings.{text_of};
ghost use Rattle.search_engine.specs.Search.{WantsMemory};
ghost use Rattle.c_buffer.specs.declared.outcome.Failure.TheVariants.{SmallBuffer, NoMemory, WrongGranularity};
ghost use Rattle.c_buffer.specs.Buffer.{copied, cut};
ghost use Rattle.c_check.specs.SearchVerdict.{IsSearched, IsSearchedIn, granularity_of};

use c_buffer::{Failure, copy, copy_first};
use log_pieces::Granularity;
use search_engine::{DEFAULT_WORK, Outcome, SearchOptions, Stages, answer_of, answer_with_reasons};
use std::alloc::Global;

/// Puts the text to the front of the buffer, and returns the status.
fn put(outcome: &Outcome, buffer: &mut [u8]) -> Result<u8, Failure>
    ensures status { result ≡ (if nat_lt (length buffer.old) (length (text_of outcome.now.text)) then Err SmallBuffer else Ok outcome.now.status) }
    ensures buffer { buffer.new ≡ (copied buffer.old (text_of outcome.now.text)).buffer }
    ensures unchanged { IsErr result → buffer.new ≡ buffer.old }
    ensures other { ¬ (result ≡ Err NoMemory) }
{
    match copy(outcome.text.as_slice(), buffer) {
        Ok(()) => Ok(outcome.status),
        Err(failure) => Err(failure),
    }
}

/// Looks for a history that explains the log of the text, or the trace, whose history says nothing: what
/// `pciex search` prints of it stands at the front of `buffer`, `size` is how many bytes it has, and Ok is
/// the exit status: 0 for a trace, 1 for `none`, `flaw` or `fault`, 3 for `limit`, where it looked at `limit`
/// choices, or `work`, where before that it did the work that `pciex search` does by default: it does no more.
/// `SmallBuffer` for fewer bytes: `size` is how many are needed. `NoMemory`, where nothing is known and `size`
/// stays as it was: never for a text whose first fault comes before its records and entries. With these two the
/// buffer stays as it was.
pub fn search_text(
    alloc: Global,
    text: &[u8],
    limit: u64,
    buffer: &mut [u8],
    size: &mut usize,
) -> Result<u8, Failure>
    ensures answered { ¬ (result ≡ Err NoMemory) → IsSearched limit text.now buffer.old buffer.new size.new result }
    ensures no_memory { result ≡ Err NoMemory → WantsMemory text.now }
    ensures unchanged_size { result ≡ Err NoMemory → size.new ≡ size.old }
    ensures unchanged { IsErr result → buffer.new ≡ buffer.old }
{
    match answer_of(alloc, text, limit, DEFAULT_WORK) {
        Ok(outcome) => {
            *size = outcome.text.as_slice().len();
            put(&outcome, buffer)
        }
        Err(_) => Err(Failure::NoMemory),
    }
}

/// The size of pieces by its number of bytes, 0 for whole requests.
fn granularity_of(bytes: u32) -> Option<Granularity>
    ensures { result ≡ granularity_of bytes }
{
    match bytes {
        0 => Some(Granularity::Whole),
        4 => Some(Granularity::Four),
        8 => Some(Granularity::Eight),
        16 => Some(Granularity::Sixteen),
        64 => Some(Granularity::SixtyFour),
        _ => None,
    }
}

/// Puts the first reasons to the front of the buffer, as many bytes as it has, if the answer was put into its own.
fn put_reasons(reasons: &[u8], is_put: bool, buffer: &mut [u8])
    ensures { buffer.new ≡ (if is_put then cut buffer.old reasons.now else buffer.old) }
{
    if is_put {
        copy_first(reasons, buffer);
    }
}

/// A text whose history is looked for, and how.
#[derive(Clone, Copy)]
pub struct Question<'a> {
    pub text: &'a [u8],
    /// The most choices that are looked at.
    pub limit: u64,
    /// How many bytes of a read or a write act at once, 4, 8, 16 or 64; 0 for all.
    pub bytes: u32,
}

/// How many bytes an answer and its reasons have.
#[derive(Clone, Copy)]
pub struct Sizes {
    pub answer: usize,
    pub reasons: usize,
}

/// Does what [`search_text`] does, for a history of pieces of the bytes that are asked for, or of whole requests. The lines
/// that `pciex search` prints on standard error stand at the front of `reasons`, as many of their bytes as it has, and
/// `sizes` has how many they have. There are none for what is found, and fewer if there is no memory for them.
/// `WrongGranularity` for another number of bytes is tested first. With an error both buffers stay as they were; with
/// `SmallBuffer` both sizes are known.
pub fn search_with_reasons(
    alloc: Global,
    question: Question<'_>,
    buffer: &mut [u8],
    reasons: &mut [u8],
    sizes: &mut Sizes,
) -> Result<u8, Failure>
    ensures wrong { granularity_of question.entry.bytes ≡ None → result ≡ Err WrongGranularity }
    ensures answered { ¬ (result ≡ Err NoMemory) → (g : granularities.Granularity) → granularity_of question.entry.bytes ≡ Some g →
        IsSearchedIn g question.entry.limit question.entry.text.now buffer.old buffer.new sizes.new.answer result }
    ensures reasons { IsOk result → (lines : List ℕ) × (sizes.new.reasons ≡ length lines) × (reasons.new ≡ cut reasons.old lines) }
    ensures no_memory { result ≡ Err NoMemory → WantsMemory question.entry.text.now }
    ensures unchanged_sizes { (result ≡ Err NoMemory) ⊎ (result ≡ Err WrongGranularity) → sizes.new ≡ sizes.old }
    ensures unchanged { IsErr result → (buffer.new ≡ buffer.old) × (reasons.new ≡ reasons.old) }
{
    let Question { text, limit, bytes } = question;
    let Some(granularity) = granularity_of(bytes) else {
        return Err(Failure::WrongGranularity);
    };
    let options = SearchOptions {
        limit,
        granularity,
        stages: Stages::Hidden,
    };
    let mut lines = Vec::new(alloc);
    match answer_with_reasons(alloc, text, options, DEFAULT_WORK, &mut lines) {
        Ok(outcome) => {
            *sizes = Sizes {
                answer: outcome.text.as_slice().len(),
                reasons: lines.len(),
            };
            let status = put(&outcome, buffer);
            put_reasons(lines.as_slice(), status.is_ok(), reasons);
            status
        }
        Err(_) => Err(Failure::NoMemory),
    }
}
