//! A file's name among the words of a command line, in place of standard input.
ghost use Rattle.std.specs.Prelude.{◌≡◌, ◌≤◌, ◌<◌, ℕ, length, map, remove, slice_get, true, None, Some, IfSome, IfNone};
ghost use Rattle.clap.specs.Words.{kind_of, subcommand_of, takes};
ghost use Rattle.cli_words.specs.Faults.{RangeFault, WordsFault};
ghost use Rattle.cli_words.specs.Options.{the_app, Asks};
ghost use Rattle.cli_words.specs.declared.words.Request.{Request};

use crate::hints::is_unexpected_file;
use clap::error::ErrorKind;
use cli_words::{RequestFault, options};
use std::alloc::Global;
use std::convert::AsStr;

/// The subcommands that read standard input.
static READERS: [&str; 10] = [
    "tlp", "endpoint", "decode", "encode", "check", "search", "draw", "upgrade", "step", "chart",
];

/// Whether the words name a subcommand that reads standard input.
pub(crate) fn is_reader<S: AsStr>(words: &[S]) -> bool {
    words
        .get(1)
        .is_some_and(|word| READERS.contains(&word.as_str()))
}

/// Whether what is wrong with the words is a word that can only be a file's name.
pub(crate) fn has_file(fault: &RequestFault<'_>) -> bool
    ensures words { result ≡ true → WordsFault (λ e. kind_of e ≡ ErrorKind.UnknownArgument) fault.now }
    ensures others { result ≡ true → RangeFault ⊥ fault.now }
{
    match fault {
        RequestFault::Words(error) => is_unexpected_file(error),
        _ => false,
    }
}

/// Whether the words are refused for a word that can only be a file's name.
fn are_with_file<S: AsStr>(alloc: Global, words: &[S]) -> bool
    ensures { takes the_app (map S.text words.now) ≡ true → result ≡ true → ⊥ }
{
    match options(alloc, words) {
        Ok(_) => false,
        Err(fault) => has_file(&fault),
    }
}

/// The place of the first word that can only be a file's name: the words up to it are the fewest that are refused for
/// such a word.
fn file_place<S: AsStr>(alloc: Global, words: &[S]) -> Option<usize>
    ensures within { IfSome result (λ place. (2 ≤ place) × (place < length words.now)) }
    ensures taken { takes the_app (map S.text words.now) ≡ true → result ≡ None }
{
    if !is_reader(words) || !are_with_file(alloc, words) {
        return None;
    }
    for place in 2..words.len() {
        if are_with_file(alloc, &words[..place + 1]) {
            return Some(place);
        }
    }
    None
}

/// Takes the name of the file out of the words that their subcommand reads in place of standard input: that word is neither
/// an option nor the value of one. Wherever it stands behind the subcommand, the others stay in their order.
pub fn take_file<S: AsStr>(alloc: Global, words: &mut Vec<S>) -> Option<S>
    ensures some { IfSome result (λ name. (place : ℕ) × (2 ≤ place) × (slice_get words.old.items place ≡ Some name)
        × (words.new.items ≡ remove words.old.items place)) }
    ensures none { IfNone result (words.new.items ≡ words.old.items) }
    // Words that the parser takes keep their meaning.
    ensures taken { takes the_app (map S.text words.old.items) ≡ true → result ≡ None }
{
    let place = file_place(alloc, words.as_slice())?;
    Some(words.remove(place))
}

/// Whether the words ask for something.
pub fn is_request<S: AsStr>(alloc: Global, words: &[S]) -> bool
    ensures { result ≡ true → (request : Request) × Asks (subcommand_of the_app (map S.text words.now)) request }
{
    options(alloc, words).is_ok()
}
