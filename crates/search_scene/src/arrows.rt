//! Arrows between the requests of a cycle.
ghost use Rattle.std.specs.Prelude.{◌<◌, ◌≢◌, ℕ, All, IfOk, IfSome, OnOk, length};
ghost use Rattle.search_scene.specs.Scenes.{Joins};

use search_picture::Arrow;
use search_reasons::{Case, Edge, Link, Word, word_text};
use std::alloc::{AllocError, Global};

/// Words, and a word of the memory behind them.
fn words_with(alloc: Global, words: &[u8], word: &Word) -> Result<Vec<u8>, AllocError> {
    let mut out = Vec::new(alloc);
    out.extend_from_slice(words)?;
    let text = word_text(word);
    out.extend_from_slice(text.as_bytes())?;
    Ok(out)
}

/// Words alone.
fn only_words(alloc: Global, words: &[u8]) -> Result<Vec<u8>, AllocError> {
    let mut out = Vec::new(alloc);
    out.extend_from_slice(words)?;
    Ok(out)
}

/// Why a request acts after the one that an arrow comes from.
fn why_of(alloc: Global, edge: &Edge) -> Result<Vec<u8>, AllocError> {
    match edge {
        Edge::Overwritten(word, _) => words_with(alloc, b"overwrites ", word),
        Edge::Shown(word) => words_with(alloc, b"shows ", word),
        Edge::Posted => only_words(alloc, b"behind a posted write"),
        Edge::Answered => only_words(alloc, b"submitted after that answer"),
    }
}

/// The bar of the request that was submitted at the place.
fn bar_at(case: Case<'_>, submissions: &[usize], place: usize) -> Option<usize>
    ensures { IfSome result (λ k. k < length submissions.now) }
{
    let record = case.record_with(place);
    for at in 0..submissions.len() {
        if submissions[at] == record {
            return Some(at);
        }
    }
    None
}

/// An arrow leads to the bar.
fn is_reached(arrows: &[Arrow], bar: usize) -> bool {
    for arrow in arrows {
        if arrow.to == bar {
            return true;
        }
    }
    false
}

/// The ends of an arrow from a request to the next one, if both are shown.
fn ends_of(
    case: Case<'_>,
    submissions: &[usize],
    link: &Link,
    next: &Link,
) -> Option<(usize, usize)>
    ensures { IfSome result (λ e. (e.0 < length submissions.now) × (e.1 < length submissions.now) × (e.0 ≢ e.1)) }
{
    let from = bar_at(case, submissions, link.submission)?;
    let to = bar_at(case, submissions, next.submission)?;
    if from == to {
        return None;
    }
    Some((from, to))
}

/// An arrow from a request to the next one, if both are shown.
fn arrow_of(
    alloc: Global,
    case: Case<'_>,
    submissions: &[usize],
    link: &Link,
    next: &Link,
) -> Result<Option<Arrow>, AllocError>
    ensures { IfOk result (λ o. IfSome o (Joins (length submissions.now))) }
{
    let Some((from, to)) = ends_of(case, submissions, link, next) else {
        return Ok(None);
    };
    let why = why_of(alloc, &link.edge)?;
    Ok(Some(Arrow { from, to, why }))
}

/// Adds an arrow, if there is one and none leads to its bar.
fn add(arrows: &mut Vec<Arrow>, arrow: Option<Arrow>) -> Result<(), AllocError>
    ensures { (count : ℕ) → All (Joins count) arrows.old.items → IfSome arrow (Joins count) → OnOk result (All (Joins count) arrows.new.items) }
{
    let Some(arrow) = arrow else {
        return Ok(());
    };
    if is_reached(arrows, arrow.to) {
        return Ok(());
    }
    arrows.push(arrow)?;
    Ok(())
}

/// The arrows of a cycle, each of whose requests acts before the next one, and the last one before the first. No two of them
/// lead to one bar.
pub(crate) fn arrows_of(
    alloc: Global,
    case: Case<'_>,
    cycle: &[Link],
    submissions: &[usize],
) -> Result<Vec<Arrow>, AllocError>
    ensures { IfOk result (λ v. All (Joins (length submissions.now)) v.items) }
{
    let mut arrows = Vec::new(alloc);
    let Some(first) = cycle.first() else {
        return Ok(arrows);
    };
    for at in 0..cycle.len() {
        let next = cycle.get(at.saturating_add(1)).unwrap_or(first);
        let arrow = arrow_of(alloc, case, submissions, &cycle[at], next)?;
        add(&mut arrows, arrow)?;
    }
    Ok(arrows)
}
