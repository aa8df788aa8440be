//! Which requests are shown.
ghost use Rattle.std.specs.Prelude.{◌≤◌, IfOk, length};

use log_events::{LogRequest, Requests};
use search_picture::Role;
use search_reasons::Named;
use std::alloc::{AllocError, Global};

/// The most requests that are shown.
const MOST: usize = 20;

/// How many are shown if there are as many, whatever the reasons name.
const ENOUGH: usize = 10;

/// A request that is shown.
#[derive(Clone, Copy)]
pub(crate) struct Chosen {
    pub(crate) request: LogRequest,
    pub(crate) requester: u8,
    pub(crate) role: Role,
}

/// One of the records is the request's submission or its answer.
fn has_one(records: &[usize], request: LogRequest) -> bool {
    records.contains(&request.submission)
        || request
            .answer
            .is_some_and(|answer| records.contains(&answer))
}

/// What a request is to the last answer.
fn role_of(named: &Named, request: LogRequest) -> Role {
    let answers = named.answers.as_slice();
    if has_one(&answers[..answers.len().min(1)], request) {
        Role::Last
    } else if has_one(answers, request) {
        Role::Against
    } else if has_one(&named.others, request) {
        Role::Named
    } else {
        Role::Other
    }
}

/// Adds a request, if it isn't there.
fn add(
    chosen: &mut Vec<Chosen>,
    requests: &Requests<'_>,
    named: &Named,
    request: LogRequest,
) -> Result<(), AllocError> {
    let Some(requester) = requests.requester(&request) else {
        return Ok(());
    };
    for other in chosen.as_slice() {
        if other.request.submission == request.submission {
            return Ok(());
        }
    }
    chosen.push(Chosen {
        request,
        requester,
        role: role_of(named, request),
    })?;
    Ok(())
}

/// Adds the requests of these records.
fn add_all(
    chosen: &mut Vec<Chosen>,
    requests: &Requests<'_>,
    named: &Named,
    records: &[usize],
) -> Result<(), AllocError> {
    for place in records {
        if let Some(request) = requests.at(*place) {
            add(chosen, requests, named, request)?;
        }
    }
    Ok(())
}

/// The first ones, as many as may be shown.
fn first_chosen(mut chosen: Vec<Chosen>) -> Vec<Chosen>
    ensures { length result.items ≤ 20 }
{
    chosen.truncate(MOST);
    chosen
}

/// The requests whose records are named, and the last ones of all, if those are few.
fn all_chosen(
    alloc: Global,
    requests: &Requests<'_>,
    named: &Named,
) -> Result<Vec<Chosen>, AllocError> {
    let mut chosen = Vec::new(alloc);
    let answers = named.answers.as_slice();
    let cut = answers.len().min(1);
    add_all(&mut chosen, requests, named, &answers[..cut])?;
    add_all(&mut chosen, requests, named, &named.others)?;
    add_all(&mut chosen, requests, named, &answers[cut..])?;
    for request in requests.all.as_slice() {
        if chosen.len() < ENOUGH {
            add(&mut chosen, requests, named, *request)?;
        }
    }
    Ok(chosen)
}

/// The requests that are shown: those whose records are named, and the last ones, if those are few. They stand by requesters,
/// and in the order of their submissions.
pub(crate) fn chosen_of(
    alloc: Global,
    requests: &Requests<'_>,
    named: &Named,
) -> Result<Vec<Chosen>, AllocError>
    ensures { IfOk result (λ v. length v.items ≤ 20) }
{
    let mut chosen = first_chosen(all_chosen(alloc, requests, named)?);
    chosen.sort_by_key(|item| item.request.submission)?;
    chosen.sort_by_key(|item| item.requester)?;
    Ok(chosen)
}
