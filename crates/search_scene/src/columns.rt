//! Columns: lines of the log, from left to right.
ghost use Rattle.std.specs.Prelude.{◌≡◌, ◌≤◌, IfOk, IfSome, Some, length, slice_get};

use crate::choosing::Chosen;
use std::alloc::{AllocError, Global};
use trace_diagnostics::TraceLines;

/// The most columns.
const COLUMNS: usize = 40;

/// Adds a line, if it isn't there.
fn add(columns: &mut Vec<u64>, line: u64) -> Result<(), AllocError> {
    if !columns.contains(&line) {
        columns.push(line)?;
    }
    Ok(())
}

/// The first columns, as many as there may be.
fn first_columns(mut columns: Vec<u64>) -> Vec<u64>
    ensures { length result.items ≤ 40 }
{
    columns.truncate(COLUMNS);
    columns
}

/// The lines of the requests' submissions and answers, each once and in rising order.
pub(crate) fn columns_of(
    alloc: Global,
    lines: &TraceLines,
    chosen: &[Chosen],
) -> Result<Vec<u64>, AllocError>
    ensures { IfOk result (λ v. length v.items ≤ 40) }
{
    let mut columns = Vec::new(alloc);
    for item in chosen {
        add(&mut columns, lines.of_record(item.request.submission))?;
        if let Some(answer) = item.request.answer {
            add(&mut columns, lines.of_record(answer))?;
        }
    }
    columns.sort()?;
    Ok(first_columns(columns))
}

/// The column of a line.
pub(crate) fn column_of(columns: &[u64], line: u64) -> Option<u32>
    requires { length columns.now ≤ 40 }
    ensures { IfSome result (λ column. slice_get columns.now column ≡ Some line) }
{
    for at in 0..columns.len() {
        if columns[at] == line {
            return Some(at as u32);
        }
    }
    None
}
