//! What is told of the seeds that fail.
ghost use Rattle.std.specs.Prelude.{◌≡◌, ◌≤◌, ◌+◌, ◌++◌, length, IfOk, OnOk, OnErr};
ghost use Rattle.arrayvec.specs.ArrayString.{array_string_len};
ghost use Rattle.sweep_engine.specs.Pipe.{storm_of};
ghost use Rattle.sweep_engine.specs.Sweep.{option_text, storm_words, link_words, check_words, pipe_line, failed_words, failure, last_line};

use crate::options::Sweep;
use crate::piping::Said;
use arrayvec::ArrayString;
use operation_text::write_decimal;
use parameters::Storm;
use std::alloc::{AllocError, Global};

/// Adds words and a number.
fn put_option(words: &str, number: u64, out: &mut ArrayString<512>)
    requires { (length words.now ≤ 22) × (array_string_len out.old ≤ 400) }
    ensures text { out.new.bytes ≡ out.old.bytes ++ option_text words.now number }
    ensures len { array_string_len out.new ≤ array_string_len out.old + 42 }
{
    out.push_str(words);
    write_decimal(number, out);
}

/// The programs that a script goes to.
fn check_words(is_clocked: bool) -> &'static str
    ensures text { result.now ≡ check_words is_clocked }
    ensures len { length result.now ≤ 60 }
{
    if is_clocked {
        " | pciex step --trace | pciex check --clocked\n"
    } else {
        " | pciex step --trace | pciex check\n"
    }
}

/// Adds how `generate` is asked for the storm, but for its links and its block.
fn put_storm(storm: &Storm, out: &mut ArrayString<512>)
    requires { array_string_len out.old ≤ 0 }
    ensures text { out.new.bytes ≡ out.old.bytes ++ storm_words storm.now }
    ensures len { array_string_len out.new ≤ 126 }
{
    put_option("pciex generate --seed ", storm.seed, out);
    put_option(" --events ", storm.events, out);
    put_option(" --requesters ", storm.requesters, out);
}

/// Adds how it is asked for the links and the block.
fn put_links(storm: &Storm, out: &mut ArrayString<512>)
    requires { array_string_len out.old ≤ 126 }
    ensures text { out.new.bytes ≡ out.old.bytes ++ link_words storm.now }
    ensures len { array_string_len out.new ≤ 252 }
{
    put_option(" --lose ", storm.lose, out);
    put_option(" --corrupt ", storm.corrupt, out);
    put_option(" --block ", storm.block, out);
}

/// Adds the line of the storm's pipe.
#[tactic(auto, unfolding(crate::specs::Sweep::pipe_line))]
fn put_pipe(is_clocked: bool, storm: &Storm, out: &mut ArrayString<512>)
    requires { array_string_len out.old ≤ 0 }
    ensures { out.new.bytes ≡ out.old.bytes ++ pipe_line is_clocked storm.now }
{
    put_storm(storm, out);
    put_links(storm, out);
    out.push_str(check_words(is_clocked));
}

/// The line of the storm's pipe.
fn pipe_line(is_clocked: bool, storm: &Storm) -> ArrayString<512>
    ensures { result.bytes ≡ pipe_line is_clocked storm.now }
{
    let mut line = ArrayString::new();
    put_pipe(is_clocked, storm, &mut line);
    line
}

/// How the line of a seed that fails begins.
#[tactic(auto, unfolding(crate::specs::Sweep::failed_words))]
fn failed_words(seed: u64) -> ArrayString<512>
    ensures { result.bytes ≡ failed_words seed }
{
    let mut words = ArrayString::new();
    put_option("failed ", seed, &mut words);
    words.push_str(" ");
    words
}

/// The lines of a seed that fails.
fn failure(alloc: Global, sweep: &Sweep, said: &Said) -> Result<Vec<u8>, AllocError>
    ensures { IfOk result (λ v. v.items ≡ failure sweep.now said.now) }
{
    let mut lines = Vec::new(alloc);
    lines.extend_from_slice(failed_words(said.seed).as_bytes())?;
    lines.extend_from_slice(said.text.as_slice())?;
    let storm = Storm {
        seed: said.seed,
        ..sweep.storm
    };
    lines.extend_from_slice(pipe_line(sweep.is_clocked, &storm).as_bytes())?;
    Ok(lines)
}

/// Adds the lines of a seed that fails.
pub(crate) fn put_failure(
    alloc: Global,
    sweep: &Sweep,
    said: &Said,
    out: &mut Vec<u8>,
) -> Result<(), AllocError>
    ensures ok { OnOk result (out.new.items ≡ out.old.items ++ failure sweep.now said.now) }
    ensures err { OnErr result (out.new.items ≡ out.old.items) }
{
    let lines = failure(alloc, sweep, said)?;
    out.extend_from_slice(lines.as_slice())
}

/// Adds the last line.
pub(crate) fn put_last(ok: u64, out: &mut Vec<u8>) -> Result<(), AllocError>
    ensures ok { OnOk result (out.new.items ≡ out.old.items ++ last_line ok) }
    ensures err { OnErr result (out.new.items ≡ out.old.items) }
{
    let mut line = ArrayString::new();
    put_option("ok ", ok, &mut line);
    line.push_str("\n");
    out.extend_from_slice(line.as_bytes())
}
