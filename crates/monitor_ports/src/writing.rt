//! The lines of logs and of traces.
ghost use Rattle.std.specs.Prelude.{◌≡◌, ◌≤◌, ◌++◌, ◌∷◌, [], length};
ghost use Rattle.std.specs.Fmt.{decimal};
ghost use Rattle.arrayvec.specs.ArrayString.{array_string_len};
ghost use Rattle.trace_text.specs.Texts.{entry_line};
ghost use Rattle.monitor_ports.specs.Texts.{record_line, moment_text};

use arrayvec::ArrayString;
use history_words::Record;
use operation_text::{write_decimal, write_op, write_reply};
use seq_memory::Entry;

/// Writes the kind of a line, the requester, the number of its request, and a space.
fn put_request(kind: &str, requester: u8, number: u32, line: &mut ArrayString<512>)
    requires empty { array_string_len line.old ≡ 0 }
    requires kind { length kind.now ≤ 4 }
    ensures text { line.new.bytes ≡ kind.now ++ (decimal requester ++ 32 ∷ (decimal number ++ 32 ∷ [])) }
    ensures len { array_string_len line.new ≤ 46 }
{
    line.push_str(kind);
    write_decimal(u64::from(requester), line);
    line.push_str(" ");
    write_decimal(u64::from(number), line);
    line.push_str(" ");
}

/// In a trace, adds n and a space.
fn put_moment(is_trace: bool, n: u64, line: &mut ArrayString<512>)
    requires { array_string_len line.old ≤ 46 }
    ensures text { line.new.bytes ≡ line.old.bytes ++ moment_text is_trace n }
    ensures len { array_string_len line.new ≤ 67 }
{
    if is_trace {
        write_decimal(n, line);
        line.push_str(" ");
    }
}

/// Writes the line of a record into an empty buffer, without a line feed: of a log, or with n of a
/// trace.
pub fn write_record(is_trace: bool, seen: &Record, line: &mut ArrayString<512>)
    requires { array_string_len line.old ≡ 0 }
    ensures text { line.new.bytes ≡ record_line is_trace seen.now }
    ensures len { array_string_len line.new ≤ 400 }
{
    match seen {
        Record::Sub {
            requester,
            number,
            op,
            n,
        } => {
            put_request("sub ", *requester, *number, line);
            put_moment(is_trace, *n, line);
            write_op(&op.lend(), line);
        }
        Record::Ans {
            requester,
            number,
            reply,
            n,
        } => {
            put_request("ans ", *requester, *number, line);
            put_moment(is_trace, *n, line);
            write_reply(&reply.lend(), line);
        }
    }
}

/// Writes the line of an entry of the history into an empty buffer, without a line feed.
pub fn write_entry(entry: &Entry, line: &mut ArrayString<512>)
    requires { array_string_len line.old ≡ 0 }
    ensures text { line.new.bytes ≡ entry_line entry.now }
    ensures len { array_string_len line.new ≤ 400 }
{
    put_request("ent ", entry.requester, entry.number, line);
    write_op(&entry.op.lend(), line);
}
