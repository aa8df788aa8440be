//! The lines that answer a script.
ghost use Rattle.std.specs.Prelude.{◌≡◌, ◌≤◌, ◌++◌, ◌∷◌, [], length, take, codes, OnOk, OnErr};
ghost use Rattle.std.specs.Fmt.{decimal};
ghost use Rattle.arrayvec.specs.ArrayString.{array_string_len};
ghost use Rattle.step_engine.specs.Step as spec;

use arrayvec::ArrayString;
use history_words::Record;
use operation_text::write_decimal;
use script_text::{write_settled, write_told};
use std::alloc::AllocError;

/// The beginning of the line that ends a run.
pub(crate) fn ending(kind: &str, line: u64) -> ArrayString<512>
    requires { length kind.now ≤ 8 }
    ensures text { result.bytes ≡ kind.now ++ (decimal line ++ 32 ∷ []) }
    ensures len { array_string_len result ≤ 29 }
{
    let mut text = ArrayString::new();
    text.push_str(kind);
    write_decimal(line, &mut text);
    text.push_str(" ");
    text
}

/// Adds a line of the script, and after it the text. After an `Err` a part of them may be there.
fn put_parts(line: &[u8], text: &[u8], out: &mut Vec<u8>) -> Result<(), AllocError>
    ensures ok { OnOk result (out.new.items ≡ out.old.items ++ ((line.now ++ codes " -> ") ++ text.now)) }
    ensures err { OnErr result (take (length out.old.items) out.new.items ≡ out.old.items) }
{
    out.extend_from_slice(line)?;
    out.extend_from_slice(" -> ".as_bytes())?;
    out.extend_from_slice(text)?;
    Ok(())
}

/// Adds a line of the script, and after it the text.
fn put_after(line: &[u8], text: &[u8], out: &mut Vec<u8>) -> Result<(), AllocError>
    ensures ok { OnOk result (out.new.items ≡ out.old.items ++ ((line.now ++ codes " -> ") ++ text.now)) }
    ensures err { OnErr result (out.new.items ≡ out.old.items) }
{
    let before = out.len();
    match put_parts(line, text, out) {
        Ok(()) => Ok(()),
        Err(refused) => {
            out.truncate(before);
            Err(refused)
        }
    }
}

/// Adds what answers a line of the script as a line of its own, after the other where that is asked for.
#[inline(always)]
pub(crate) fn put_shown(
    echoes: bool,
    line: &[u8],
    text: &mut ArrayString<512>,
    out: &mut Vec<u8>,
) -> Result<(), AllocError>
    requires { array_string_len text.old ≤ 320 }
    ensures ok { OnOk result (out.new.items ≡ out.old.items ++ spec.shown echoes line.now text.old.bytes) }
    ensures err { OnErr result (out.new.items ≡ out.old.items) }
{
    text.push_str("\n");
    if echoes {
        put_after(line, text.as_bytes(), out)?;
    } else {
        out.extend_from_slice(text.as_bytes())?;
    }
    Ok(())
}

/// Adds a line for each answer that was collected.
fn put_answers(
    echoes: bool,
    line: &[u8],
    answers: &[Record],
    out: &mut Vec<u8>,
) -> Result<(), AllocError>
    ensures { OnOk result (out.new.items ≡ out.old.items ++ spec.told_lines echoes line.now answers.now) }
{
    for answer in answers {
        let mut text = ArrayString::new();
        write_told(answer, &mut text);
        put_shown(echoes, line, &mut text, out)?;
    }
    Ok(())
}

/// Adds what was collected, and that the fabric came to rest. After an `Err` a part of it may be there.
pub(crate) fn put_settled(
    echoes: bool,
    line: &[u8],
    answers: &[Record],
    out: &mut Vec<u8>,
) -> Result<(), AllocError>
    ensures { OnOk result (out.new.items ≡ out.old.items ++ spec.settled_lines echoes line.now answers.now) }
{
    put_answers(echoes, line, answers, out)?;
    let mut text = ArrayString::new();
    write_settled(&mut text);
    put_shown(echoes, line, &mut text, out)
}
