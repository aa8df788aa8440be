//! Reading the whole input.
ghost use Rattle.std.specs.Prelude.{◌≡◌, List, ℕ, IfOk, OnErr};
ghost use Rattle.std.specs.Io.KnownBytes.{Consumes, IsAtEnd};
ghost use Rattle.search_engine.specs.Kept.{AreKept};

use crate::keeping::KeptText;
use line_loop::EngineFault;
use std::alloc::Global;
use std::io::Read;

/// How many bytes are read at once, at most.
const BLOCK: usize = 8192;

/// The rest of the input, as much as is kept of its lines.
pub(crate) fn read_rest<R: Read>(alloc: Global, reader: &mut R) -> Result<Vec<u8>, EngineFault>
    ensures ok { IfOk result (λ text. (read : List ℕ) × Consumes (R.remaining reader.old) (R.remaining reader.new) read × AreKept read text.items) }
    ensures end { IfOk result (λ text. IsAtEnd (R.remaining reader.new)) }
    ensures err { OnErr result ((read : List ℕ) × Consumes (R.remaining reader.old) (R.remaining reader.new) read) }
{
    let mut kept = KeptText::new(alloc);
    let mut buffer = [0u8; BLOCK];
    for _ in 0..u64::MAX {
        let Ok(count) = reader.read(&mut buffer) else {
            return Err(EngineFault::Read);
        };
        if count == 0 {
            return Ok(kept.end()?);
        }
        kept.take(&buffer[..count])?;
    }
    Err(EngineFault::Read)
}
