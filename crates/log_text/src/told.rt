//! What lines can tell.
ghost use Rattle.std.specs.Prelude.{◌^◌, ◌<◌, All, length};
ghost use Rattle.seq_memory.specs.History.{extent_of};
ghost use Rattle.seq_memory.specs.Limits.{IsWithinLimits};
ghost use Rattle.history_words.specs.Claim.{Claim};
ghost use Rattle.history_words.specs.Clocks.{IsClocked};
ghost use Rattle.history_words.specs.Trace.{Explains};
ghost use Rattle.trace_text.specs.Tellable.{IsTellable};
ghost use Rattle.log_text.specs.ToldSubmissions.{IsToldSub};

use log_runs::laws::numbers_name_submissions;
use operation_text::own_digits_spell_number;

/// Lines can tell a trace and the history that explains it, if they can tell the submissions, and the history has fewer
/// than 2^64 entries: then they can tell each reply.
pub fn what_is_explained_can_be_told()
    ensures { (c : Claim) → Explains c → IsClocked c → length c.memory.entries < 2 ^ 64 → IsWithinLimits (extent_of c.memory) → All IsToldSub c.records →
        IsTellable c }
{
    numbers_name_submissions();
    own_digits_spell_number();
}
