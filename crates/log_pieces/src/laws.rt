//! Laws of logs in pieces.
ghost use Rattle.history_words.specs.TraceView.{TraceView};
ghost use Rattle.log_pieces.specs.InPieces.{IsExplainableIn};
ghost use Rattle.log_pieces.specs.declared.Granularity.{Granularity};
ghost use Rattle.log_runs.specs.Explainable.{IsExplainable};

use op_pieces::laws::pieces_act_as_their_request;
use seq_memory::laws::only_the_place_changes;

/// What a history of whole requests explains, a history of pieces explains too: a device whose reads and writes act as
/// a whole is right at each granularity.
pub fn whole_requests_are_right_in_pieces()
    ensures { (size : Granularity) (t : TraceView) → IsExplainable t → IsExplainableIn size t }
{
    only_the_place_changes();
    pieces_act_as_their_request();
}
