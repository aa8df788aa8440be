//! Pieces of pieces.
ghost use Rattle.history_words.specs.TraceView.{TraceView};
ghost use Rattle.log_pieces.specs.InPieces.{IsExplainableIn};
ghost use Rattle.log_pieces.specs.declared.Granularity.{Granularity};
ghost use Rattle.log_piece_laws.specs.Sizes.{IsFiner};

use log_pieces::laws::whole_requests_are_right_in_pieces;

/// What some history explains in pieces of one size, some history explains in any finer pieces. So a log that none
/// explains in small pieces has none in larger ones.
pub fn finer_pieces_explain_more()
    ensures { (small large : Granularity) (t : TraceView) → IsFiner small large → IsExplainableIn large t → IsExplainableIn small t }
{
    whole_requests_are_right_in_pieces();
}
