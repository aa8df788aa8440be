//! Devices that act in pieces.
ghost use Rattle.std.specs.Prelude.{◌≡◌, ℕ, List, Some};
ghost use Rattle.seq_memory.specs.Limits.{Extent};
ghost use Rattle.log_pieces.specs.InPieces.{IsExplainableIn};
ghost use Rattle.log_pieces.specs.Pieces.{pieces};
ghost use Rattle.log_pieces.specs.declared.Granularity.{Granularity};
ghost use Rattle.log_piece_laws.specs.Device.{Device, Leads, Step, new_device, seen_of};
ghost use Rattle.log_piece_laws.specs.Sizes.{bytes_of};

use log_runs::laws::numbers_name_submissions;
use op_pieces::laws::pieces_act_as_their_request;
use seq_memory::laws::history_grows_by_steps;

/// Whatever a device does whose reads and writes act in pieces of a size, those of a write in rising order, its log is
/// explained in pieces of that size: so it isn't given `none`.
pub fn a_device_that_acts_in_pieces_is_explained()
    ensures { (size : Granularity) (bytes : ℕ) (x : Extent) (steps : List Step) (d : Device) → bytes_of size ≡ Some bytes →
        Leads (pieces bytes x) x (new_device x) steps d → IsExplainableIn size (seen_of x d) }
{
    history_grows_by_steps();
    numbers_name_submissions();
    pieces_act_as_their_request();
}
