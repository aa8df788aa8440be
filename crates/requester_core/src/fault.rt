//! Why a request is not prepared, or a packet completes none.
ghost use Rattle.std.specs.Prelude.{◌≡◌};
ghost use Rattle.requester_core.specs.Faults.{refusal_number, refusal_name, fault_number, fault_name};

use std::fmt;
use thiserror::Error;
use tlp_core::TlpFault;

/// Why no request is prepared, in the order of the tests.
#[derive(Clone, Copy, Debug, PartialEq, Error)]
pub enum SubmitRefusal {
    /// No request can ask for the operation.
    #[error("Profile {0}")]
    Profile(TlpFault),
    /// All 256 tags are open, and the request is non-posted.
    #[error("TagsUsed")]
    TagsUsed,
    /// All 4,294,967,295 numbers are spent.
    #[error("NumbersUsed")]
    NumbersUsed,
}

impl SubmitRefusal {
    /// The number under which it is told, 1 to 3.
    pub fn number(self) -> u8
        ensures { result ≡ refusal_number self }
    {
        match self {
            SubmitRefusal::Profile(_) => 1,
            SubmitRefusal::TagsUsed => 2,
            SubmitRefusal::NumbersUsed => 3,
        }
    }

    /// The name under which it is told.
    pub fn name(self) -> &'static str
        ensures { result.now ≡ refusal_name self }
    {
        match self {
            SubmitRefusal::Profile(_) => "Profile",
            SubmitRefusal::TagsUsed => "TagsUsed",
            SubmitRefusal::NumbersUsed => "NumbersUsed",
        }
    }
}

/// Why a packet completes no request, in the order of the tests.
#[derive(Clone, Copy, Debug, PartialEq)]
pub enum CompletionFault {
    /// No completion, one for another Requester ID, or one with a tag that is not open.
    Unexpected,
    /// Status SC without data, data with another status, or data of another length.
    Mismatch,
}

impl fmt::Display for CompletionFault {
    fn fmt<W: fmt::Write>(&self, f: &mut fmt::Formatter<W>) -> fmt::Result {
        f.write_str(self.name())
    }
}

impl std::error::Error for CompletionFault {}

impl CompletionFault {
    /// The number under which it is told, 1 or 2.
    pub fn number(self) -> u8
        ensures { result ≡ fault_number self }
    {
        match self {
            CompletionFault::Unexpected => 1,
            CompletionFault::Mismatch => 2,
        }
    }

    /// The name under which it is told.
    pub fn name(self) -> &'static str
        ensures { result.now ≡ fault_name self }
    {
        match self {
            CompletionFault::Unexpected => "Unexpected",
            CompletionFault::Mismatch => "Mismatch",
        }
    }
}
