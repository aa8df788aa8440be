//! What is asked of a run.
ghost use Rattle.std.specs.Prelude.{◌≡◌};
ghost use Rattle.step_engine.specs.Options.{plain};

/// What is asked of a run of a script.
#[derive(Clone, Copy)]
pub struct StepOptions {
    /// The trace of a run that ends well is written in place of the results.
    pub is_traced: bool,
    /// A refusal is told, and doesn't end the run.
    pub keeps_going: bool,
    /// Each result and each refusal follows the line that it answers.
    pub echoes: bool,
}

impl StepOptions {
    /// Results alone or the trace alone, up to the first refusal.
    pub fn plain(is_traced: bool) -> StepOptions
        ensures { result ≡ plain is_traced }
    {
        StepOptions {
            is_traced,
            keeps_going: false,
            echoes: false,
        }
    }
}
