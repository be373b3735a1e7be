//! How far a server is, and which messages take it further.

ghost use Rattle.std.specs.Prelude.{◌≡◌};
ghost use Rattle.mix_lsp.specs.Protocol.{step_named};

/// How far a server is.
#[derive(Clone, Copy)]
pub enum Phase {
    /// `initialize` is waited for.
    New,
    Ready,
    /// After `shutdown` only `exit` is waited for.
    Closing,
}

/// A message that takes a server from a phase to another one, or ends it.
#[derive(Clone, Copy)]
pub(crate) enum Step {
    Initialize,
    Shutdown,
    Exit,
    Other,
}

impl Step {
    pub(crate) fn named(method: &str) -> Step
        ensures { result ≡ step_named method.now }
    {
        if method == "initialize" {
            Step::Initialize
        } else if method == "shutdown" {
            Step::Shutdown
        } else if method == "exit" {
            Step::Exit
        } else {
            Step::Other
        }
    }
}
