//! The commands of messages (docs/ADAPTER.md).

ghost use Rattle.std.specs.Prelude.{◌≡◌};
ghost use Rattle.mpd_dap.specs.Commands.{command_of};

/// A command that is answered.
#[derive(Clone, Copy)]
pub enum Command {
    /// `initialize`
    Initialize,
    /// `launch`
    Launch,
    /// `configurationDone`
    ConfigurationDone,
    /// `disconnect`
    Disconnect,
    /// `terminate`
    Terminate,
    /// `threads`
    Threads,
    /// `stackTrace`
    StackTrace,
    /// `scopes`
    Scopes,
    /// `variables`
    Variables,
    /// `stepInTargets`
    StepInTargets,
    /// `exceptionInfo`
    ExceptionInfo,
    /// `setExceptionBreakpoints`
    SetExceptionBreakpoints,
    /// `pause`
    Pause,
    /// `setBreakpoints`
    SetBreakpoints,
    /// `continue`
    Continue,
    /// `next`
    Next,
    /// `stepIn`
    StepIn,
    /// `stepOut`
    StepOut,
    /// `stepBack`
    StepBack,
    /// `reverseContinue`
    ReverseContinue,
    /// `restart`
    Restart,
    /// `evaluate`
    Evaluate,
}

impl Command {
    /// The command of a name; `None` if it is none that is answered.
    #[tactic(auto, unfolding(crate::specs::Commands::command_of))]
    pub fn of(name: &str) -> Option<Command>
        ensures { result ≡ command_of name.now }
    {
        match name {
            "initialize" => Some(Command::Initialize),
            "launch" => Some(Command::Launch),
            "configurationDone" => Some(Command::ConfigurationDone),
            "disconnect" => Some(Command::Disconnect),
            "terminate" => Some(Command::Terminate),
            "threads" => Some(Command::Threads),
            "stackTrace" => Some(Command::StackTrace),
            "scopes" => Some(Command::Scopes),
            "variables" => Some(Command::Variables),
            "stepInTargets" => Some(Command::StepInTargets),
            "exceptionInfo" => Some(Command::ExceptionInfo),
            "setExceptionBreakpoints" => Some(Command::SetExceptionBreakpoints),
            "pause" => Some(Command::Pause),
            "setBreakpoints" => Some(Command::SetBreakpoints),
            "continue" => Some(Command::Continue),
            "next" => Some(Command::Next),
            "stepIn" => Some(Command::StepIn),
            "stepOut" => Some(Command::StepOut),
            "stepBack" => Some(Command::StepBack),
            "reverseContinue" => Some(Command::ReverseContinue),
            "restart" => Some(Command::Restart),
            "evaluate" => Some(Command::Evaluate),
            _ => None,
        }
    }
}
