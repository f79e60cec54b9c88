//! Laws of what an editor is told (docs/ADAPTER.md, "Frames and messages").
ghost use Rattle.std.specs.Prelude.{◌≡◌, ℕ, List, None, Some, true};
ghost use Rattle.mpd_console.specs.Says.{Console};
ghost use Rattle.mpd_dap.specs.declared.ask.Message.{Message};
ghost use Rattle.mpd_dap.specs.Messages.{message_in};
ghost use Rattle.mpd_adapter.specs.declared.moves.Move.{Move};
ghost use Rattle.mpd_adapter.specs.declared.task.Task.TheVariants as task;
ghost use Rattle.mpd_adapter.specs.Laws.{IsAnswered, IsQuiet, StopsLast, KeepsRest, SaysNothing};
ghost use Rattle.mpd_adapter.specs.Says.{Adapter, Spoken, Says, changes_none, task_in};

/// A law: what is written of a message is one response with its number and command, and then events,
/// or the one frame that tells that memory was refused. All are numbered one after another, from the
/// number that the adapter held, and it holds the next then.
pub fn one_response_comes_first()
    ensures { (d : Adapter) (body : List ℕ) (m : Message) (frames : List (List ℕ)) (e : Adapter) → message_in body ≡ Some m → Says d body frames e → IsAnswered d m frames e }
{}

/// A law: a message that is refused, a look, an expression and `configurationDone` change nothing but
/// the number of the next frame, whether memory is refused or not.
pub fn looks_change_nothing()
    ensures { (d : Adapter) (body : List ℕ) (m : Message) (frames : List (List ℕ)) (e : Adapter) → message_in body ≡ Some m → changes_none (task_in d m) ≡ true → Says d body frames e → IsQuiet d e }
{}

/// A law: of a move three frames are written, the last of which is the only `stopped`, and tells where
/// the session stands then; or one, that memory was refused.
pub fn moves_tell_where_they_stop()
    ensures { (d : Adapter) (body : List ℕ) (m : Message) (asked : Move) (frames : List (List ℕ)) (e : Adapter) → message_in body ≡ Some m → task_in d m ≡ task.Moves asked → Says d body frames e → StopsLast d m asked frames e }
{}

/// A law: a body that is no message changes nothing, and nothing is told of it but that memory was refused, if it was.
pub fn other_bodies_are_passed_over()
    ensures { (d : Adapter) (body : List ℕ) (frames : List (List ℕ)) (e : Adapter) → message_in body ≡ None → Says d body frames e → SaysNothing d frames e }
{}

/// A law: setting breakpoints takes no step, and leaves each breakpoint of another kind than `line` where it is.
pub fn other_breakpoints_stay()
    ensures { (d : Adapter) (m : Message) (said : List ℕ) (e : Console) → Spoken d task.Marks m said e → KeepsRest d.console.session e.session }
{}
