//! What help says of the program and of its commands (docs/FORMATS.md, "The command line").

use crate::table::Tool;

/// What the program is.
pub(crate) const ABOUT: &str = "A reversible debugger of small MPI rank scripts.

Without words it reads a script from standard input, up to a line ---, and answers the trace words behind it.";

/// How it is begun.
pub(crate) const EXAMPLE: &str = "Example:
  ./mpdbg < examples/first.trace";

const DIAGNOSE_ABOUT: &str =
    "Say whether the runs of the script of a file can hang or trap, how, and where that was decided";

const DIAGNOSE_EXAMPLE: &str = "Examples:
  ./mpdbg diagnose examples/race.mpd
  ./mpdbg diagnose examples/exchange.mpd --mode buffered --strict
  ./mpdbg diagnose examples/race.mpd --ranks 2-5
  ./mpdbg diagnose examples/exchange.mpd --modes 2";

const TRACE_ABOUT: &str = "Trace the script of a file";

const TRACE_EXAMPLE: &str = "Trace words stand on standard input, one a line:
  local P, match S R, wake P, release   take a step, such as match 0.0 1.0
  back                                  take the last step back
  redo, goto N                          take it again, take steps back until N are left
  enabled, show                         list the steps that are enabled, show the state

Example:
  echo 'local 0' | ./mpdbg trace examples/exchange.mpd --mode buffered";

const DEBUG_ABOUT: &str = "Debug the script of a file, at a prompt";

const DEBUG_EXAMPLE: &str = "Words stand on standard input, one line each; help all lists them:
  next, run, back, run-back, goto N, redo   go forward and back
  list, ranks, vars, calls, why P           look
  check, deadlock                           try the choices from here, go to a deadlock

Example:
  echo run | ./mpdbg debug examples/race.mpd";

const DAP_ABOUT: &str = "Debug the script of a file in an editor, by the Debug Adapter Protocol";

const DAP_EXAMPLE: &str =
    "An editor starts it, as docs/EDITORS.md tells. Messages stand on standard input, each in a frame with
its length, and are answered by frames on standard output. --choices and --witness lay the steps of a
run ahead, as in `mpdbg debug`.

Example:
  ./mpdbg dap examples/race.mpd --mode buffered";

const RUN_ABOUT: &str = "Answer JSON requests on the script of a file";

const RUN_EXAMPLE: &str =
    "Requests stand on standard input, a JSON object on each line, and each is answered by one line:
  step, next, run                    go forward
  back, redo, goto, run-back         go back, and forward again
  state, enabled, vars, calls, why   look at where it stands
  break, unbreak, breaks, explore    set breakpoints, list the runs from here
With --wide these are answered, too, and `break` has more kinds and fields:
  run-on                             go forward, also at a single candidate
  hit                                tell which breakpoint the last step hits
  script, where, all, decision       tell names, lines, and what comes next
  steps, lines, explain              list steps, lines of calls, and why it ended so

Example:
  echo '{\"cmd\":\"run\",\"max\":100}' | ./mpdbg run examples/race.mpd";

const SERVE_ABOUT: &str = "Answer JSON requests of several clients, on one session";

const SERVE_EXAMPLE: &str =
    "It listens on 127.0.0.1 at port P, prints `listening P`, and answers N clients at once.
Each of them sends the requests of `mpdbg run`, and all are answered on the one session.
When all have left, it prints how many requests were taken: `served E`.

Example:
  ./mpdbg serve examples/race.mpd --port 4000 --clients 2";

const CHECK_ABOUT: &str =
    "Look for deadlocks: try the choices of wildcard receives one after another";

const CHECK_EXAMPLE: &str = "Examples:
  ./mpdbg check examples/exchange.mpd --witness --explain
  ./mpdbg check examples/race.mpd --ends --group
  ./mpdbg check examples/race.mpd --sample 100 --seed 7";

const VERIFY_ABOUT: &str = "Check a witness that check has written";

const VERIFY_EXAMPLE: &str = "Example:
  ./mpdbg check examples/race.mpd --witness | ./mpdbg verify examples/race.mpd /dev/stdin --leaf 0";

const WORDS_ABOUT: &str = "Write the trace words of the run with these choices";

const WORDS_EXAMPLE: &str =
    "The choices are those of a leaf of `mpdbg check`: the run of `leaf 3 [0 1 0] ..` is that of --choices '0 1 0'.
Those of a leaf of `mpdbg check --ends` or `mpdbg check --sample` want --ends beside them.

Example:
  ./mpdbg words examples/race.mpd --choices '0' | ./mpdbg trace examples/race.mpd";

const TRANSLATE_ABOUT: &str = "Write the script of a file as a C program with MPI calls";

const TRANSLATE_EXAMPLE: &str =
    "It is one file of C11, for as many processes as the script has ranks.

Example:
  ./mpdbg c examples/race.mpd > race.c";

const PICTURE_ABOUT: &str = "Draw a run of the script of a file, as SVG";

const PICTURE_EXAMPLE: &str =
    "One of --choices, --witness and --words says which run is drawn. Without them it is the run of the
first candidates. --fuel is for a run of choices or of first candidates. Choices of a leaf of
`mpdbg check --ends` or `mpdbg check --sample` want --ends beside them.

Example:
  ./mpdbg picture examples/race.mpd --choices '1' > race.svg";

const PAGE_ABOUT: &str = "Write a page for a browser that shows runs of the script of a file";

const PAGE_EXAMPLE: &str =
    "One of --choices, --witness, --words and --runs says which runs are shown. Without them it is the first
run that hangs or traps, and the first that ends well. --ends is for choices and for runs of `mpdbg check`:
choices of a leaf of `mpdbg check --ends` or `mpdbg check --sample` want it beside them.

Example:
  ./mpdbg page examples/stolen_message.mpd > run.html";

/// What a command does, in a few words.
pub(crate) fn about<'a>(tool: Tool) -> &'a str {
    match tool {
        Tool::Diagnose => DIAGNOSE_ABOUT,
        Tool::Trace => TRACE_ABOUT,
        Tool::Debug => DEBUG_ABOUT,
        Tool::Dap => DAP_ABOUT,
        Tool::Run => RUN_ABOUT,
        Tool::Serve => SERVE_ABOUT,
        Tool::Check => CHECK_ABOUT,
        Tool::Verify => VERIFY_ABOUT,
        Tool::Words => WORDS_ABOUT,
        Tool::Translate => TRANSLATE_ABOUT,
        Tool::Picture => PICTURE_ABOUT,
        Tool::Page => PAGE_ABOUT,
    }
}

/// What help shows of it as an example.
pub(crate) fn example<'a>(tool: Tool) -> &'a str {
    match tool {
        Tool::Diagnose => DIAGNOSE_EXAMPLE,
        Tool::Trace => TRACE_EXAMPLE,
        Tool::Debug => DEBUG_EXAMPLE,
        Tool::Dap => DAP_EXAMPLE,
        Tool::Run => RUN_EXAMPLE,
        Tool::Serve => SERVE_EXAMPLE,
        Tool::Check => CHECK_EXAMPLE,
        Tool::Verify => VERIFY_EXAMPLE,
        Tool::Words => WORDS_EXAMPLE,
        Tool::Translate => TRANSLATE_EXAMPLE,
        Tool::Picture => PICTURE_EXAMPLE,
        Tool::Page => PAGE_EXAMPLE,
    }
}
