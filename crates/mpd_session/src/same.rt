//! Whether two requests are one, and two replies.

ghost use Rattle.std.specs.Prelude.{◌≡◌, map, string_bytes};
ghost use Rattle.std.specs.Bool.{Decides};
ghost use Rattle.mpd_model.specs.declared.breakpoint.Breakpoint.TheVariants as on;
ghost use Rattle.mpd_session.specs.declared.request.Command.TheVariants as commands;
ghost use Rattle.mpd_session.specs.declared.request.Command.TheVariants.{Explore};
ghost use Rattle.mpd_session.specs.declared.request.Look.TheVariants.{Steps};
ghost use Rattle.mpd_session.specs.declared.reply.Answer.TheVariants as answers;
ghost use Rattle.mpd_session.specs.declared.reply.Answer.TheVariants.{Stepped, Ran, State, Vars, Explored, Script, Where, Decided, Lines};

use crate::reply::{
    Answer, Coming, DeclList, Explained, HandleList, Holding, HoldingList, IntegerList, NumberList,
    PartnerList, Refusal, Reply, Text, TextList,
};
use crate::request::{Command, Look, Request};
use mpd_explain::{PlacedStepList, same_end, same_losses, same_steps};
use mpd_model::{Breakpoint, CallId, Condition, Decl, Mode, Step, Stop};

/// Whether a command is to explore with these limits.
fn is_explore(command: Command, runs: usize, fuel: usize) -> bool
    ensures { Decides result (Explore runs fuel ≡ command) }
{
    match command {
        Command::Explore {
            runs: most,
            fuel: longest,
        } => most == runs && longest == fuel,
        _ => false,
    }
}

/// Whether a look is at these steps.
fn is_steps(look: Look, from: usize, count: usize) -> bool
    ensures { Decides result (Steps from count ≡ look) }
{
    match look {
        Look::Steps {
            from: before,
            count: most,
        } => before == from && most == count,
        _ => false,
    }
}

/// Whether two looks are one.
fn same_look(one: Look, other: Look) -> bool
    ensures { Decides result (one ≡ other) }
{
    match one {
        Look::Script => matches!(other, Look::Script),
        Look::Where => matches!(other, Look::Where),
        Look::All => matches!(other, Look::All),
        Look::Decision => matches!(other, Look::Decision),
        Look::Steps { from, count } => is_steps(other, from, count),
        Look::Lines(rank) => matches!(other, Look::Lines(also) if also == rank),
        Look::Explain => matches!(other, Look::Explain),
    }
}

/// Whether a command is this look.
fn is_look(command: Command, look: Look) -> bool
    ensures { Decides result (commands.Look look ≡ command) }
{
    match command {
        Command::Look(also) => same_look(look, also),
        _ => false,
    }
}

/// Whether two conditions are one.
fn same_condition(one: Condition, other: Condition) -> bool
    ensures { Decides result (one ≡ other) }
{
    one.cell == other.cell && one.comparison == other.comparison && one.value == other.value
}

/// Whether two conditions are one, or there are none.
fn same_when(one: Option<Condition>, other: Option<Condition>) -> bool
    ensures { Decides result (one ≡ other) }
{
    match one {
        None => other.is_none(),
        Some(condition) => match other {
            None => false,
            Some(also) => same_condition(condition, also),
        },
    }
}

/// Whether a breakpoint is on this line, of this rank or of any, with this condition or none.
fn is_on_line(stop: Breakpoint, line: usize, of: Option<usize>, when: Option<Condition>) -> bool
    ensures { Decides result (on.Line line of when ≡ stop) }
{
    match stop {
        Breakpoint::Line {
            line: place,
            of: own,
            when: also,
        } => place == line && own == of && same_when(when, also),
        _ => false,
    }
}

/// Whether a breakpoint is on matches of this line, of this rank or of any.
fn is_on_match(stop: Breakpoint, line: usize, of: Option<usize>) -> bool
    ensures { Decides result (on.Match line of ≡ stop) }
{
    match stop {
        Breakpoint::Match {
            line: place,
            of: own,
        } => place == line && own == of,
        _ => false,
    }
}

/// Whether a breakpoint is on this cell of this rank.
fn is_on_change(stop: Breakpoint, rank: usize, cell: usize) -> bool
    ensures { Decides result (on.Change rank cell ≡ stop) }
{
    match stop {
        Breakpoint::Change {
            rank: own,
            cell: place,
        } => own == rank && place == cell,
        _ => false,
    }
}

/// Whether a breakpoint is on this handle of this rank.
fn is_on_handle(stop: Breakpoint, rank: usize, handle: usize) -> bool
    ensures { Decides result (on.Handle rank handle ≡ stop) }
{
    match stop {
        Breakpoint::Handle {
            rank: own,
            handle: place,
        } => own == rank && place == handle,
        _ => false,
    }
}

/// Whether two breakpoints are one.
fn same_break(one: Breakpoint, other: Breakpoint) -> bool
    ensures { Decides result (one ≡ other) }
{
    match one {
        Breakpoint::Line { line, of, when } => is_on_line(other, line, of, when),
        Breakpoint::Change { rank, cell } => is_on_change(other, rank, cell),
        Breakpoint::Handle { rank, handle } => is_on_handle(other, rank, handle),
        Breakpoint::Match { line, of } => is_on_match(other, line, of),
        Breakpoint::Rank(rank) => matches!(other, Breakpoint::Rank(also) if also == rank),
    }
}

/// Whether a command is to set this breakpoint.
fn is_break(command: Command, stop: Breakpoint) -> bool
    ensures { Decides result (commands.Break stop ≡ command) }
{
    match command {
        Command::Break(also) => same_break(stop, also),
        _ => false,
    }
}

/// Whether two commands are one.
fn same_command(one: Command, other: Command) -> bool
    ensures { Decides result (one ≡ other) }
{
    match one {
        Command::Step(step) => matches!(other, Command::Step(also) if also == step),
        Command::Next(choice) => matches!(other, Command::Next(also) if also == choice),
        Command::Run(max) => matches!(other, Command::Run(also) if also == max),
        Command::RunOn(max) => matches!(other, Command::RunOn(also) if also == max),
        Command::Back(count) => matches!(other, Command::Back(also) if also == count),
        Command::Redo(count) => matches!(other, Command::Redo(also) if also == count),
        Command::Goto(depth) => matches!(other, Command::Goto(also) if also == depth),
        Command::RunBack => matches!(other, Command::RunBack),
        Command::Enabled => matches!(other, Command::Enabled),
        Command::State => matches!(other, Command::State),
        Command::Vars(rank) => matches!(other, Command::Vars(also) if also == rank),
        Command::Calls(rank) => matches!(other, Command::Calls(also) if also == rank),
        Command::Why(call) => matches!(other, Command::Why(also) if also == call),
        Command::Break(stop) => is_break(other, stop),
        Command::Unbreak(number) => matches!(other, Command::Unbreak(also) if also == number),
        Command::Breaks => matches!(other, Command::Breaks),
        Command::Hit => matches!(other, Command::Hit),
        Command::Explore { runs, fuel } => is_explore(other, runs, fuel),
        Command::Look(look) => is_look(other, look),
    }
}

/// Whether two requests are one: the same command with the same fields, for the same version or for any.
pub fn same_request(one: &Request, other: &Request) -> bool
    ensures { Decides result (one.now ≡ other.now) }
{
    same_command(one.command, other.command) && one.at == other.at
}

/// Whether two lists of numbers are one.
fn same_integers(one: &[i64], other: &[i64]) -> bool
    ensures { Decides result (one.now ≡ other.now) }
{
    one == other
}

/// Whether two lists of handles are one.
fn same_handles(one: &[Option<usize>], other: &[Option<usize>]) -> bool
    ensures { Decides result (one.now ≡ other.now) }
{
    one == other
}

/// Whether two texts are one.
fn same_string(one: &str, other: &str) -> bool
    ensures { Decides result (one.now ≡ other.now) }
{
    one == other
}

/// Whether two texts are one, or there are none.
fn same_outcome(one: &Option<Text>, other: &Option<Text>) -> bool
    ensures { Decides result (one.now ≡ other.now) }
{
    match one {
        None => other.is_none(),
        Some(text) => match other {
            None => false,
            Some(also) => same_string(text.string.as_str(), also.string.as_str()),
        },
    }
}

/// Whether two lists of texts are one.
fn same_texts(one: &[String], other: &[String]) -> bool
    ensures { Decides result (map string_bytes one.now ≡ map string_bytes other.now) }
{
    if one.len() != other.len() {
        return false;
    }
    for number in 0..one.len() {
        if !same_string(one[number].as_str(), other[number].as_str()) {
            return false;
        }
    }
    true
}

/// Whether an answer is that this step was taken, to this depth.
fn is_stepped(answer: &Answer, depth: usize, step: Step) -> bool
    ensures { Decides result (Stepped depth step ≡ answer.now) }
{
    match answer {
        Answer::Stepped {
            depth: told,
            step: taken,
        } => *told == depth && *taken == step,
        _ => false,
    }
}

/// Whether an answer is that a run has stopped so, at this depth.
fn is_ran(answer: &Answer, depth: usize, stop: Stop) -> bool
    ensures { Decides result (Ran depth stop ≡ answer.now) }
{
    match answer {
        Answer::Ran {
            depth: told,
            stop: why,
        } => *told == depth && *why == stop,
        _ => false,
    }
}

/// Whether an answer is this state.
fn is_state(
    answer: &Answer,
    depth: usize,
    ranks: &TextList,
    sets: &TextList,
    undone: usize,
    outcome: &Option<Text>,
) -> bool
    ensures { Decides result (State depth ranks.now sets.now undone outcome.now ≡ answer.now) }
{
    match answer {
        Answer::State {
            depth: told_depth,
            ranks: told_ranks,
            sets: told_sets,
            undone: told_undone,
            outcome: told_outcome,
        } => {
            *told_depth == depth
                && *told_undone == undone
                && same_texts(&told_ranks.items, &ranks.items)
                && same_texts(&told_sets.items, &sets.items)
                && same_outcome(told_outcome, outcome)
        }
        _ => false,
    }
}

/// Whether an answer is what a rank holds, and holds this.
fn is_vars(answer: &Answer, vars: &IntegerList, handles: &HandleList, out: &IntegerList) -> bool
    ensures { Decides result (Vars vars.now handles.now out.now ≡ answer.now) }
{
    match answer {
        Answer::Vars {
            vars: told_vars,
            handles: told_handles,
            out: told_out,
        } => {
            same_integers(&told_vars.items, &vars.items)
                && same_handles(&told_handles.items, &handles.items)
                && same_integers(&told_out.items, &out.items)
        }
        _ => false,
    }
}

/// Whether an answer is these leaves, and whether there are more.
fn is_explored(answer: &Answer, leaves: &TextList, more: bool) -> bool
    ensures { Decides result (Explored leaves.now more ≡ answer.now) }
{
    match answer {
        Answer::Explored {
            leaves: told,
            more: others,
        } => *others == more && same_texts(&told.items, &leaves.items),
        _ => false,
    }
}

/// Whether two lists of numbers of lines, ranks or calls are one.
fn same_numbers(one: &[usize], other: &[usize]) -> bool
    ensures { Decides result (one.now ≡ other.now) }
{
    one == other
}

/// Whether two calls are one, or there are none.
fn same_partner(one: &Option<CallId>, other: &Option<CallId>) -> bool
    ensures { Decides result (one.now ≡ other.now) }
{
    match one {
        None => other.is_none(),
        Some(call) => matches!(other, Some(also) if *also == *call),
    }
}

/// Whether two lists of partners are one.
fn same_partners(one: &[Option<CallId>], other: &[Option<CallId>]) -> bool
    ensures { Decides result (one.now ≡ other.now) }
{
    if one.len() != other.len() {
        return false;
    }
    for number in 0..one.len() {
        if !same_partner(&one[number], &other[number]) {
            return false;
        }
    }
    true
}

/// Whether two ranks hold the same.
fn same_holding(one: &Holding, other: &Holding) -> bool
    ensures { Decides result (one.now ≡ other.now) }
{
    same_integers(&one.vars.items, &other.vars.items)
        && same_handles(&one.handles.items, &other.handles.items)
        && same_integers(&one.out.items, &other.out.items)
}

/// Whether two lists of what ranks hold are one.
fn same_holdings(one: &[Holding], other: &[Holding]) -> bool
    ensures { Decides result (one.now ≡ other.now) }
{
    if one.len() != other.len() {
        return false;
    }
    for number in 0..one.len() {
        if !same_holding(&one[number], &other[number]) {
            return false;
        }
    }
    true
}

/// Whether two lists of what ranks hold are one, or there are none.
fn same_held(one: &Option<HoldingList>, other: &Option<HoldingList>) -> bool
    ensures { Decides result (one.now ≡ other.now) }
{
    match one {
        None => other.is_none(),
        Some(held) => match other {
            None => false,
            Some(also) => same_holdings(&held.items, &also.items),
        },
    }
}

/// Whether an answer is this script.
fn is_script(
    answer: &Answer,
    ranks: usize,
    mode: Mode,
    vars: &TextList,
    handles: &TextList,
    lines: &NumberList,
) -> bool
    ensures { Decides result (Script ranks mode vars.now handles.now lines.now ≡ answer.now) }
{
    match answer {
        Answer::Script {
            ranks: told_ranks,
            mode: told_mode,
            vars: told_vars,
            handles: told_handles,
            lines: told_lines,
        } => {
            *told_ranks == ranks
                && *told_mode == mode
                && same_texts(&told_vars.items, &vars.items)
                && same_texts(&told_handles.items, &handles.items)
                && same_numbers(&told_lines.items, &lines.items)
        }
        _ => false,
    }
}

/// Whether an answer is that ranks stand so.
fn is_where(
    answer: &Answer,
    ranks: &TextList,
    lines: &HandleList,
    ready: &NumberList,
    held: &Option<HoldingList>,
) -> bool
    ensures { Decides result (Where ranks.now lines.now ready.now held.now ≡ answer.now) }
{
    match answer {
        Answer::Where {
            ranks: told_ranks,
            lines: told_lines,
            ready: told_ready,
            held: told_held,
        } => {
            same_texts(&told_ranks.items, &ranks.items)
                && same_handles(&told_lines.items, &lines.items)
                && same_numbers(&told_ready.items, &ready.items)
                && same_held(told_held, held)
        }
        _ => false,
    }
}

/// Whether two declarations are one.
fn same_decl(one: &Decl, other: &Decl) -> bool
    ensures { Decides result (one.now ≡ other.now) }
{
    one.kind == other.kind
        && one.size == other.size
        && same_string(one.name.as_str(), other.name.as_str())
}

/// Whether two lists of declarations are one.
fn same_decls(one: &[Decl], other: &[Decl]) -> bool
    ensures { Decides result (one.now ≡ other.now) }
{
    if one.len() != other.len() {
        return false;
    }
    for number in 0..one.len() {
        if !same_decl(&one[number], &other[number]) {
            return false;
        }
    }
    true
}

/// Whether a run has ended alike, with all that is known of that.
fn same_end_of(one: &Explained, other: &Explained) -> bool
    ensures { Decides result (one.now ≡ other.now) }
{
    same_end(&one.end, &other.end)
        && same_losses(&one.lost.items, &other.lost.items)
        && same_decls(&one.decls.items, &other.decls.items)
}

/// Whether a run has ended alike, or not at all.
fn same_explained(one: &Option<Explained>, other: &Option<Explained>) -> bool
    ensures { Decides result (one.now ≡ other.now) }
{
    match one {
        None => other.is_none(),
        Some(told) => match other {
            None => false,
            Some(also) => same_end_of(told, also),
        },
    }
}

/// Whether an answer is that this comes next.
fn is_decided(
    answer: &Answer,
    coming: Coming,
    steps: &PlacedStepList,
    decls: &DeclList,
    outcome: &Option<Text>,
) -> bool
    ensures { Decides result (Decided coming steps.now decls.now outcome.now ≡ answer.now) }
{
    match answer {
        Answer::Decided {
            coming: told_coming,
            steps: told_steps,
            decls: told_decls,
            outcome: told_outcome,
        } => {
            *told_coming == coming
                && same_steps(&told_steps.items, &steps.items)
                && same_decls(&told_decls.items, &decls.items)
                && same_outcome(told_outcome, outcome)
        }
        _ => false,
    }
}

/// Whether an answer is these steps.
fn is_listed(answer: &Answer, depth: usize, steps: &TextList, undone: usize) -> bool
    ensures { Decides result (answers.Steps depth steps.now undone ≡ answer.now) }
{
    match answer {
        Answer::Steps {
            depth: told_depth,
            steps: told_steps,
            undone: told_undone,
        } => {
            *told_depth == depth
                && *told_undone == undone
                && same_texts(&told_steps.items, &steps.items)
        }
        _ => false,
    }
}

/// Whether an answer is these lines of calls, with these partners.
fn is_lines(answer: &Answer, lines: &NumberList, partners: &PartnerList) -> bool
    ensures { Decides result (Lines lines.now partners.now ≡ answer.now) }
{
    match answer {
        Answer::Lines {
            lines: told_lines,
            partners: told_partners,
        } => {
            same_numbers(&told_lines.items, &lines.items)
                && same_partners(&told_partners.items, &partners.items)
        }
        _ => false,
    }
}

/// Whether two answers are one.
fn same_answer(one: &Answer, other: &Answer) -> bool
    ensures { Decides result (one.now ≡ other.now) }
{
    match one {
        Answer::Depth(depth) => matches!(other, Answer::Depth(also) if *also == *depth),
        Answer::Stepped { depth, step } => is_stepped(other, *depth, *step),
        Answer::Ran { depth, stop } => is_ran(other, *depth, *stop),
        Answer::Enabled(steps) => {
            matches!(other, Answer::Enabled(also) if same_texts(&also.items, &steps.items))
        }
        Answer::State {
            depth,
            ranks,
            sets,
            undone,
            outcome,
        } => is_state(other, *depth, ranks, sets, *undone, outcome),
        Answer::Vars { vars, handles, out } => is_vars(other, vars, handles, out),
        Answer::Calls(calls) => {
            matches!(other, Answer::Calls(also) if same_texts(&also.items, &calls.items))
        }
        Answer::Partners(partners) => {
            matches!(other, Answer::Partners(also) if same_texts(&also.items, &partners.items))
        }
        Answer::Added(number) => matches!(other, Answer::Added(also) if *also == *number),
        Answer::Removed => matches!(other, Answer::Removed),
        Answer::Breaks(breaks) => {
            matches!(other, Answer::Breaks(also) if same_texts(&also.items, &breaks.items))
        }
        Answer::Hit(hit) => matches!(other, Answer::Hit(also) if *also == *hit),
        Answer::Explored { leaves, more } => is_explored(other, leaves, *more),
        Answer::Script {
            ranks,
            mode,
            vars,
            handles,
            lines,
        } => is_script(other, *ranks, *mode, vars, handles, lines),
        Answer::Where {
            ranks,
            lines,
            ready,
            held,
        } => is_where(other, ranks, lines, ready, held),
        Answer::Decided {
            coming,
            steps,
            decls,
            outcome,
        } => is_decided(other, *coming, steps, decls, outcome),
        Answer::Steps {
            depth,
            steps,
            undone,
        } => is_listed(other, *depth, steps, *undone),
        Answer::Lines { lines, partners } => is_lines(other, lines, partners),
        Answer::Explained(told) => {
            matches!(other, Answer::Explained(also) if same_explained(also, told))
        }
    }
}

/// Whether two refusals are one.
fn same_refusal(one: Refusal, other: Refusal) -> bool
    ensures { Decides result (one ≡ other) }
{
    match one {
        Refusal::NotEnabled => matches!(other, Refusal::NotEnabled),
        Refusal::Full => matches!(other, Refusal::Full),
        Refusal::AtStart => matches!(other, Refusal::AtStart),
        Refusal::NoRedo => matches!(other, Refusal::NoRedo),
        Refusal::NotBefore => matches!(other, Refusal::NotBefore),
        Refusal::Stale { now } => matches!(other, Refusal::Stale { now: also } if also == now),
        Refusal::NeedsChoice { count } => {
            matches!(other, Refusal::NeedsChoice { count: also } if also == count)
        }
        Refusal::NoSuchBreak => matches!(other, Refusal::NoSuchBreak),
        Refusal::BreaksFull => matches!(other, Refusal::BreaksFull),
        Refusal::BadNumber => matches!(other, Refusal::BadNumber),
    }
}

/// Whether two replies are one: the same version with the same answer, text by text, or the same refusal.
pub fn same_reply(one: &Reply, other: &Reply) -> bool
    ensures { Decides result (one.now ≡ other.now) }
{
    match one {
        Reply::Refused(refusal) => match other {
            Reply::Refused(also) => same_refusal(*refusal, *also),
            Reply::Done { .. } => false,
        },
        Reply::Done { version, answer } => match other {
            Reply::Done {
                version: also,
                answer: told,
            } => *version == *also && same_answer(answer, told),
            Reply::Refused(_) => false,
        },
    }
}
