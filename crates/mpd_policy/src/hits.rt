//! Which breakpoint a step hits.

ghost use Rattle.std.specs.Prelude.{◌≡◌, ℕ, slice_get, slice_index_or, not};
ghost use Rattle.mpd_model.specs.runs.Breakpoints as points;
ghost use Rattle.mpd_model.specs.runs.Breakpoints.{break_at, comes_at, cell_at, handle_at, line_hits, match_hits, rank_hits};
ghost use Rattle.mpd_policy.specs.Places.{of_value, of_call, watched_by, watched_at, same_watched, told_by, changed_by, lowest_told, lowest_changed, lower};
ghost use Rattle.mpd_policy.specs.declared.hits.Watched.TheVariants.{Nothing};

use crate::breaks::Breaks;
use mpd_code::Code;
use mpd_core::Core;
use mpd_model::{Activity, BREAKS_MAX, Breakpoint, CallId, Condition, Step};

/// What a breakpoint watches.
#[derive(Clone, Copy)]
pub(crate) enum Watched {
    /// It watches nothing, or there is none.
    Nothing,
    /// What a cell holds.
    Value(i64),
    /// The call that a handle holds.
    Call(usize),
}

/// The line of a statement, where it is there.
fn line_at(lines: &[usize], number: usize) -> Option<usize>
    ensures { result ≡ slice_get lines.now number }
{
    lines.get(number).copied()
}

/// What a cell holds, where it is there.
fn value_at(values: &[i64], cell: usize) -> Option<i64>
    ensures { result ≡ slice_get values.now cell }
{
    values.get(cell).copied()
}

/// Whether a statement is there, and stands on a line.
#[tactic(auto, using(crate::proofs::HitLemmas::on_lines))]
fn on_line(code: &Code, line: usize, statement: Option<usize>) -> bool
    ensures { result ≡ points.on_line code.now.program line statement }
{
    let Some(number) = statement else {
        return false;
    };
    let lines = code.lines();
    match line_at(lines, number) {
        None => false,
        Some(own) => own == line,
    }
}

/// Whether a rank runs, with its next statement on a line.
#[tactic(auto, using(crate::proofs::HitLemmas::coming))]
fn comes_to(core: &Core<'_>, line: usize, rank: usize) -> bool
    ensures { result ≡ comes_at core.now.program line (slice_get core.now.world.ranks rank) }
{
    if rank >= core.rank_count() {
        return false;
    }
    match core.activity(rank) {
        Some(Activity::Running) => on_line(core.code(), line, core.next_statement(rank)),
        _ => false,
    }
}

/// What a cell of a rank holds, where there is one.
#[tactic(auto, using(crate::proofs::HitLemmas::holding))]
fn cell(core: &Core<'_>, rank: usize, cell: usize) -> Option<i64>
    ensures { result ≡ cell_at core.now.world rank cell }
{
    if rank >= core.rank_count() {
        return None;
    }
    let vars = core.rank(rank).variables();
    value_at(vars, cell)
}

/// Whether a rank is the one that is meant, where one is.
fn is_meant(of: Option<usize>, rank: usize) -> bool
    ensures { result ≡ points.is_meant of rank }
{
    match of {
        None => true,
        Some(own) => own == rank,
    }
}

/// Whether a condition holds of a value, where there is one.
fn value_holds(condition: Condition, value: Option<i64>) -> bool
    ensures { result ≡ points.value_holds condition value }
{
    match value {
        None => false,
        Some(value) => condition.comparison.holds(value, condition.value),
    }
}

/// Whether what must hold of a cell of a rank holds, where something must.
fn condition_holds(core: &Core<'_>, when: Option<Condition>, rank: usize) -> bool
    ensures { result ≡ points.condition_holds when core.now.world rank }
{
    match when {
        None => true,
        Some(condition) => value_holds(condition, cell(core, rank, condition.cell)),
    }
}

/// Whether a rank that is meant runs, with its next statement on a line, and what must hold there holds.
fn arrives(
    core: &Core<'_>,
    line: usize,
    of: Option<usize>,
    when: Option<Condition>,
    rank: usize,
) -> bool
    ensures { result ≡ points.arrives core.now.program line of when core.now.world rank }
{
    comes_to(core, line, rank) && (is_meant(of, rank) && condition_holds(core, when, rank))
}

/// Whether some rank does.
#[tactic(auto, using(crate::proofs::HitLemmas::some_rank))]
fn some_arrives(core: &Core<'_>, line: usize, of: Option<usize>, when: Option<Condition>) -> bool
    ensures { result ≡ points.some_arrives core.now.program line of when core.now.world }
{
    let count = core.rank_count();
    for rank in 0..count {
        if arrives(core, line, of, when, rank) {
            return true;
        }
    }
    false
}

/// Whether a step hits the breakpoint of a line, told by the state after it.
fn line_hits_step(
    core: &Core<'_>,
    line: usize,
    of: Option<usize>,
    when: Option<Condition>,
    step: Step,
) -> bool
    ensures { result ≡ line_hits core.now.program line of when step core.now.world }
{
    match step {
        Step::Local(rank) | Step::Wake(rank) | Step::WakeAny { rank, .. } => {
            arrives(core, line, of, when, rank)
        }
        Step::Release => some_arrives(core, line, of, when),
        _ => false,
    }
}

/// Whether a statement of a line has issued a call.
#[tactic(auto, using(crate::proofs::HitLemmas::issuing))]
fn is_issued_on(core: &Core<'_>, line: usize, id: CallId) -> bool
    ensures { result ≡ points.issued_on core.now.program line core.now.world.board id }
{
    match core.board().call(id) {
        None => false,
        Some(call) => on_line(core.code(), line, Some(call.statement)),
    }
}

/// Whether a rank that is meant has issued a call by a statement of a line.
fn is_issued_by(core: &Core<'_>, line: usize, of: Option<usize>, id: CallId) -> bool
    ensures { result ≡ points.issued_by core.now.program line of core.now.world.board id }
{
    is_meant(of, id.rank) && is_issued_on(core, line, id)
}

/// Whether a step is a match of such a call, told by the state after it.
fn match_hits_step(core: &Core<'_>, line: usize, of: Option<usize>, step: Step) -> bool
    ensures { result ≡ match_hits core.now.program line of step core.now.world }
{
    match step {
        Step::Match(send, recv) => {
            is_issued_by(core, line, of, send) || is_issued_by(core, line, of, recv)
        }
        _ => false,
    }
}

/// Whether a step is a rank's own, or a release.
fn is_step_of(rank: usize, step: Step) -> bool
    ensures { result ≡ points.is_step_of rank step }
{
    match step {
        Step::Local(own) | Step::Wake(own) | Step::WakeAny { rank: own, .. } => own == rank,
        Step::Release => true,
        Step::Match(_, _) => false,
    }
}

/// Whether a rank is there, and isn't blocked.
fn is_unblocked(core: &Core<'_>, rank: usize) -> bool
    ensures { result ≡ points.is_unblocked (slice_get core.now.world.ranks rank) }
{
    match core.activity(rank) {
        None | Some(Activity::Blocked) => false,
        Some(Activity::Running) | Some(Activity::Trapped(_)) => true,
    }
}

/// Whether a step hits the breakpoint of a rank, told by the state after it.
fn rank_hits_step(core: &Core<'_>, rank: usize, step: Step) -> bool
    ensures { result ≡ rank_hits rank step core.now.world }
{
    is_step_of(rank, step) && is_unblocked(core, rank)
}

/// The call that a handle of a rank holds, if any.
#[tactic(auto, using(crate::proofs::HitLemmas::calling))]
fn held_call(core: &Core<'_>, rank: usize, handle: usize) -> Option<usize>
    ensures { result ≡ handle_at core.now.world rank handle }
{
    if rank >= core.rank_count() {
        return None;
    }
    core.rank(rank).held_call(handle)
}

/// Whether a step hits a breakpoint of a line, of a match or of a rank, told by the state after it.
fn is_told(core: &Core<'_>, place: Option<Breakpoint>, step: Step) -> bool
    ensures { result ≡ told_by core.now.program place step core.now.world }
{
    match place {
        Some(Breakpoint::Line { line, of, when }) => line_hits_step(core, line, of, when, step),
        Some(Breakpoint::Match { line, of }) => match_hits_step(core, line, of, step),
        Some(Breakpoint::Rank(rank)) => rank_hits_step(core, rank, step),
        Some(Breakpoint::Change { .. }) | Some(Breakpoint::Handle { .. }) | None => false,
    }
}

/// A value that is watched, where it is there.
fn of_value(value: Option<i64>) -> Watched
    ensures { result ≡ of_value value }
{
    match value {
        None => Watched::Nothing,
        Some(value) => Watched::Value(value),
    }
}

/// A call that is watched, where there is one.
fn of_call(call: Option<usize>) -> Watched
    ensures { result ≡ of_call call }
{
    match call {
        None => Watched::Nothing,
        Some(call) => Watched::Call(call),
    }
}

/// What a breakpoint watches.
fn watched_by(core: &Core<'_>, stop: Breakpoint) -> Watched
    ensures { result ≡ watched_by core.now.world stop }
{
    match stop {
        Breakpoint::Change { rank, cell: number } => of_value(cell(core, rank, number)),
        Breakpoint::Handle { rank, handle } => of_call(held_call(core, rank, handle)),
        Breakpoint::Line { .. } | Breakpoint::Match { .. } | Breakpoint::Rank(_) =>
            Watched::Nothing,
    }
}

/// What the breakpoint of a place watches.
fn watched_at(core: &Core<'_>, place: Option<Breakpoint>) -> Watched
    ensures { result ≡ watched_at core.now.world place }
{
    match place {
        None => Watched::Nothing,
        Some(stop) => watched_by(core, stop),
    }
}

/// Whether what is watched differs.
fn differ(one: Watched, other: Watched) -> bool
    ensures { result ≡ not (same_watched one other) }
{
    match (one, other) {
        (Watched::Nothing, Watched::Nothing) => false,
        (Watched::Value(one), Watched::Value(other)) => one != other,
        (Watched::Call(one), Watched::Call(other)) => one != other,
        _ => true,
    }
}

/// Whether what the breakpoint of a place watches is another than it was.
fn is_changed(core: &Core<'_>, place: Option<Breakpoint>, value: Watched) -> bool
    ensures { result ≡ changed_by value place core.now.world }
{
    match place {
        None => false,
        Some(stop) => differ(value, watched_by(core, stop)),
    }
}

impl Breaks {
    /// What the breakpoints watch, by number.
    #[tactic(auto, using(crate::proofs::WatchLemmas::watching))]
    pub(crate) fn watch(&self, core: &Core<'_>) -> [Watched; BREAKS_MAX]
        ensures { (n : ℕ) → slice_index_or result n Nothing ≡ watched_at core.now.world (break_at self.now n) }
    {
        let mut values = [Watched::Nothing; BREAKS_MAX];
        let count = self.bound();
        for number in 0..count {
            values[number] = watched_at(core, self.breakpoint(number));
        }
        values
    }

    /// The lowest number of a breakpoint of a line, of a match or of a rank that a step hits, told by the state after it.
    #[tactic(auto, using(crate::proofs::NumberLemmas::numbering))]
    pub(crate) fn lowest_told(&self, core: &Core<'_>, step: Step) -> Option<usize>
        ensures { result ≡ lowest_told core.now.program self.now step core.now.world }
    {
        let count = self.bound();
        for number in 0..count {
            if is_told(core, self.breakpoint(number), step) {
                return Some(number);
            }
        }
        None
    }

    /// The lowest number of a breakpoint that watches another value or call than it did.
    #[tactic(auto, using(crate::proofs::NumberLemmas::numbering))]
    pub(crate) fn lowest_changed(
        &self,
        core: &Core<'_>,
        values: &[Watched; BREAKS_MAX],
    ) -> Option<usize>
        ensures { result ≡ lowest_changed self.now values.now core.now.world }
    {
        let count = self.bound();
        for number in 0..count {
            if is_changed(core, self.breakpoint(number), values[number]) {
                return Some(number);
            }
        }
        None
    }
}

/// The lower of two numbers, where there are some.
pub(crate) fn lower(one: Option<usize>, other: Option<usize>) -> Option<usize>
    ensures { result ≡ lower one other }
{
    match (one, other) {
        (Some(one), Some(other)) => { if other < one { Some(other) } else { Some(one) } }
        (Some(one), None) => Some(one),
        (None, other) => other,
    }
}
