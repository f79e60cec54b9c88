//! Copies of replies.

ghost use Rattle.std.specs.Prelude.{◌≡◌, ◌++◌, ◌∷◌, [], IfOk, OnOk, OnErr, true, map, string_bytes};
ghost use Rattle.mpd_session.specs.declared.reply.Answer.TheVariants as answer;
ghost use Rattle.mpd_session.specs.Copies.{holds_list, lists_in};

use crate::reply::{
    Answer, Coming, DeclList, Explained, HandleList, Holding, HoldingList, IntegerList, NumberList,
    PartnerList, Reply, Text, TextList,
};
use mpd_explain::{PlacedStepList, copy_end, copy_losses, copy_steps};
use mpd_model::{CallId, Decl, Mode};
use std::alloc::{AllocError, Global};

/// Adds a copy of a text.
fn push_copy(alloc: Global, copies: &mut Vec<String>, text: &str) -> Result<(), AllocError>
    ensures { OnOk result (map string_bytes copies.new.items ≡ map string_bytes copies.old.items ++ text.now ∷ []) }
{
    copies.push(String::from_str(alloc, text)?)?;
    Ok(())
}

/// Texts of their own.
fn copy_texts(alloc: Global, texts: &[String]) -> Result<TextList, AllocError>
    ensures { IfOk result (λ copy. copy ≡ map string_bytes texts.now) }
{
    let mut items = Vec::new(alloc);
    for text in texts {
        push_copy(alloc, &mut items, text.as_str())?;
    }
    Ok(TextList { items })
}

/// A text of its own, if there is one.
fn copy_text(alloc: Global, text: &Option<Text>) -> Result<Option<Text>, AllocError>
    ensures { IfOk result (λ copy. copy ≡ text.now) }
{
    match text {
        None => Ok(None),
        Some(text) => Ok(Some(Text {
            string: String::from_str(alloc, text.string.as_str())?,
        })),
    }
}

/// Numbers of their own.
fn copy_integers(alloc: Global, numbers: &[i64]) -> Result<IntegerList, AllocError>
    ensures { IfOk result (λ copy. copy ≡ numbers.now) }
{
    Ok(IntegerList {
        items: Vec::from_slice(alloc, numbers)?,
    })
}

/// Handles of their own.
fn copy_handles(alloc: Global, handles: &[Option<usize>]) -> Result<HandleList, AllocError>
    ensures { IfOk result (λ copy. copy ≡ handles.now) }
{
    Ok(HandleList {
        items: Vec::from_slice(alloc, handles)?,
    })
}

/// A state of its own, of lists that are already its own.
fn with_outcome(
    alloc: Global,
    depth: usize,
    ranks: TextList,
    sets: TextList,
    undone: usize,
    outcome: &Option<Text>,
) -> Result<Answer, AllocError>
    ensures { IfOk result (λ copy. copy ≡ answer.State depth ranks sets undone outcome.now) }
{
    match copy_text(alloc, outcome) {
        Ok(outcome) => Ok(Answer::State {
            depth,
            ranks,
            sets,
            undone,
            outcome,
        }),
        Err(refused) => {
            drop(ranks);
            drop(sets);
            Err(refused)
        }
    }
}

/// A state of its own.
fn copy_state(
    alloc: Global,
    depth: usize,
    ranks: &TextList,
    sets: &TextList,
    undone: usize,
    outcome: &Option<Text>,
) -> Result<Answer, AllocError>
    ensures { IfOk result (λ copy. copy ≡ answer.State depth ranks.now sets.now undone outcome.now) }
{
    let ranks = copy_texts(alloc, &ranks.items)?;
    match copy_texts(alloc, &sets.items) {
        Ok(sets) => with_outcome(alloc, depth, ranks, sets, undone, outcome),
        Err(refused) => {
            drop(ranks);
            Err(refused)
        }
    }
}

/// What a rank holds, of its own, of cells and handles that are already its own.
fn with_output(
    alloc: Global,
    vars: IntegerList,
    handles: HandleList,
    out: &IntegerList,
) -> Result<Answer, AllocError>
    ensures { IfOk result (λ copy. copy ≡ answer.Vars vars handles out.now) }
{
    match copy_integers(alloc, &out.items) {
        Ok(out) => Ok(Answer::Vars { vars, handles, out }),
        Err(refused) => {
            drop(vars);
            drop(handles);
            Err(refused)
        }
    }
}

/// What a rank holds, of its own.
fn copy_vars(
    alloc: Global,
    vars: &IntegerList,
    handles: &HandleList,
    out: &IntegerList,
) -> Result<Answer, AllocError>
    ensures { IfOk result (λ copy. copy ≡ answer.Vars vars.now handles.now out.now) }
{
    let vars = copy_integers(alloc, &vars.items)?;
    match copy_handles(alloc, &handles.items) {
        Ok(handles) => with_output(alloc, vars, handles, out),
        Err(refused) => {
            drop(vars);
            Err(refused)
        }
    }
}

/// Leaves of their own, and whether there are more.
fn copy_leaves(alloc: Global, leaves: &TextList, more: bool) -> Result<Answer, AllocError>
    ensures { IfOk result (λ copy. copy ≡ answer.Explored leaves.now more) }
{
    let leaves = copy_texts(alloc, &leaves.items)?;
    Ok(Answer::Explored { leaves, more })
}

/// Numbers of lines, ranks or calls of their own.
fn copy_numbers(alloc: Global, numbers: &[usize]) -> Result<NumberList, AllocError>
    ensures { IfOk result (λ copy. copy ≡ numbers.now) }
{
    Ok(NumberList {
        items: Vec::from_slice(alloc, numbers)?,
    })
}

/// Partners of their own.
fn copy_partners(alloc: Global, partners: &[Option<CallId>]) -> Result<PartnerList, AllocError>
    ensures { IfOk result (λ copy. copy ≡ partners.now) }
{
    Ok(PartnerList {
        items: Vec::from_slice(alloc, partners)?,
    })
}

/// A script of its own.
fn copy_script(
    alloc: Global,
    ranks: usize,
    mode: Mode,
    vars: &TextList,
    handles: &TextList,
    lines: &NumberList,
) -> Result<Answer, AllocError>
    ensures { IfOk result (λ copy. copy ≡ answer.Script ranks mode vars.now handles.now lines.now) }
{
    Ok(Answer::Script {
        ranks,
        mode,
        vars: copy_texts(alloc, &vars.items)?,
        handles: copy_texts(alloc, &handles.items)?,
        lines: copy_numbers(alloc, &lines.items)?,
    })
}

/// What a rank holds, of its own.
fn copy_holding(alloc: Global, holding: &Holding) -> Result<Holding, AllocError>
    ensures { IfOk result (λ copy. copy ≡ holding.now) }
{
    Ok(Holding {
        vars: copy_integers(alloc, &holding.vars.items)?,
        handles: copy_handles(alloc, &holding.handles.items)?,
        out: copy_integers(alloc, &holding.out.items)?,
    })
}

/// What ranks hold, of their own.
fn copy_holdings(alloc: Global, holdings: &[Holding]) -> Result<HoldingList, AllocError>
    ensures { IfOk result (λ copy. copy ≡ holdings.now) }
{
    let mut items = Vec::new(alloc);
    for holding in holdings {
        items.push(copy_holding(alloc, holding)?)?;
    }
    Ok(HoldingList { items })
}

/// What ranks hold, of their own, if it is told.
fn copy_held(alloc: Global, held: &Option<HoldingList>) -> Result<Option<HoldingList>, AllocError>
    ensures { IfOk result (λ copy. copy ≡ held.now) }
{
    match held {
        None => Ok(None),
        Some(held) => Ok(Some(copy_holdings(alloc, &held.items)?)),
    }
}

/// Where ranks stand, of their own.
fn copy_where(
    alloc: Global,
    ranks: &TextList,
    lines: &HandleList,
    ready: &NumberList,
    held: &Option<HoldingList>,
) -> Result<Answer, AllocError>
    ensures { IfOk result (λ copy. copy ≡ answer.Where ranks.now lines.now ready.now held.now) }
{
    Ok(Answer::Where {
        ranks: copy_texts(alloc, &ranks.items)?,
        lines: copy_handles(alloc, &lines.items)?,
        ready: copy_numbers(alloc, &ready.items)?,
        held: copy_held(alloc, held)?,
    })
}

/// A declaration of its own.
fn copy_decl(alloc: Global, decl: &Decl) -> Result<Decl, AllocError>
    ensures { IfOk result (λ copy. copy ≡ decl.now) }
{
    Ok(Decl {
        kind: decl.kind,
        name: String::from_str(alloc, decl.name.as_str())?,
        size: decl.size,
    })
}

/// Declarations of their own.
pub(crate) fn copy_decls(alloc: Global, decls: &[Decl]) -> Result<DeclList, AllocError>
    ensures { IfOk result (λ copy. copy ≡ decls.now) }
{
    let mut items = Vec::new(alloc);
    for decl in decls {
        items.push(copy_decl(alloc, decl)?)?;
    }
    Ok(DeclList { items })
}

/// What comes next, of its own.
fn copy_decided(
    alloc: Global,
    coming: Coming,
    steps: &PlacedStepList,
    decls: &DeclList,
    outcome: &Option<Text>,
) -> Result<Answer, AllocError>
    ensures { IfOk result (λ copy. copy ≡ answer.Decided coming steps.now decls.now outcome.now) }
{
    Ok(Answer::Decided {
        coming,
        steps: copy_steps(alloc, &steps.items)?,
        decls: copy_decls(alloc, &decls.items)?,
        outcome: copy_text(alloc, outcome)?,
    })
}

/// Steps that are taken or ahead, of their own.
fn copy_listed(
    alloc: Global,
    depth: usize,
    steps: &TextList,
    undone: usize,
) -> Result<Answer, AllocError>
    ensures { IfOk result (λ copy. copy ≡ answer.Steps depth steps.now undone) }
{
    let steps = copy_texts(alloc, &steps.items)?;
    Ok(Answer::Steps {
        depth,
        steps,
        undone,
    })
}

/// Lines of calls and their partners, of their own.
fn copy_lines(
    alloc: Global,
    lines: &NumberList,
    partners: &PartnerList,
) -> Result<Answer, AllocError>
    ensures { IfOk result (λ copy. copy ≡ answer.Lines lines.now partners.now) }
{
    Ok(Answer::Lines {
        lines: copy_numbers(alloc, &lines.items)?,
        partners: copy_partners(alloc, &partners.items)?,
    })
}

/// How a run has ended, of its own.
fn copy_end_of(alloc: Global, told: &Explained) -> Result<Explained, AllocError>
    ensures { IfOk result (λ copy. copy ≡ told.now) }
{
    Ok(Explained {
        end: copy_end(alloc, &told.end)?,
        lost: copy_losses(alloc, &told.lost.items)?,
        decls: copy_decls(alloc, &told.decls.items)?,
    })
}

/// The same, if it has ended.
fn copy_explained(alloc: Global, told: &Option<Explained>) -> Result<Option<Explained>, AllocError>
    ensures { IfOk result (λ copy. copy ≡ told.now) }
{
    match told {
        None => Ok(None),
        Some(told) => Ok(Some(copy_end_of(alloc, told)?)),
    }
}

/// An answer of its own. `Err` means that memory was refused, which happens only if the answer has
/// a list.
fn copy_answer(alloc: Global, answer: &Answer) -> Result<Answer, AllocError>
    ensures same { IfOk result (λ copy. copy ≡ answer.now) }
    ensures memory { OnErr result (lists_in answer.now ≡ true) }
{
    match answer {
        Answer::Depth(depth) => Ok(Answer::Depth(*depth)),
        Answer::Stepped { depth, step } => Ok(Answer::Stepped {
            depth: *depth,
            step: *step,
        }),
        Answer::Ran { depth, stop } => Ok(Answer::Ran {
            depth: *depth,
            stop: *stop,
        }),
        Answer::Enabled(steps) => copy_texts(alloc, &steps.items).map(Answer::Enabled),
        Answer::State {
            depth,
            ranks,
            sets,
            undone,
            outcome,
        } => copy_state(alloc, *depth, ranks, sets, *undone, outcome),
        Answer::Vars { vars, handles, out } => copy_vars(alloc, vars, handles, out),
        Answer::Calls(calls) => copy_texts(alloc, &calls.items).map(Answer::Calls),
        Answer::Partners(partners) => copy_texts(alloc, &partners.items).map(Answer::Partners),
        Answer::Added(number) => Ok(Answer::Added(*number)),
        Answer::Removed => Ok(Answer::Removed),
        Answer::Breaks(breaks) => copy_texts(alloc, &breaks.items).map(Answer::Breaks),
        Answer::Hit(hit) => Ok(Answer::Hit(*hit)),
        Answer::Explored { leaves, more } => copy_leaves(alloc, leaves, *more),
        Answer::Script {
            ranks,
            mode,
            vars,
            handles,
            lines,
        } => copy_script(alloc, *ranks, *mode, vars, handles, lines),
        Answer::Where {
            ranks,
            lines,
            ready,
            held,
        } => copy_where(alloc, ranks, lines, ready, held),
        Answer::Decided {
            coming,
            steps,
            decls,
            outcome,
        } => copy_decided(alloc, *coming, steps, decls, outcome),
        Answer::Steps {
            depth,
            steps,
            undone,
        } => copy_listed(alloc, *depth, steps, *undone),
        Answer::Lines { lines, partners } => copy_lines(alloc, lines, partners),
        Answer::Explained(told) => copy_explained(alloc, told).map(Answer::Explained),
    }
}

impl Reply {
    /// A reply of its own. `Err` means that memory was refused, which happens only if the reply has
    /// a list.
    pub fn copy(&self, alloc: Global) -> Result<Reply, AllocError>
        ensures same { IfOk result (λ copy. copy ≡ self.now) }
        ensures memory { OnErr result (holds_list self.now ≡ true) }
    {
        match self {
            Reply::Refused(refusal) => Ok(Reply::Refused(*refusal)),
            Reply::Done { version, answer } => Ok(Reply::Done {
                version: *version,
                answer: copy_answer(alloc, answer)?,
            }),
        }
    }
}
