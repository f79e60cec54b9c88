//! The bodies of responses that list something (docs/ADAPTER.md).

ghost use Rattle.std.specs.Prelude.{◌≡◌, IfOk};
ghost use Rattle.serde_json.specs.View.{view};
ghost use Rattle.mpd_dap.specs.Bodies as spec;

use crate::body::Json;
use crate::name::Trouble;
use crate::text::Text;
use serde_json::{Value, json};
use std::alloc::{AllocError, Global};

/// A thread.
#[derive(Drop)]
pub struct Thread {
    /// Its number.
    pub id: usize,
    /// What is told of the rank.
    pub name: Text,
}

/// What a scope has.
#[derive(Drop)]
pub struct Variable {
    /// Its name.
    pub name: Text,
    /// Its value.
    pub value: Text,
}

/// A candidate.
#[derive(Drop)]
pub struct Target {
    /// Its number from 1.
    pub id: usize,
    /// What is told of it.
    pub label: Text,
}

/// What became of a breakpoint that was wanted.
#[derive(Clone, Copy)]
pub enum Mark {
    /// It was set.
    Set {
        /// Its number, from 1.
        id: usize,
        /// The line of it.
        line: usize,
    },
    /// It was not.
    Unset {
        /// The line as it was given.
        line: usize,
        /// Why not.
        trouble: Trouble,
    },
}

/// A thread as JSON.
fn thread_value(alloc: Global, thread: &Thread) -> Result<Value, AllocError>
    ensures { IfOk result (λ v. view v ≡ spec.thread_data thread.now) }
{
    json!(in alloc; {"id": thread.id, "name": thread.name.as_str()})
}

/// Threads as a list.
fn thread_values(alloc: Global, threads: &[Thread]) -> Result<Value, AllocError>
    ensures { IfOk result (λ v. view v ≡ spec.listed spec.thread_data threads.now) }
{
    let mut values = Vec::new(alloc);
    for thread in threads {
        values.push(thread_value(alloc, thread)?)?;
    }
    Ok(Value::Array(values))
}

/// The same as an object.
#[tactic(auto, unfolding(crate::specs::Bodies::threads_data))]
fn threads_value(alloc: Global, threads: &[Thread]) -> Result<Value, AllocError>
    ensures { IfOk result (λ v. view v ≡ spec.threads_data threads.now) }
{
    json!(in alloc; {"threads": thread_values(alloc, threads)?})
}

/// The body of `threads`. An `Err` is want of memory, here and below.
#[tactic(auto, using(crate::proofs::PlainLemmas::threads_plain))]
pub fn threads(alloc: Global, threads: &[Thread]) -> Result<Json, AllocError>
    ensures { IfOk result (λ j. view j.value ≡ spec.threads_data threads.now) }
{
    let value = threads_value(alloc, threads)?;
    Ok(Json { value })
}

/// A variable as JSON.
fn variable_value(alloc: Global, variable: &Variable) -> Result<Value, AllocError>
    ensures { IfOk result (λ v. view v ≡ spec.variable_data variable.now) }
{
    json!(in alloc; {
        "name": variable.name.as_str(),
        "value": variable.value.as_str(),
        "variablesReference": 0usize
    })
}

/// Variables as a list.
fn variable_values(alloc: Global, variables: &[Variable]) -> Result<Value, AllocError>
    ensures { IfOk result (λ v. view v ≡ spec.listed spec.variable_data variables.now) }
{
    let mut values = Vec::new(alloc);
    for variable in variables {
        values.push(variable_value(alloc, variable)?)?;
    }
    Ok(Value::Array(values))
}

/// The same as an object.
#[tactic(auto, unfolding(crate::specs::Bodies::variables_data))]
fn variables_value(alloc: Global, variables: &[Variable]) -> Result<Value, AllocError>
    ensures { IfOk result (λ v. view v ≡ spec.variables_data variables.now) }
{
    json!(in alloc; {"variables": variable_values(alloc, variables)?})
}

/// The body of `variables`.
#[tactic(auto, using(crate::proofs::PlainLemmas::variables_plain))]
pub fn variables(alloc: Global, variables: &[Variable]) -> Result<Json, AllocError>
    ensures { IfOk result (λ j. view j.value ≡ spec.variables_data variables.now) }
{
    let value = variables_value(alloc, variables)?;
    Ok(Json { value })
}

/// A candidate as JSON.
fn target_value(alloc: Global, target: &Target) -> Result<Value, AllocError>
    ensures { IfOk result (λ v. view v ≡ spec.target_data target.now) }
{
    json!(in alloc; {"id": target.id, "label": target.label.as_str()})
}

/// Candidates as a list.
fn target_values(alloc: Global, targets: &[Target]) -> Result<Value, AllocError>
    ensures { IfOk result (λ v. view v ≡ spec.listed spec.target_data targets.now) }
{
    let mut values = Vec::new(alloc);
    for target in targets {
        values.push(target_value(alloc, target)?)?;
    }
    Ok(Value::Array(values))
}

/// The same as an object.
#[tactic(auto, unfolding(crate::specs::Bodies::targets_data))]
fn targets_value(alloc: Global, targets: &[Target]) -> Result<Value, AllocError>
    ensures { IfOk result (λ v. view v ≡ spec.targets_data targets.now) }
{
    json!(in alloc; {"targets": target_values(alloc, targets)?})
}

/// The body of `stepInTargets`.
#[tactic(auto, using(crate::proofs::PlainLemmas::targets_plain))]
pub fn targets(alloc: Global, targets: &[Target]) -> Result<Json, AllocError>
    ensures { IfOk result (λ j. view j.value ≡ spec.targets_data targets.now) }
{
    let value = targets_value(alloc, targets)?;
    Ok(Json { value })
}

/// A breakpoint as JSON.
fn mark_value(alloc: Global, mark: Mark) -> Result<Value, AllocError>
    ensures { IfOk result (λ v. view v ≡ spec.mark_data mark) }
{
    match mark {
        Mark::Set { id, line } => json!(in alloc; {"id": id, "line": line, "verified": true}),
        Mark::Unset { line, trouble } => {
            let text = trouble.text();
            json!(in alloc; {"line": line, "message": text, "verified": false})
        }
    }
}

/// Breakpoints as a list.
fn mark_values(alloc: Global, marks: &[Mark]) -> Result<Value, AllocError>
    ensures { IfOk result (λ v. view v ≡ spec.listed spec.mark_data marks.now) }
{
    let mut values = Vec::new(alloc);
    for mark in marks {
        values.push(mark_value(alloc, *mark)?)?;
    }
    Ok(Value::Array(values))
}

/// The same as an object.
#[tactic(auto, unfolding(crate::specs::Bodies::marks_data))]
fn marks_value(alloc: Global, marks: &[Mark]) -> Result<Value, AllocError>
    ensures { IfOk result (λ v. view v ≡ spec.marks_data marks.now) }
{
    json!(in alloc; {"breakpoints": mark_values(alloc, marks)?})
}

/// The body of `setBreakpoints`.
#[tactic(auto, using(crate::proofs::PlainLemmas::marks_plain))]
pub fn marks(alloc: Global, marks: &[Mark]) -> Result<Json, AllocError>
    ensures { IfOk result (λ j. view j.value ≡ spec.marks_data marks.now) }
{
    let value = marks_value(alloc, marks)?;
    Ok(Json { value })
}
