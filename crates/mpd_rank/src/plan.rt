//! What the next statement of a rank does, before it is done.

ghost use Rattle.std.specs.Prelude.{◌≡◌, IfSome};
ghost use Rattle.mpd_rank.specs.Plans.{plan_call, plan_of, simple_plan, print_plan, assign_plan, issue_plan, assert_plan, choice_plan};

use mpd_code::{
    Action, Env, Node, barrier, eval, eval_assign, eval_irecv, eval_isend, eval_issend, eval_recv,
    eval_send, eval_ssend, eval_wait, eval_waitany,
};
use mpd_model::{Call, Issue, Simple, Trap};

/// What a local step does that issues no call.
#[derive(Clone, Copy)]
pub enum Alone {
    /// Goes on at a node.
    Move { next: u32 },
    /// Appends a value to the output.
    Print { value: i64, next: u32 },
    /// Writes a cell.
    Assign { cell: usize, value: i64, next: u32 },
    Trap(Trap),
}

/// What a local step does. A plan without a call is small, and a call large: so `Alone` is a type of its own.
#[derive(Clone, Copy)]
pub enum LocalPlan {
    /// Issues no call.
    Alone(Alone),
    /// Issues a call.
    Issue { issue: Issue, next: u32 },
}

impl LocalPlan {
    /// The call that this step issues, if it issues one, as a call of the statement of a number.
    pub fn call(self, statement: usize) -> Option<Call>
        ensures { result ≡ plan_call statement self }
    {
        match self {
            LocalPlan::Issue { issue, next: _ } => Some(Call {
                statement,
                kind: issue.kind,
            }),
            LocalPlan::Alone(_) => None,
        }
    }
}

fn plan_print(value: Result<i64, Trap>, next: u32) -> Alone
    ensures { result ≡ print_plan value next }
{
    match value {
        Ok(value) => Alone::Print { value, next },
        Err(trap) => Alone::Trap(trap),
    }
}

#[inline(always)]
fn plan_assign(write: Result<(usize, i64), Trap>, next: u32) -> Alone
    ensures { result ≡ assign_plan write next }
{
    match write {
        Ok((cell, value)) => Alone::Assign { cell, value, next },
        Err(trap) => Alone::Trap(trap),
    }
}

fn plan_issue(issue: Result<Issue, Trap>, next: u32) -> LocalPlan
    ensures { result ≡ issue_plan issue next }
{
    match issue {
        Ok(issue) => LocalPlan::Issue { issue, next },
        Err(trap) => LocalPlan::Alone(Alone::Trap(trap)),
    }
}

fn plan_assert(test: Result<i64, Trap>, next: u32) -> Alone
    ensures { result ≡ assert_plan test next }
{
    match test {
        Ok(0) => Alone::Trap(Trap::Assertion),
        Ok(_) => Alone::Move { next },
        Err(trap) => Alone::Trap(trap),
    }
}

/// Goes on at one node if the test holds, else at the other.
#[inline(always)]
fn plan_choice(test: Result<i64, Trap>, holds: u32, fails: u32) -> Alone
    ensures { result ≡ choice_plan test holds fails }
{
    match test {
        Ok(0) => Alone::Move { next: fails },
        Ok(_) => Alone::Move { next: holds },
        Err(trap) => Alone::Trap(trap),
    }
}

/// What a statement that holds no other does, and the node that follows it.
fn plan_simple(simple: &Simple, env: &Env<'_>, next: u32) -> LocalPlan
    ensures { result ≡ simple_plan simple.now next env.now }
{
    match simple {
        Simple::Print(value) => LocalPlan::Alone(plan_print(eval(value, env), next)),
        Simple::Assign(assign) => LocalPlan::Alone(plan_assign(eval_assign(assign, env), next)),
        Simple::Assert(test) => LocalPlan::Alone(plan_assert(eval(test, env), next)),
        Simple::Send(send) => plan_issue(eval_send(send, env), next),
        Simple::Ssend(send) => plan_issue(eval_ssend(send, env), next),
        Simple::Recv(recv) => plan_issue(eval_recv(recv, env), next),
        Simple::Isend(isend) => plan_issue(eval_isend(isend, env), next),
        Simple::Issend(issend) => plan_issue(eval_issend(issend, env), next),
        Simple::Irecv(irecv) => plan_issue(eval_irecv(irecv, env), next),
        Simple::Wait(handle) => plan_issue(eval_wait(handle, env), next),
        Simple::Waitany(waitany) => plan_issue(eval_waitany(waitany, env), next),
        Simple::Barrier => plan_issue(Ok(barrier()), next),
    }
}

/// What a statement that holds no other does, and the node that follows it, if it is of a kind that
/// issues no call.
#[inline(always)]
fn plan_own(simple: &Simple, env: &Env<'_>, next: u32) -> Option<Alone>
    ensures { IfSome result (λ plan. LocalPlan.Alone plan ≡ simple_plan simple.now next env.now) }
{
    match simple {
        Simple::Print(value) => Some(plan_print(eval(value, env), next)),
        Simple::Assign(assign) => Some(plan_assign(eval_assign(assign, env), next)),
        Simple::Assert(test) => Some(plan_assert(eval(test, env), next)),
        _ => None,
    }
}

/// What a node does, if it is of a kind that issues no call.
#[inline(always)]
pub(crate) fn plan_alone(node: &Node, env: &Env<'_>) -> Option<Alone>
    ensures { IfSome result (λ plan. LocalPlan.Alone plan ≡ plan_of node.now.action node.now.next env.now) }
{
    match &node.action {
        Action::Simple(simple) => plan_own(simple, env, node.next),
        Action::Branch {
            test,
            first,
            second,
        } => Some(plan_choice(eval(test, env), *first, *second)),
        Action::Repeat { test, body } => Some(plan_choice(eval(test, env), *body, node.next)),
    }
}

/// What a node does.
pub(crate) fn plan_node(node: &Node, env: &Env<'_>) -> LocalPlan
    ensures { result ≡ plan_of node.now.action node.now.next env.now }
{
    match &node.action {
        Action::Simple(simple) => plan_simple(simple, env, node.next),
        Action::Branch {
            test,
            first,
            second,
        } => LocalPlan::Alone(plan_choice(eval(test, env), *first, *second)),
        Action::Repeat { test, body } => {
            let plan = plan_choice(eval(test, env), *body, node.next);
            LocalPlan::Alone(plan)
        }
    }
}
