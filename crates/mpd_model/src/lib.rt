//! The types of a script and of its state, and in `specs/` every definition that contracts cite.
#![tactic(auto)]

pub mod breakpoint;
pub mod call;
pub mod comparison;
pub mod decision;
pub mod device;
pub mod expr;
pub mod failing;
pub mod kind;
pub mod limits;
pub mod lines;
pub mod mode;
pub mod outcome;
pub mod place;
pub mod read_fault;
pub mod script;
pub mod slot;
pub mod step;
pub mod stmt;
pub mod text;
pub mod token;
pub mod words;

pub use breakpoint::{Breakpoint, Cause, Condition, Stop};
pub use call::{
    Activity, Call, CallKind, Issue, MatchSet, Message, Mode, RecvCall, SendCall, StatusCells,
    Trap, WaitCall, WaitanyCall,
};
pub use comparison::{Comparison, comparison_of};
pub use decision::{Decision, StepList};
pub use device::{DeviceFault, FromReader, Sink, Source, ToWriter};
pub use expr::{BinaryOp, Expr, ExprNode, UnaryOp};
pub use failing::{FailingSink, FailingSource, Limit};
pub use kind::{blocks, is_barrier};
pub use limits::{
    BLOCKS_MAX, BREAKS_MAX, CELLS_MAX, HANDLES_MAX, LANGUAGE_MAX, LINE_MAX, NAME_MAX, NESTING_MAX,
    RANKS_MAX, READS_MAX, RUNS_MAX, SCRIPT_MAX, SLOTS_MAX, STATEMENTS_MAX, STEPS_MAX, TAGS,
};
pub use lines::{bare_line, cut_line, lines_lose_nothing, without_return};
pub use mode::mode_of;
pub use outcome::{CallList, IssuedCall, IssuedList, Outcome, TrapList, TrappedRank};
pub use place::{Decl, DeclKind, Place};
pub use read_fault::{FaultCode, ReadFault};
pub use script::Script;
pub use slot::Slot;
pub use step::{CallId, Step};
pub use stmt::{
    AssignStmt, IrecvStmt, IsendStmt, RecvStmt, SendStmt, Simple, StatusStmt, Stmt, StmtNode,
    Target, WaitanyStmt,
};
pub use text::{print_outcome, print_step, push_compared, push_meant, recv_word, send_word};
pub use token::{Class, RESERVED, Symbol, Token};
pub use words::{TraceWord, call_of, has_word, next_word, number_of, step_of, trace_word_of};
