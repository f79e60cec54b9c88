//! The limits of a script, of a run and of its devices (docs/LANGUAGE.md, "Limits"; docs/FORMATS.md). Each stands here once: code
//! and definitions cite it.

/// The newest version of the language; the first is 1.
pub const LANGUAGE_MAX: usize = 2;

/// Bytes of a script.
pub const SCRIPT_MAX: usize = 65_536;

/// Bytes of a name.
pub const NAME_MAX: usize = 64;

/// Statements of a script, nested ones included.
pub const STATEMENTS_MAX: usize = 4_096;

/// Cells of all variables of a script.
pub const CELLS_MAX: usize = 1_024;

/// Handles of all requests of a script.
pub const HANDLES_MAX: usize = 256;

/// Blocks that are open at once.
pub const BLOCKS_MAX: usize = 64;

/// Operators and brackets of one expression.
pub const NESTING_MAX: usize = 64;

/// Ranks that run a script; there is 1 at least.
pub const RANKS_MAX: usize = 16;

/// Tags of messages: 0 to one less than this (MPI 4.0, section 3.2.2, asks for as many at least).
pub const TAGS: usize = 32_768;

/// Slots for buffered sends of a rank, in a mode that has them.
pub const SLOTS_MAX: usize = 65_536;

/// Steps of a trail, undone ones included.
pub const STEPS_MAX: usize = 1_000_000;

/// Runs that a report lists.
pub const RUNS_MAX: usize = 65_536;

/// Breakpoints of a run.
pub const BREAKS_MAX: usize = 64;

/// Bytes of a line of trace words, without its line feed and a carriage return before that.
pub const LINE_MAX: usize = 4_096;

/// Reads by one engine.
pub const READS_MAX: usize = 1_000_000;
