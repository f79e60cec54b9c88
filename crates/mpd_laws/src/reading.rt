//! What holds of the grammar (docs/LANGUAGE.md, "Grammar").

ghost use Rattle.mpd_model.specs.grammar.ReaderLaws as law;

/// What is read as an expression is also written so by the grammar.
pub fn expressions_are_written()
    ensures { law.ExpressionsAreWritten }
{}

/// What is read as statements is also written so by the grammar, and each is noted with the line of
/// its first token, in text order.
pub fn statements_are_written()
    ensures { law.StatementsAreWritten }
{}

/// What is read as a script is also written so by the grammar, from the first token of the text to
/// its last.
pub fn scripts_are_written()
    ensures { law.ScriptsAreWritten }
{}

/// What is read as statements is of the version that the text is in.
pub fn statements_are_of_version()
    ensures { law.StatementsAreOfVersion }
{}

/// What is read as a script is in a version that there is, and has no statement that came later.
pub fn scripts_are_of_version()
    ensures { law.ScriptsAreOfVersion }
{}

/// Refused memory is no fault of a text: if `read` gives another fault, the definition gives that
/// one and no other.
pub fn no_text_is_memory()
    ensures { law.NoTextIsMemory }
{}

/// More depth than an expression has budget changes nothing.
pub fn depth_is_enough()
    ensures { law.DepthIsEnough }
{}

/// More turns than there are tokens change nothing of statements and declarations.
pub fn turns_are_enough()
    ensures { law.TurnsAreEnough }
{}

/// The budget of an expression decides nothing but whether it is too deep.
pub fn budget_decides_depth_alone()
    ensures { law.BudgetDecidesDepthAlone }
{}

/// How many blocks may be opened decides nothing but whether one is too deep.
pub fn blocks_decide_depth_alone()
    ensures { law.BlocksDecideDepthAlone }
{}

/// What the grammar writes as an expression is read as that, if its brackets and operators are
/// within the budget and no operator follows it.
pub fn written_expressions_are_read()
    ensures { law.WrittenExpressionsAreRead }
{}

/// What is written as statements, within the limits of expressions, blocks and their number, is read as those.
pub fn written_statements_are_read()
    ensures { law.WrittenStatementsAreRead }
{}

/// What is written as a script, within the limits, is read as that.
pub fn written_scripts_are_read()
    ensures { law.WrittenScriptsAreRead }
{}
