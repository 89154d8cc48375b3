// Laws, proved from the definitions.
ghost use Rattle.std.specs.Prelude.{ℕ, List};
ghost use Rattle.lexical_form.specs.Answer.{IsAnswer, accepted};
ghost use Rattle.lexical_form.specs.LogicalLines.{Line};
ghost use Rattle.py_tree.specs.Trees.{Tree, Head};
ghost use Rattle.syntax_form.specs.Levelled.{Levelled};
ghost use Rattle.syntax_form.specs.LinePrinting.{head_tokens};
ghost use Rattle.syntax_form.specs.Lines.{HeadLevelled};
ghost use Rattle.syntax_form.specs.Printing.{tokens};
ghost use Rattle.syntax_form.specs.SpelledTokens.{AreTokens, HoldTokens};

/// The tokens of logical lines are spelled as tokens, as those must be that are read as expressions.
pub fn lines_of_tokens()
    ensures { (bytes : List ℕ) (lines : List Line) → IsAnswer bytes (accepted lines) → HoldTokens lines }
{}

/// What spells a levelled expression, or a levelled line, is spelled as tokens.
pub fn printed_tokens()
    ensures expressions { (t : Tree) → Levelled t → AreTokens (tokens t) }
    ensures lines { (h : Head) → HeadLevelled h → AreTokens (head_tokens h) }
{}
