// Worked expressions and lines, computed from the definitions.
ghost use Rattle.syntax_reading.specs.Worked.{AreExpressions, AreLines};
ghost use Rattle.syntax_reading.specs.WorkedExpressions.{operator_rows, comparison_rows, conditional_rows, postfix_rows, leaf_rows, bracket_rows, comprehension_rows, f_text_rows, depth_rows};
ghost use Rattle.syntax_reading.specs.WorkedLines.{value_rows, assignment_rows, block_rows, other_rows, deep_rows};

/// Texts that are expressions or none.
pub fn worked_expressions()
    ensures operators { AreExpressions operator_rows }
    ensures comparisons { AreExpressions comparison_rows }
    ensures conditionals { AreExpressions conditional_rows }
    ensures postfixes { AreExpressions postfix_rows }
    ensures leaves { AreExpressions leaf_rows }
    ensures brackets { AreExpressions bracket_rows }
    ensures comprehensions { AreExpressions comprehension_rows }
    ensures f_texts { AreExpressions f_text_rows }
    ensures depths { AreExpressions depth_rows }
{}

/// Texts that are lines or none.
pub fn worked_lines()
    ensures values { AreLines value_rows }
    ensures assignments { AreLines assignment_rows }
    ensures blocks { AreLines block_rows }
    ensures others { AreLines other_rows }
    ensures depths { AreLines deep_rows }
{}
