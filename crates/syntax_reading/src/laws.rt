// Laws of reading, proved from the definitions.
ghost use Rattle.std.specs.Prelude.{◌≡◌, ℕ, List, Some};
ghost use Rattle.lexical_form.specs.Tokens.{Token};
ghost use Rattle.py_tree.specs.Trees.{Tree, Head};
ghost use Rattle.syntax_form.specs.Expressions.{IsExpression};
ghost use Rattle.syntax_form.specs.Levelled.{Levelled};
ghost use Rattle.syntax_form.specs.LinePrinting.{head_tokens};
ghost use Rattle.syntax_form.specs.Lines.{HeadLevelled, SpellsLine, IsLine, place};
ghost use Rattle.syntax_form.specs.Printing.{tokens};
ghost use Rattle.syntax_form.specs.SpelledTokens.{AreTokens};
ghost use Rattle.syntax_reading.specs.LineReading.{read_line};
ghost use Rattle.syntax_reading.specs.Reading.{read_expression};

/// Two levelled trees with the same tokens are the same tree, also where they are tuples without brackets.
pub fn spelled_once()
    ensures { (t u : Tree) → Levelled t → Levelled u → tokens t ≡ tokens u → t ≡ u }
{}

/// Of tokens that are spelled as tokens what is read is an expression that they are; and where they are one, it is read.
pub fn expressions_are_read()
    ensures found { (limit : ℕ) (ts : List Token) (t : Tree) → AreTokens ts → read_expression limit ts ≡ Some t → IsExpression limit ts t }
    ensures only { (limit : ℕ) (ts : List Token) (t : Tree) → IsExpression limit ts t → read_expression limit ts ≡ Some t }
{}

/// Two levelled lines of one form with the same tokens are the same line; and tokens are one line at most.
pub fn lines_are_spelled_once()
    ensures form { (h k : Head) → HeadLevelled h → HeadLevelled k → place h ≡ place k → head_tokens h ≡ head_tokens k → h ≡ k }
    ensures line { (ts : List Token) (h k : Head) → IsLine ts h → IsLine ts k → h ≡ k }
{}

/// What spells a line is some line, so that to be refused is to spell none.
pub fn spelled_lines_are_lines()
    ensures { (ts : List Token) (h : Head) → SpellsLine ts h → (k : Head) × IsLine ts k }
{}

/// Of tokens that are spelled as tokens what is read is the line that they are; and where they are one, it is read.
pub fn lines_are_read()
    ensures found { (ts : List Token) (h : Head) → AreTokens ts → read_line ts ≡ Some h → IsLine ts h }
    ensures only { (ts : List Token) (h : Head) → IsLine ts h → read_line ts ≡ Some h }
{}
