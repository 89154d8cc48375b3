// Laws of files of the form, and of bytes that have it not.
ghost use Rattle.std.specs.Prelude.{◌≡◌, ℕ, IsTrue, List};
ghost use Rattle.form_meaning.specs.Fails.{IsFormless, FailsAt};
ghost use Rattle.form_meaning.specs.Thin.{Elements, IsForm, is_line, are_thin, line_text, file_lines};
ghost use Rattle.py_tree.specs.TextLines.{text_of};
ghost use Rattle.py_tree.specs.Trees.{Head, Cell};

/// A file of the form is the file of one notebook alone.
pub fn printing_is_one_to_one()
    ensures lines { (es fs : Elements) (a b : Head) → IsTrue (is_line es a) → IsTrue (is_line fs b)
        → line_text a ≡ line_text b → a ≡ b }
    ensures files { (nb other : List Cell) → IsTrue (are_thin nb) → IsTrue (are_thin other)
        → text_of (file_lines nb) ≡ text_of (file_lines other) → nb ≡ other }
    ensures form { (bytes : List ℕ) (nb other : List Cell) → IsForm bytes nb → IsForm bytes other
        → nb ≡ other }
{}

/// A file of the form fails at no line, and other bytes fail at one line: not at two, and it isn't so that they fail at none.
pub fn one_failure()
    ensures none { (bytes : List ℕ) (n : ℕ) → FailsAt bytes n → IsFormless bytes }
    ensures line { (bytes : List ℕ) (m n : ℕ) → FailsAt bytes m → FailsAt bytes n → m ≡ n }
    ensures some { (bytes : List ℕ) → IsFormless bytes → ((n : ℕ) → FailsAt bytes n → ⊥) → ⊥ }
{}
