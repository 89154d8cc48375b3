// Worked examples, proved from the definitions.
ghost use Rattle.std.specs.Prelude.{[], ◌∷◌, ◌++◌, codes};
ghost use Rattle.form_meaning.specs.Fails.{FailsAt};
ghost use Rattle.form_meaning.specs.Thin.{file_lines};
ghost use Rattle.py_tree.specs.TextLines.{text_of};

/// At which lines small inputs fail: the empty file at its first line, and the file of no cells with a line `q` behind it at that line.
pub fn worked_failures()
    ensures empty { FailsAt [] 1 }
    ensures behind { FailsAt (text_of (file_lines [] ++ codes "q" ∷ [])) 5 }
{}
