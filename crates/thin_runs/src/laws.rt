// What the thin form gives a kernel.
ghost use Rattle.std.specs.Prelude.{IsTrue, List};
ghost use Rattle.form_meaning.specs.Thin.{are_thin};
ghost use Rattle.py_tree.specs.Trees.{Cell};
ghost use Rattle.visit_meaning.specs.Runnable.{Runnable};

/// A kernel can run each notebook of the thin form.
pub fn thin_is_runnable()
    ensures { (nb : List Cell) → IsTrue (are_thin nb) → Runnable nb }
{}
