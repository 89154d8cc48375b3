// What holds of every visit.
ghost use Rattle.std.specs.Prelude.{◌≡◌, ℕ, List, [], ◌∷◌, Some, sum};
ghost use Rattle.messages.specs.declared.message.Message.TheVariants.{Open};
ghost use Rattle.visit_meaning.specs.Answer.{work};
ghost use Rattle.visit_meaning.specs.Whole.{whole};
ghost use Rattle.kernel.specs.Visit.{Visit, begun};
ghost use Rattle.kernel.specs.Calls.{Call, GoesOn, Leads, IsSolo, taken_by, given_by};
ghost use Rattle.py_tree.specs.Trees.{Cell};
ghost use Rattle.py_tree.specs.declared.tree.CellCode.{CellCode};

/// Whatever calls of `deliver` and `step` that don't answer `Memory` follow one another from the beginning of a visit, the frames that were given
/// and those that are still to come are exactly the frames of a visitor alone who sends the messages that were taken or closed the visit; the steps that
/// were counted, with those of the frames to come, are exactly those of the cells that run for them; and newest frames and state are those to which
/// these lead.
pub fn every_visit()
    ensures solo { (nb : List CellCode) (budget : ℕ) (calls : List Call) (after : Visit)
        (count count_after : ℕ)
        → Leads calls (begun nb budget) after count count_after
        → IsSolo nb budget (taken_by calls) (given_by calls) after count count_after }

    // So it is from any visit on, with the frames that were still to come there before those of the answers.
    ensures onward { (calls : List Call) (v after : Visit) (count count_after : ℕ)
        → Leads calls v after count count_after
        → GoesOn v (taken_by calls) (given_by calls) after count count_after }
{}

/// The messages of a visitor who only opens a notebook cost what the whole notebook costs.
pub fn opening_costs()
    ensures whole { (nb : List Cell) (budget : ℕ)
        → work nb budget (Some Open ∷ []) ≡ sum (whole nb budget []).costs }
{}
