// Laws, proved from the definitions.
ghost use Rattle.std.specs.Prelude.{◌≡◌, ◌↔◌, ◌∷◌, ◌++◌, ℕ, true, List, [], Option, Some};
ghost use Rattle.frames.specs.declared.frame.CellFrame.{CellFrame};
ghost use Rattle.graph_meaning.specs.Graph.{elements_of, order, NoneDoubled, NoneCyclic};
ghost use Rattle.graph_meaning.specs.Reruns.{rerun};
ghost use Rattle.py_tree.specs.Names.{Name, is_among};
ghost use Rattle.py_tree.specs.Trees.{Cell};
ghost use Rattle.py_value.specs.ElementData.{ElementData};
ghost use Rattle.py_value.specs.Maps.{Map, look_up};
ghost use Rattle.py_value.specs.View.{value_of as value_in};
ghost use Rattle.py_value.specs.declared.types.Data.{Data};
ghost use Rattle.py_value.specs.declared.types.Value.{Value};
ghost use Rattle.messages.specs.declared.message.Message.{Message};
ghost use Rattle.messages.specs.declared.message.Message.TheVariants.{Close, Set};
ghost use Rattle.messages.specs.declared.message.SetItem.{SetItem};
ghost use Rattle.visit_meaning.specs.Answer.{State, Before, On, Ended, answer, counted, element_in, names_of, parts_from, present_after, state_after, value_set, values_sent};
ghost use Rattle.visit_meaning.specs.Rerun.{AllSent, IsAfresh, Kept, after_cells, given_by, nothing_bound, with_values};
ghost use Rattle.visit_meaning.specs.Runnable.{Runnable};
ghost use Rattle.visit_meaning.specs.Whole.{ended_ok, whole};

/// Why it suffices to run again only the cells that a change reaches, in a runnable notebook in which no name is defined twice and no cell lies
/// on a cycle.
///
/// What is kept is afresh where it is what the whole notebook gives that runs from nothing: its bindings at the end, and the frame of each
/// cell. So it is after the opening from no bindings, whatever frames were kept before. When values are set that their elements admit, they are
/// laid over the bindings, and only the cells of `rerun` run (`what_runs_again` says which they are), one after the other, each from what is
/// kept then. At the end what is kept is afresh again, with the new present values; and what the cells gave on the way, with the number of
/// these frames, is the answer to the message.
pub fn rerun_suffices()
    ensures opened { (nb : List Cell) → Runnable nb → NoneDoubled nb → NoneCyclic nb
        → (budget : ℕ) (newest : ℕ → Option CellFrame)
        → IsAfresh nb budget [] (after_cells nb budget [] (order nb) (nothing_bound newest)) }
    ensures kept { (nb : List Cell) → Runnable nb → NoneDoubled nb → NoneCyclic nb
        → (budget : ℕ) (ui : Map Value) (items : List SetItem) (kept : Kept)
        → IsAfresh nb budget ui kept → AllSent kept.env items
        → let sets : Map Value = values_sent items in
        let present : Map Value = present_after nb kept.env ui sets in
        IsAfresh nb budget present
        (after_cells nb budget present (rerun nb (names_of sets)) (with_values sets kept)) }
    ensures given { (nb : List Cell) → Runnable nb → NoneDoubled nb → NoneCyclic nb
        → (budget : ℕ) (ui : Map Value) (items : List SetItem) (kept : Kept)
        → IsAfresh nb budget ui kept → AllSent kept.env items
        → let sets : Map Value = values_sent items in
        let present : Map Value = present_after nb kept.env ui sets in
        answer nb budget (On ui) (Some (Set items)) ≡ record {
          state = On present;
          parts = counted (given_by nb budget present (rerun nb (names_of sets)) (with_values sets kept));
        } }
{}

/// What is in being where a visitor's messages have led, in a runnable notebook in which no name is defined twice and no cell lies on a cycle: an
/// element of each name that a cell creates which has ended ok, and no other; and each present value that was set is that of an element in
/// being, which admits it as it is.
pub fn elements_in_being()
    ensures being { (nb : List Cell) → Runnable nb → NoneDoubled nb → NoneCyclic nb
        → (budget : ℕ) (ms : List (Option Message)) (ui : Map Value)
        → state_after nb budget Before ms ≡ On ui → (x : Name)
        → (((e : ElementData) × (element_in (whole nb budget ui).env x ≡ Some e))
        ↔ ((c : ℕ) × (is_among x (elements_of nb c) ≡ true)
        × (ended_ok (whole nb budget ui).frames c ≡ true))) }
    ensures present { (nb : List Cell) → Runnable nb → NoneDoubled nb → NoneCyclic nb
        → (budget : ℕ) (ms : List (Option Message)) (ui : Map Value)
        → state_after nb budget Before ms ≡ On ui → (x : Name) (v : Value) → look_up x ui ≡ Some v
        → (e : ElementData) × (d : Data) × (element_in (whole nb budget ui).env x ≡ Some e)
        × (value_set (whole nb budget ui).env (x, v) ≡ Some d) × (v ≡ value_in d) }
{}

/// Behind a close message nothing is answered, from any state on: all messages give the frames and the steps of those before it, and the visit has ended.
pub fn nothing_behind_a_close()
    ensures parts { (nb : List Cell) (budget : ℕ) (state : State) (ms more : List (Option Message))
        → parts_from nb budget state (ms ++ Some Close ∷ more) ≡ parts_from nb budget state ms }
    ensures ended { (nb : List Cell) (budget : ℕ) (state : State) (ms more : List (Option Message))
        → state_after nb budget state (ms ++ Some Close ∷ more) ≡ Ended }
{}
