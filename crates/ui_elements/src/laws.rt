// What the definitions say of sliders, and of worked calls of them.
ghost use Rattle.std.specs.Prelude.{◌≡◌, ℕ, true, List, [], ◌∷◌, codes, map, pos, Some, None, Ok, Err};
ghost use Rattle.py_value.specs.declared.types.Data.{Data};
ghost use Rattle.py_value.specs.declared.types.Data.TheVariants as D;
ghost use Rattle.py_value.specs.declared.kinds.Kind.TheVariants as kind;
ghost use Rattle.py_value.specs.declared.op_fault.OpFault.TheVariants as fault;
ghost use Rattle.py_value.specs.ElementData.{ElementData};
ghost use Rattle.py_value.specs.Elements.{Arguments, made, admitted};
ghost use Rattle.ui_elements.specs.Samples.{places, with_word, slider_names, zero_to_ten, to_ten};

/// A slider has the five parameters in the order of their places, and begins at a value that it admits; what it admits it keeps as
/// it is.
pub fn sliders()
    ensures order { (name : List ℕ) (args : Arguments) (e : ElementData)
        → made kind.Slider name args ≡ Ok e → map (λ p. p.0) e.params ≡ slider_names }
    ensures begins { (name : List ℕ) (args : Arguments) (e : ElementData)
        → made kind.Slider name args ≡ Ok e → admitted e e.initial ≡ Some e.initial }
    ensures keeps { (e : ElementData) (d c : Data) → admitted e d ≡ Some c → c ≡ d }
{}

/// What worked calls make.
pub fn worked_calls()
    ensures two { made kind.Slider (codes "s") (places (D.Int (pos 0) ∷ D.Int (pos 10) ∷ []))
        ≡ Ok zero_to_ten }
    ensures ten { admitted zero_to_ten (D.Int (pos 10)) ≡ Some (D.Int (pos 10)) }
    ensures eleven { admitted zero_to_ten (D.Int (pos 11)) ≡ None }
    ensures truth { admitted zero_to_ten (D.Bool true) ≡ None }
    ensures downwards { made kind.Slider (codes "s") (places (D.Int (pos 10) ∷ D.Int (pos 0) ∷ []))
        ≡ Err fault.Value }
    ensures wanting { made kind.Slider (codes "s") (places (D.Int (pos 0) ∷ []))
        ≡ Err fault.WrongType }
    ensures twice { made kind.Slider (codes "s") (with_word (codes "start") (D.Int (pos 0)) to_ten)
        ≡ Err fault.WrongType }
    ensures unknown { made kind.Slider (codes "s")
        (with_word (codes "steps") (D.Int (pos 1)) to_ten) ≡ Err fault.WrongType }
    ensures types_first { made kind.Slider (codes "s")
        (with_word (codes "label") (D.Int (pos 1)) (places (D.Int (pos 10) ∷ D.Int (pos 0) ∷ [])))
        ≡ Err fault.WrongType }
{}
