// What `str` and `repr` are of each type of values, and of worked values.
ghost use Rattle.std.specs.Prelude.{◌≡◌, ◌≢◌, ℕ, ℤ, Bool, List, [], ◌∷◌, ◌++◌, codes, length, map};
ghost use Rattle.std.specs.Fmt.{signed_decimal};
ghost use Rattle.py_value.specs.declared.types.Data.{Data};
ghost use Rattle.py_value.specs.declared.types.Data.TheVariants as D;
ghost use Rattle.py_value.specs.ElementData.{ElementData};
ghost use Rattle.py_value.specs.Quoted.{text_literal};
ghost use Rattle.py_value.specs.Texts.{truth_text, comma_list, tuple_end, str_of, repr_of, element_text};
ghost use Rattle.py_value.specs.TextSamples.{apostrophe, mixed, one_item, one_pair, slider};

/// `repr` by the types of values, and `str`, which differs from it at a text alone.
pub fn texts_by_type()
    ensures none { repr_of D.None ≡ codes "None" }
    ensures truth { (b : Bool) → repr_of (D.Bool b) ≡ truth_text b }
    ensures number { (z : ℤ) → repr_of (D.Int z) ≡ signed_decimal z }
    ensures text { (t : List ℕ) → repr_of (D.Text t) ≡ text_literal t }
    ensures list { (items : List Data)
        → repr_of (D.List items) ≡ codes "[" ++ (comma_list (map repr_of items) ++ codes "]") }
    ensures tuple { (items : List Data)
        → repr_of (D.Tuple items)
        ≡ codes "(" ++ (comma_list (map repr_of items) ++ tuple_end (length items)) }
    ensures dictionary { (pairs : List (Data × Data)) → repr_of (D.Dict pairs)
        ≡ codes "{" ++
        (comma_list (map (λ p. repr_of p.0 ++ (codes ": " ++ repr_of p.1)) pairs) ++ codes "}") }
    ensures element { (e : ElementData)
        → repr_of (D.Element e.kind e.name e.params e.initial e.present) ≡ element_text e }
    ensures html { (t : List ℕ) → repr_of (D.Html t) ≡ t }
    ensures str_of_text { (t : List ℕ) → str_of (D.Text t) ≡ t }
    ensures str_of_others { (d : Data) → ((t : List ℕ) → d ≢ D.Text t) → str_of d ≡ repr_of d }
{}

/// The texts of worked values.
pub fn worked_texts()
    ensures apostrophe { repr_of apostrophe ≡ codes "\"it's\"" }
    ensures apostrophe_str { str_of apostrophe ≡ codes "it's" }
    ensures mixed { repr_of mixed
        ≡ codes "'\\'\"\\\\\\x00\\t\\n\\r\\x1f\\x7f" ++ 195 ∷ 169 ∷ codes "'" }
    ensures one_item { repr_of one_item ≡ codes "(1,)" }
    ensures one_pair { repr_of one_pair ≡ codes "{'a': [True, None]}" }
    ensures slider { repr_of slider ≡ codes "<slider s start=0 stop=10 step=1 value=0 label=''>" }
{}
