// Worked messages, computed from the definitions.
ghost use Rattle.std.specs.Prelude.{[], ◌∷◌, codes, replicate, pos, neg_ℤ, Some, None, true, false};
ghost use Rattle.py_value.specs.declared.types.Data.TheVariants as D;
ghost use Rattle.py_value.specs.declared.types.Value.TheVariants as V;
ghost use Rattle.messages.specs.declared.message.Message.TheVariants.{Open, Set, Close};
ghost use Rattle.message_meaning.specs.Messages.{IsMessage, IsNoMessage, set_item};
ghost use Rattle.message_meaning.specs.Samples.{Sends, SendsNothing, lists};

/// Messages with blanks, with several names, and with names that are repeated.
pub fn worked_messages()
    ensures open { IsMessage (codes "{\"open\":{}}") Open }
    ensures close { IsMessage (codes " {\"close\" : { } }\n") Close }
    ensures nothing { IsMessage (codes "{\"set\":{}}") (Set []) }
    ensures blanks { IsMessage (codes "\t{\"set\": {\"a\": 1,\r\n\"b\": 2}}")
        (Set (set_item (codes "a") (Some (V.Int (pos 1))) ∷ set_item (codes "b") (Some (V.Int (pos 2))) ∷ [])) }
    ensures order { IsMessage (codes "{\"set\":{\"b\":1,\"ab\":2,\"a\":3,\"B\":4,\"\":5}}")
        (Set (set_item [] (Some (V.Int (pos 5))) ∷ set_item (codes "B") (Some (V.Int (pos 4))) ∷ set_item (codes "a") (Some (V.Int (pos 3)))
        ∷ set_item (codes "ab") (Some (V.Int (pos 2))) ∷ set_item (codes "b") (Some (V.Int (pos 1))) ∷ [])) }
    ensures repeated { IsMessage (codes "{\"set\":{\"a\":1,\"b\":2,\"a\":3}}")
        (Set (set_item (codes "a") (Some (V.Int (pos 3))) ∷ set_item (codes "b") (Some (V.Int (pos 2))) ∷ [])) }
    ensures spelled_twice { IsMessage (codes "{\"set\":{\"a\":1,\"\\u0061\":{}}}") (Set (set_item (codes "a") None ∷ [])) }
    ensures set_twice { IsMessage (codes "{\"set\":{\"a\":1},\"set\":{\"b\":2}}") (Set (set_item (codes "b") (Some (V.Int (pos 2))) ∷ [])) }
    ensures open_at_last { IsMessage (codes "{\"open\":5,\"open\":{}}") Open }
    ensures escaped { IsMessage (codes "{\"s\\u0065t\":{\"\\u0061\":0}}") (Set (set_item (codes "a") (Some (V.Int (pos 0))) ∷ [])) }
    ensures no_name { IsMessage (codes "{\"set\":{\"\":\"\"}}") (Set (set_item [] (Some (V.Text [])) ∷ [])) }
{}

/// Values that an element may admit, and others, which none admits.
pub fn worked_values()
    ensures null { Sends (codes "null") (Some V.None) }
    ensures truth { Sends (codes "true") (Some (V.Bool true)) }
    ensures falsehood { Sends (codes "false") (Some (V.Bool false)) }
    ensures text { Sends (codes "\"1\"") (Some (V.Text (49 ∷ []))) }
    ensures texts { Sends (codes "[\"c\",\"\"]") (Some (V.List (D.Text (codes "c") ∷ D.Text [] ∷ []))) }
    ensures no_texts { Sends (codes "[]") (Some (V.List [])) }
    ensures mixed { Sends (codes "[\"c\",1]") None }
    ensures numbers { Sends (codes "[1,2]") None }
    ensures nested { Sends (codes "[\"c\",[\"d\"]]") None }
    ensures nested_numbers { Sends (codes "[[1],[[2]]]") None }
    ensures members { Sends (codes "{\"b\":1}") None }
{}

/// Whole numbers in their range; other numbers, which no element admits; and numbers past the range of a float, with which the bytes are no message.
pub fn worked_numbers()
    ensures zero { Sends (codes "0") (Some (V.Int (pos 0))) }
    ensures below_zero { Sends (codes "-1") (Some (V.Int (neg_ℤ (pos 1)))) }
    ensures greatest { Sends (codes "18446744073709551615") (Some (V.Int (pos 18446744073709551615))) }
    ensures least { Sends (codes "-9223372036854775808") (Some (V.Int (neg_ℤ (pos 9223372036854775808)))) }
    ensures above { Sends (codes "18446744073709551616") None }
    ensures below { Sends (codes "-9223372036854775809") None }
    ensures huge { Sends (codes "10000000000000000000000000000000000000000") None }
    ensures minus_zero { Sends (codes "-0") None }
    ensures fraction { Sends (codes "0.5") None }
    ensures whole_fraction { Sends (codes "1.0") None }
    ensures exponent { Sends (codes "1e2") None }
    ensures no_exponent { Sends (codes "1E+0") None }
    ensures small { Sends (codes "-0.0e-5") None }
    ensures great_float { Sends (codes "1e308") None }
    ensures past_floats { SendsNothing (codes "1e309") }
    ensures minus_past_floats { SendsNothing (codes "-1e400") }
    ensures digits_past_floats { SendsNothing (replicate 400 57) }
{}

/// Escapes, surrogates and bytes of texts.
pub fn worked_texts()
    ensures escapes { Sends (codes "\"\\\"\\\\\\/\\b\\f\\n\\r\\t\"") (Some (V.Text (34 ∷ 92 ∷ 47 ∷ 8 ∷ 12 ∷ 10 ∷ 13 ∷ 9 ∷ []))) }
    ensures control { Sends (codes "\"\\u0000\\u001F\"") (Some (V.Text (0 ∷ 31 ∷ []))) }
    ensures two_bytes { Sends (codes "\"\\u00e9\"") (Some (V.Text (195 ∷ 169 ∷ []))) }
    ensures three_bytes { Sends (codes "\"\\u20AC\"") (Some (V.Text (226 ∷ 130 ∷ 172 ∷ []))) }
    ensures pair { Sends (codes "\"\\ud83d\\ude00\"") (Some (V.Text (240 ∷ 159 ∷ 152 ∷ 128 ∷ []))) }
    ensures unescaped { Sends (34 ∷ 195 ∷ 169 ∷ 34 ∷ []) (Some (V.Text (195 ∷ 169 ∷ []))) }
    ensures high_surrogate { SendsNothing (codes "\"\\ud800\"") }
    ensures low_surrogate { SendsNothing (codes "\"\\udc00\"") }
    ensures two_high_surrogates { SendsNothing (codes "\"\\ud800\\ud800\"") }
    ensures surrogate_and_letter { SendsNothing (codes "\"\\ud800x\"") }
    ensures surrogate_in_name { IsNoMessage (codes "{\"set\":{\"\\udfff\":1}}") }
    ensures surrogate_in_list { SendsNothing (codes "[\"c\",\"\\ud800\"]") }
    ensures line_end { SendsNothing (codes "\"\n\"") }
    ensures unknown_escape { SendsNothing (codes "\"\\x\"") }
    ensures no_text { SendsNothing (34 ∷ 255 ∷ 34 ∷ []) }
    ensures half_character { SendsNothing (34 ∷ 195 ∷ 34 ∷ []) }
    ensures surrogate_bytes { SendsNothing (34 ∷ 237 ∷ 160 ∷ 128 ∷ 34 ∷ []) }
{}

/// Bytes that are no message.
pub fn worked_refusals()
    ensures empty { IsNoMessage [] }
    ensures blank { IsNoMessage (codes " \n") }
    ensures no_member { IsNoMessage (codes "{}") }
    ensures number_set { IsNoMessage (codes "{\"set\":5}") }
    ensures null_set { IsNoMessage (codes "{\"set\":null}") }
    ensures list_set { IsNoMessage (codes "{\"set\":[]}") }
    ensures open_with_member { IsNoMessage (codes "{\"open\":{\"a\":1}}") }
    ensures close_with_member { IsNoMessage (codes "{\"close\":{\"\":{}}}") }
    ensures open_list { IsNoMessage (codes "{\"open\":[]}") }
    ensures two { IsNoMessage (codes "{\"open\":{},\"close\":{}}") }
    ensures further_member { IsNoMessage (codes "{\"set\":{},\"a\":1}") }
    ensures number_at_last { IsNoMessage (codes "{\"open\":{},\"open\":5}") }
    ensures capital { IsNoMessage (codes "{\"Open\":{}}") }
    ensures longer_name { IsNoMessage (codes "{\"sets\":{\"a\":1}}") }
    ensures nameless { IsNoMessage (codes "{\"\":{}}") }
    ensures list { IsNoMessage (codes "[\"open\"]") }
    ensures text { IsNoMessage (codes "\"open\"") }
    ensures behind { IsNoMessage (codes "{\"open\":{}}x") }
    ensures second { IsNoMessage (codes "{\"open\":{}}{}") }
    ensures comma { IsNoMessage (codes "{\"set\":{\"a\":1,}}") }
    ensures apostrophes { IsNoMessage (codes "{'open':{}}") }
    ensures unquoted { IsNoMessage (codes "{open:{}}") }
    ensures comment { IsNoMessage (codes "{\"open\":{}} // ") }
    ensures leading_zero { SendsNothing (codes "04") }
    ensures plus { SendsNothing (codes "+1") }
    ensures point_behind { SendsNothing (codes "1.") }
    ensures point_before { SendsNothing (codes ".5") }
    ensures not_a_number { SendsNothing (codes "NaN") }
    ensures cut { IsNoMessage (codes "{\"open\":{}") }
    ensures mark { IsNoMessage (239 ∷ 187 ∷ 191 ∷ codes "{\"open\":{}}") }
{}

/// The two objects and 125 lists in them are the deepest message.
pub fn worked_depths()
    ensures deepest { Sends (lists 125) None }
    ensures too_deep { SendsNothing (lists 126) }
{}
