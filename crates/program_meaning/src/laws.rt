// Laws and worked examples, proved from the definitions.
ghost use Rattle.std.specs.Prelude.{◌≡◌, ℕ, false, true, List, [], ◌∷◌, codes, map, pos, sum, Option, Some, None};
ghost use Rattle.py_value.specs.ElementData.{ElementData};
ghost use Rattle.py_value.specs.declared.types.Value.TheVariants as V;
ghost use Rattle.py_value.specs.declared.error_kind.ErrorKind.TheVariants.{RuntimeError};
ghost use Rattle.messages.specs.declared.message.Message.{Message};
ghost use Rattle.messages.specs.declared.message.Message.TheVariants.{Open, Set, Close};
ghost use Rattle.visit_meaning.specs.Answer.{Before, Ended, On, answer, cost_of_parts, frames_in, parts_from};
ghost use Rattle.graph_meaning.specs.Graph.{order};
ghost use Rattle.graph_meaning.specs.Reruns.{rerun};
ghost use Rattle.visit_meaning.specs.Whole.{whole};
ghost use Rattle.frame_meaning.specs.FrameText.{frame_lines};
ghost use Rattle.form_meaning.specs.Thin.{are_thin, file_lines};
ghost use Rattle.py_tree.specs.TextLines.{text_of};
ghost use Rattle.program_meaning.specs.Program.{IsAccepted, Doubly, Cycle, FailsFirst, refusal_text, usual_budget, once_text};
ghost use Rattle.program_meaning.specs.Samples.{three_cells, three_cells_file, three_cells_text, lone_name, lone_name_text, failing, failing_text, doubled, cyclic, diamond, too_great, too_great_text, four_steps, with_slider, with_slider_file, with_slider_text, with_slider_answers, with_slider_script, with_slider_played, two_visitors_script, two_visitors_played, s_at_four, sets_s, reads_s};
ghost use Rattle.program_meaning.specs.SetSamples.{anew_lines, chained, kept, sent, six_lines, told, two_sliders};
ghost use Rattle.program_meaning.specs.Scripts.{Script, IsScript, FaultAt, script_text};
ghost use Rattle.run_meaning.specs.Spending.{Failed, Spent, runs, cost_of};
ghost use Rattle.run_meaning.specs.declared.binding.Binding.TheVariants.{Plain};
ghost use Rattle.frames.specs.declared.frame.CellFrame.{CellFrame};
ghost use Rattle.frames.specs.declared.frame.OutputKind.TheVariants as output;

/// What the definitions say of small notebooks: the order, the file, what is written for them, what their cells cost, and why two are
/// refused.
pub fn worked_notebooks()
    ensures order { order three_cells ≡ 2 ∷ 1 ∷ 0 ∷ [] }
    ensures thin { are_thin three_cells ≡ true }
    ensures file { text_of (file_lines three_cells) ≡ three_cells_file }
    ensures accepted { IsAccepted three_cells_file three_cells }
    ensures three { once_text three_cells ≡ three_cells_text }
    ensures costs { (whole three_cells usual_budget []).costs ≡ 2 ∷ 4 ∷ 2 ∷ [] }
    ensures none { once_text [] ≡ codes "{\"done\":0}\n" }
    ensures unbound { once_text lone_name ≡ lone_name_text }
    ensures cancelled { once_text failing ≡ failing_text }
    ensures doubled { FailsFirst (text_of (file_lines doubled)) (Doubly (codes "b") 1 3) }
    ensures doubled_line { refusal_text (Doubly (codes "b") 1 3) ≡ codes "refused doubly b 1 3\n" }
    ensures blocked { order cyclic ≡ [] }
    ensures cycle { FailsFirst (text_of (file_lines cyclic)) (Cycle (0 ∷ 1 ∷ 2 ∷ [])) }
    ensures cycle_line { refusal_text (Cycle (0 ∷ 1 ∷ 2 ∷ [])) ≡ codes "refused cycle 0 1 2\n" }
    ensures diamond { order diamond ≡ 3 ∷ 1 ∷ 2 ∷ 0 ∷ [] }
    ensures again { rerun diamond (codes "base" ∷ []) ≡ 1 ∷ 2 ∷ 0 ∷ [] }
    ensures range { once_text too_great ≡ too_great_text }
    ensures range_costs { (whole too_great usual_budget []).costs ≡ 2 ∷ 4 ∷ 0 ∷ 2 ∷ [] }
    ensures fits { cost_of 4 (runs (record { own = []; present = [] }) [] four_steps 4) ≡ 4 }
    ensures spent { runs (record { own = []; present = [] }) [] four_steps 3 ≡ Spent 5 0 [] }
{}

/// What the definitions say of a small notebook with a slider: the order, the file, what is written, what the cells cost, what is shown
/// to a visitor who has set the slider, and that a cell can't read the value of an element that it creates itself.
pub fn worked_slider()
    ensures order { order with_slider ≡ 0 ∷ 1 ∷ 2 ∷ [] }
    ensures thin { are_thin with_slider ≡ true }
    ensures file { text_of (file_lines with_slider) ≡ with_slider_file }
    ensures accepted { IsAccepted with_slider_file with_slider }
    ensures text { once_text with_slider ≡ with_slider_text }
    ensures costs { (whole with_slider usual_budget []).costs ≡ 1 ∷ 4 ∷ 5 ∷ [] }
    ensures work { sum (whole with_slider usual_budget []).costs ≡ 10 }
    ensures present { map (λ (f : CellFrame). f.output)
        (whole with_slider usual_budget s_at_four).frames
        ≡ None ∷ None ∷ Some (record { text = codes "5"; kind = output.Plain }) ∷ [] }
    ensures own { (e : ElementData) → e.name ≡ codes "s"
        → runs (record { own = codes "s" ∷ []; present = [] })
        ((codes "s", Plain (V.Element e)) ∷ []) reads_s 10 ≡ Failed RuntimeError 5 7 [] }
{}

/// What a visitor of that notebook is sent who opens it, sets the slider to 4 and then to 11, which it doesn't admit, and the steps of
/// the cells that run for each answer.
pub fn worked_answers()
    ensures frames { frame_lines (frames_in (parts_from with_slider usual_budget Before
        (Some Open ∷ Some (sets_s 4) ∷ Some (sets_s 11) ∷ []))) ≡ with_slider_answers }
    ensures opening { cost_of_parts (answer with_slider usual_budget Before (Some Open)).parts
        ≡ 10 }
    ensures set { cost_of_parts
        (answer with_slider usual_budget (On []) (Some (sets_s 4))).parts ≡ 5 }
    ensures refused { cost_of_parts
        (answer with_slider usual_budget (On s_at_four) (Some (sets_s 11))).parts ≡ 0 }
{}

/// What a visitor is answered who sets several values at once, or none, and one who has closed: the state after it, the lines, and the
/// steps of the cells that run. On a notebook with two sliders: both values are admitted; the second one isn't; the first one isn't and the
/// second name is no element's, of which alone is told; nothing is set, in an open notebook and before the opening; the stay is closed; it
/// has ended. On a notebook with a slider that begins where another one stands: when the other one is set, the cell that creates the slider
/// runs again, and the value that was kept for the slider is dropped, and so is one that is sent for it in the same message. These cells
/// haven't the thin form.
pub fn worked_sets()
    ensures both { told (answer two_sliders usual_budget (On [])
        (Some (Set (sent (codes "s") 4 ∷ sent (codes "t") 2 ∷ []))))
        ≡ record { state = On (kept (codes "s") 4 ∷ kept (codes "t") 2 ∷ []); lines = six_lines; steps = 6 } }
    ensures unfit { told (answer two_sliders usual_budget (On [])
        (Some (Set (sent (codes "s") 4 ∷ sent (codes "t") 9 ∷ []))))
        ≡ record { state = On []; lines = codes "{\"name\":\"t\",\"refused\":\"value\"}\n{\"done\":0}\n"; steps = 0 } }
    ensures unknown { told (answer two_sliders usual_budget (On [])
        (Some (Set (sent (codes "s") 99 ∷ sent (codes "z") 1 ∷ []))))
        ≡ record { state = On []; lines = codes "{\"name\":\"z\",\"refused\":\"element\"}\n{\"done\":0}\n"; steps = 0 } }
    ensures nothing { told (answer two_sliders usual_budget
        (On (kept (codes "s") 4 ∷ kept (codes "t") 2 ∷ [])) (Some (Set [])))
        ≡ record { state = On (kept (codes "s") 4 ∷ kept (codes "t") 2 ∷ []); lines = codes "{\"done\":0}\n"; steps = 0 } }
    ensures nothing_before { told (answer two_sliders usual_budget Before (Some (Set [])))
        ≡ record { state = Before; lines = codes "{\"refused\":\"order\"}\n{\"done\":0}\n"; steps = 0 } }
    ensures closes { told (answer two_sliders usual_budget (On []) (Some Close))
        ≡ record { state = Ended; lines = []; steps = 0 } }
    ensures closes_before { told (answer two_sliders usual_budget Before (Some Close))
        ≡ record { state = Ended; lines = []; steps = 0 } }
    ensures ended { (m : Option Message) → told (answer two_sliders usual_budget Ended m)
        ≡ record { state = Ended; lines = []; steps = 0 } }
    ensures anew { told (answer chained usual_budget (On (kept (codes "b") 7 ∷ []))
        (Some (Set (sent (codes "a") 2 ∷ []))))
        ≡ record { state = On (kept (codes "a") 2 ∷ []); lines = anew_lines; steps = 8 } }
    ensures anew_beside { told (answer chained usual_budget (On (kept (codes "b") 7 ∷ []))
        (Some (Set (sent (codes "a") 2 ∷ sent (codes "b") 7 ∷ []))))
        ≡ record { state = On (kept (codes "a") 2 ∷ []); lines = anew_lines; steps = 8 } }
    ensures not_thin { are_thin chained ≡ false }
{}

/// Bytes that are a script have no line that can't stand where it stands, and say one thing only; and other bytes have no two first such lines.
pub fn scripts_are_read_one_way()
    ensures script { (bytes : List ℕ) (s : Script) → IsScript bytes s
        → (k : ℕ) → FaultAt bytes k → ⊥ }
    ensures one { (bytes : List ℕ) (s t : Script) → IsScript bytes s → IsScript bytes t → s ≡ t }
    ensures line { (bytes : List ℕ) (k l : ℕ) → FaultAt bytes k → FaultAt bytes l → k ≡ l }
{}

/// The script of a visitor who opens the notebook with a slider and sets it to 4 and then to 11, and what is written for it; the same of a script
/// of two visitors; the empty script; and the first lines that can't stand where they stand of a script that is an empty line, of one in which
/// the visitor 2 sends something, one in which the visitor sends something after closing, and one in which the visitor joins twice.
pub fn worked_scripts()
    ensures read { IsScript with_slider_script
        ((Some Open ∷ Some (sets_s 4) ∷ Some (sets_s 11) ∷ []) ∷ []) }
    ensures played { script_text with_slider usual_budget
        ((Some Open ∷ Some (sets_s 4) ∷ Some (sets_s 11) ∷ []) ∷ []) ≡ with_slider_played }
    ensures two_visitors { IsScript two_visitors_script
        ((Some Open ∷ Some (sets_s 4) ∷ None ∷ Some Close ∷ []) ∷ (Some Open ∷ []) ∷ []) }
    ensures two_played { script_text with_slider usual_budget
        ((Some Open ∷ Some (sets_s 4) ∷ None ∷ Some Close ∷ []) ∷ (Some Open ∷ []) ∷ [])
        ≡ two_visitors_played }
    ensures nobody { IsScript [] [] }
    ensures empty_line { FaultAt (codes "\n") 1 }
    ensures other_visitor { FaultAt (codes "join 1\nsend 2 x") 2 }
    ensures closed { FaultAt (codes "join 1\nsend 1 {\"close\":{}}\nsend 1 x\n") 3 }
    ensures there { FaultAt (codes "join 1\nsend 1 x\njoin 1\n") 3 }
{}
