// What holds of every refusal.
ghost use Rattle.std.specs.Prelude.{◌≡◌, ℕ, List};
ghost use Rattle.form_meaning.specs.Fails.{IsFormless, FailsAt};
ghost use Rattle.program_meaning.specs.Program.{IsAccepted, Refusal, FailsFirst};
ghost use Rattle.py_tree.specs.Trees.{Cell};

/// No bytes are both accepted and refused, and they are refused for one reason alone. Bytes of no file fail at some line: it isn't
/// so that they fail at none.
pub fn one_refusal()
    ensures apart { (bytes : List ℕ) (nb : List Cell) (why : Refusal) → IsAccepted bytes nb
        → FailsFirst bytes why → ⊥ }
    ensures line { (bytes : List ℕ) (m n : ℕ) → FailsAt bytes m → FailsAt bytes n → m ≡ n }
    ensures some { (bytes : List ℕ) → IsFormless bytes → ((n : ℕ) → FailsAt bytes n → ⊥) → ⊥ }
    ensures once { (bytes : List ℕ) (a b : Refusal) → FailsFirst bytes a → FailsFirst bytes b
        → a ≡ b }
{}
