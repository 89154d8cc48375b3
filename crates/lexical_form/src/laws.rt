// Laws, proved from the definitions.
ghost use Rattle.std.specs.Prelude.{◌≡◌, ◌⊎◌, ℕ, List};
ghost use Rattle.lexical_form.specs.Answer.{Answer, IsAnswer, accepted};
ghost use Rattle.lexical_form.specs.Longest.{Longest, NoToken};
ghost use Rattle.lexical_form.specs.Tokens.{Token};
ghost use Rattle.lexical_form.specs.Worked.{AreAnswers};
ghost use Rattle.lexical_form.specs.WorkedEscapes.{Mean, escapes};
ghost use Rattle.lexical_form.specs.WorkedFiles.{line_rows, refused_rows, bytes_rows, AreNoUtf8};
ghost use Rattle.lexical_form.specs.WorkedNotebook.{notebook_file, notebook_lines};
ghost use Rattle.lexical_form.specs.WorkedTokens.{number_rows, word_rows, text_rows, f_text_rows};

/// A text begins with one longest token, or with no token.
pub fn longest_token()
    ensures some { (ts : List ℕ) → ((t : Token) × (rest : List ℕ) × Longest ts t rest) ⊎ NoToken ts }
    ensures once { (ts : List ℕ) (t u : Token) (rest after : List ℕ) → Longest ts t rest → Longest ts u after
        → (t ≡ u) × (rest ≡ after) }
{}

/// Any bytes are one list of logical lines, or no UTF-8 at one line, or no token at one line, and only one of the three.
pub fn one_answer()
    ensures some { (bytes : List ℕ) → (a : Answer) × IsAnswer bytes a }
    ensures once { (bytes : List ℕ) (a b : Answer) → IsAnswer bytes a → IsAnswer bytes b → a ≡ b }
{}

/// Texts that are tokens or are refused, and what escapes stand for.
pub fn worked_tokens()
    ensures numbers { AreAnswers number_rows }
    ensures words { AreAnswers word_rows }
    ensures texts { AreAnswers text_rows }
    ensures f_texts { AreAnswers f_text_rows }
    ensures escapes { Mean escapes }
{}

/// A notebook and smaller files with their lines, and files that are refused, with the line.
pub fn worked_files()
    ensures notebook { IsAnswer notebook_file (accepted notebook_lines) }
    ensures lines { AreAnswers line_rows }
    ensures refused { AreAnswers refused_rows }
    ensures bytes { AreNoUtf8 bytes_rows }
{}
