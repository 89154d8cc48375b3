// Lines of any bytes.
ghost use Rattle.std.specs.Prelude.{◌≡◌, ℕ, ◌==◌, IsTrue, List, ◌∷◌, ◌++◌, position, MatchOption};
ghost use Rattle.py_tree.specs.TextLines.{is_unbroken};

/// The greatest number of bytes that the file of a notebook, and a script, may have.
pub const BYTE_LIMIT: usize = 1_048_576;

/// The first line without its `\n`, and what comes after it. None where no `\n` comes.
pub fn whole_line(bytes: &[u8]) -> Option<(&[u8], &[u8])>
    ensures { MatchOption result ((line rest : List ℕ) → bytes.now ≡ line ++ 10 ∷ rest → ⊥)
        (λ p. IsTrue (is_unbroken p.0.now) × (bytes.now ≡ p.0.now ++ 10 ∷ p.1.now)) }
{
    let end = line_end(bytes)?;
    Some((&bytes[..end], &bytes[end + 1..]))
}

// The place of the first `\n`.
fn line_end(bytes: &[u8]) -> Option<usize>
    ensures { result ≡ position (λ b. b == 10) bytes.now }
{
    bytes.iter().position(|b| *b == b'\n')
}
