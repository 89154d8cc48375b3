// Bytes that need not be a text.
ghost use Rattle.std.specs.Prelude.{◌≡◌};

use std::marker::Model;

/// Bytes, of any values. Contracts see them as the list of them.
#[derive(Debug, Drop)]
pub struct RawBytes {
    inner: Vec<u8>,
}

impl Model for RawBytes {
    ghost use Rattle.std.specs.Prelude.{ℕ, List};

    ghost Value = { List ℕ };

    ghost view = { λ b. b.inner.items };
}

impl RawBytes {
    /// These bytes.
    pub fn of(wrapped: Vec<u8>) -> Self
        ensures { result ≡ wrapped.items }
    {
        RawBytes { inner: wrapped }
    }

    /// The bytes.
    pub fn items(&self) -> &[u8]
        ensures { result.now ≡ self.now }
    {
        self.inner.as_slice()
    }

    /// Gives the wrapped list back.
    pub fn into_items(self) -> Vec<u8>
        ensures { result.items ≡ self }
    {
        let RawBytes { inner } = self;
        inner
    }
}
