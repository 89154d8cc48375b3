// The arguments of a call.
ghost use Rattle.std.specs.Prelude.{◌≡◌};

use py_value::{Text, Value, Values};
use std::marker::Model;

/// One argument by name.
#[derive(Drop)]
pub struct Word {
    pub name: Text,
    pub value: Value,
}

/// Arguments by name in order. A name may come twice.
#[derive(Drop)]
pub struct Words {
    inner: Vec<Word>,
}

impl Model for Words {
    ghost use Rattle.std.specs.Prelude.{List};
    ghost use Rattle.std.specs.Coded.{coded_list};
    ghost use Rattle.ui_elements.specs.declared.args.Word.{Word};
    ghost use Rattle.ui_elements.specs.contracts.args.Word as word;

    ghost Value = { List Word };

    ghost coded = { coded_list word.the_row.coded };

    ghost view = { λ w. w.inner.items };
}

impl Words {
    /// These arguments.
    pub fn of(wrapped: Vec<Word>) -> Self
        ensures { result ≡ wrapped.items }
    {
        Words { inner: wrapped }
    }

    /// The arguments.
    pub fn items(&self) -> &[Word]
        ensures { result.now ≡ self.now }
    {
        self.inner.as_slice()
    }

    /// Gives the wrapped list back.
    pub fn into_items(self) -> Vec<Word>
        ensures { result.items ≡ self }
    {
        let Words { inner } = self;
        inner
    }
}

/// The arguments of a call (Python language reference, section 6.3.4): those by place, and those by name.
#[derive(Drop)]
pub struct Args {
    pub places: Values,
    pub words: Words,
}
