// What a visitor sends.
ghost use Rattle.std.specs.Prelude.{◌≡◌};

use py_value::{Text, Value};
use std::marker::Model;

/// What a visitor sends.
#[derive(Debug, Drop)]
pub enum Message {
    /// It opens the notebook.
    Open,
    /// It sets elements by their names.
    Set(SetItems),
    /// It ends the stay.
    Close,
}

/// A value that is sent for the element of a name; none where it is one that no element admits.
#[derive(Debug, Drop)]
pub struct SetItem {
    pub name: Text,
    pub value: Option<Value>,
}

/// The values that are sent. Those of a message that was read stand in the order of the bytes of their names, and each name once. Contracts see them as
/// their list.
#[derive(Debug, Drop)]
pub struct SetItems {
    items: Vec<SetItem>,
}

impl Model for SetItems {
    ghost use Rattle.std.specs.Prelude.{List};
    ghost use Rattle.messages.specs.declared.message.SetItem.{SetItem};

    ghost Value = { List SetItem };

    ghost use Rattle.messages.specs.contracts.message.SetItem as e;
    ghost use Rattle.std.specs.Coded.{coded_list};

    ghost coded = { coded_list e.the_row.coded };

    ghost view = { λ s. s.items.items };
}

impl SetItems {
    /// These items. It needs no memory.
    pub fn of(wrapped: Vec<SetItem>) -> Self
        ensures { result ≡ wrapped.items }
    {
        SetItems { items: wrapped }
    }

    /// The items.
    pub fn items(&self) -> &[SetItem]
        ensures { result.now ≡ self.now }
    {
        self.items.as_slice()
    }

    /// Gives the wrapped list back.
    pub fn into_items(self) -> Vec<SetItem>
        ensures { result.items ≡ self }
    {
        self.items
    }
}
