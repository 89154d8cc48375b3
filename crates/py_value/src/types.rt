// The types of values.
ghost use Rattle.std.specs.Prelude.{◌≡◌, [], IfOk};
ghost use Rattle.py_value.specs.View.{data_of, all_of, pairs_of};
ghost use Rattle.py_value.specs.ElementData.{element, with_present};
ghost use Rattle.py_value.specs.Keys.{KeysOf};

use crate::kinds::Kind;
use crate::memory::Memory;
use crate::texts::Text;
use sqlite_items::{Boxed, Items};
use std::alloc::Global;
use std::marker::Model;
use std::mem;

/// What contracts see of a value at every depth, where `Value` shows them one level. No value of it is made.
#[derive(Drop)]
pub enum Data {
    None,
    Bool(bool),
    Int(i128),
    Text(Text),
    List(Items<Data>),
    Tuple(Items<Data>),
    Dict(Items<(Data, Data)>),
    /// Its kind, name, parameters, initial and present value.
    Element(Kind, Text, Items<(Data, Data)>, Boxed<Data>, Boxed<Data>),
    Html(Text),
}

/// A value of notebook code (Python language reference, section 3.2, "The standard type hierarchy").
#[cycle(value)]
#[derive(Debug, Drop)]
pub enum Value {
    None,
    Bool(bool),
    /// A whole number. Its range is that of signed 128 bits.
    Int(i128),
    /// A `str`, as its bytes in UTF-8.
    Text(Text),
    List(Values),
    Tuple(Values),
    /// A `dict`, in the order in which its keys were first set.
    Dict(Pairs),
    /// An element of `marimo.ui`.
    Element(Element),
    /// What `marimo.md` and `marimo.Html` give: HTML, as its bytes in UTF-8.
    Html(Text),
}

/// The items of a list or a tuple in order. Contracts see them as the list of their data.
#[cycle(value)]
#[derive(Debug, Drop)]
pub struct Values {
    items: Vec<Value>,
}

/// The pairs of a dictionary in order, each of a key and its item. Contracts see them as the list of the pairs of their data.
/// What stands as a key may be one.
#[cycle(value)]
#[derive(Debug, Drop)]
pub struct Pairs {
    pub(crate) items: Vec<(Value, Value)>,
}

/// An element of `marimo.ui`. Contracts see it as the record of its fields, with the data of the values in them.
#[cycle(value)]
#[derive(Debug, Drop)]
pub struct Element {
    kind: Kind,
    name: Text,
    params: Pairs,
    initial: Box<Value>,
    present: Box<Value>,
}

impl Model for Values {
    ghost use Rattle.std.specs.Prelude.{List};
    ghost use Rattle.py_value.specs.declared.types.Data.{Data};

    ghost Value = { List Data };

    ghost use Rattle.py_value.specs.contracts.types.Data as e;
    ghost use Rattle.std.specs.Coded.{coded_list};

    ghost coded = { coded_list e.the_row.coded };

    ghost use Rattle.py_value.specs.View.{all_of};
    ghost use Rattle.py_value.specs.Depth.{depth_of_all};

    ghost view = { λ a. all_of a.items.items };

    ghost size = { depth_of_all };

    ghost use Rattle.py_value.specs.Falls.{falls};

    ghost size_decreases = { λ a h. falls a.items.items };
}

impl Model for Pairs {
    ghost use Rattle.std.specs.Prelude.{List};
    ghost use Rattle.py_value.specs.declared.types.Data.{Data};

    ghost Value = { List (Data × Data) };

    ghost use Rattle.py_value.specs.contracts.types.Data as e;
    ghost use Rattle.std.specs.Coded.{coded_list, coded×};

    ghost coded = { coded_list (coded× e.the_row.coded e.the_row.coded) };

    ghost use Rattle.py_value.specs.View.{pairs_of};
    ghost use Rattle.py_value.specs.Depth.{depth_of_pairs};

    ghost view = { λ a. pairs_of a.items.items };

    ghost use Rattle.py_value.specs.Keys.{KeysOf};

    ghost invariant = { λ a. KeysOf (pairs_of a.items.items) };

    ghost size = { depth_of_pairs };

    ghost use Rattle.std.proofs.Common.{arith};
    ghost use Rattle.py_value.specs.Falls.{fall, falls_pairs};

    ghost size_decreases = { λ a h. falls_pairs _ (λ p. Prim.omega (arith, fall p.0, fall p.1)) a.items.items };
}

impl Model for Element {
    ghost use Rattle.py_value.specs.ElementData.{ElementData, element, element_code};

    ghost Value = { ElementData };

    ghost coded = { element_code };

    ghost use Rattle.py_value.specs.View.{data_of};
    ghost use Rattle.py_value.specs.Depth.{depth_of_element};

    ghost view = { λ a. element a.kind a.name a.params (data_of a.initial.value) (data_of a.present.value) };

    ghost size = { depth_of_element };

    ghost use Rattle.std.proofs.Common.{arith};
    ghost use Rattle.py_value.specs.Falls.{fall};

    ghost size_decreases = { λ a h. Prim.omega (arith, fall a.initial.value, fall a.present.value) };
}

impl Values {
    /// These items.
    pub fn of(wrapped: Vec<Value>) -> Values
        ensures { result ≡ all_of wrapped.items }
    {
        Values { items: wrapped }
    }

    /// The items.
    pub fn items(&self) -> &[Value]
        ensures { all_of result.now ≡ self.now }
    {
        self.items.as_slice()
    }

    /// Gives the wrapped list back.
    pub fn into_items(self) -> Vec<Value>
        ensures { all_of result.items ≡ self }
    {
        self.items
    }
}

impl Pairs {
    /// No pairs. It needs no memory.
    pub fn new(alloc: Global) -> Pairs
        ensures { result ≡ [] }
    {
        Pairs {
            items: Vec::new(alloc),
        }
    }

    /// The pairs.
    pub fn items(&self) -> &[(Value, Value)]
        ensures { pairs_of result.now ≡ self.now }
    {
        self.items.as_slice()
    }

    // These pairs, whose keys may be keys.
    pub(crate) fn of(items: Vec<(Value, Value)>) -> Pairs
        requires { KeysOf (pairs_of items.items) }
        ensures { result ≡ pairs_of items.items }
    {
        Pairs { items }
    }

    // The pairs, and that their keys may be keys.
    pub(crate) fn keyed_items(&self) -> &[(Value, Value)]
        ensures pairs { pairs_of result.now ≡ self.now }
        ensures keys { KeysOf self.now }
    {
        self.items.as_slice()
    }
}

impl Element {
    /// The element with these fields. The parameters are those of the call that makes it.
    pub fn new(
        alloc: Global,
        kind: Kind,
        name: Text,
        params: Pairs,
        initial: Value,
        present: Value,
    ) -> Result<Element, Memory>
        ensures { IfOk result
            (λ e. e ≡ element kind name params (data_of initial) (data_of present)) }
    {
        let initial = Box::new(alloc, initial)?;
        let present = Box::new(alloc, present)?;
        Ok(Element {
            kind,
            name,
            params,
            initial,
            present,
        })
    }

    /// Its kind.
    pub fn kind(&self) -> Kind
        ensures { result ≡ self.now.kind }
    {
        self.kind
    }

    /// The name that it is told apart by.
    pub fn name(&self) -> &Text
        ensures { result.now ≡ self.now.name }
    {
        &self.name
    }

    /// The parameters of the call that made it, by their names.
    pub fn params(&self) -> &Pairs
        ensures { result.now ≡ self.now.params }
    {
        &self.params
    }

    /// The value that it begins with.
    pub fn initial(&self) -> &Value
        ensures { data_of result.now ≡ self.now.initial }
    {
        &self.initial
    }

    /// The value that it has now.
    pub fn present(&self) -> &Value
        ensures { data_of result.now ≡ self.now.present }
    {
        &self.present
    }

    /// Sets the value that it has now. It needs no memory.
    pub fn set_present(&mut self, value: Value)
        ensures { self.new ≡ with_present (data_of value) self.old }
    {
        let old = mem::replace(&mut *self.present, value);
        discard(old);
    }
}

// Drops the value, in a call of its own, so that the proof of the caller doesn't split on what it was.
pub(crate) fn discard(_value: Value) {}
