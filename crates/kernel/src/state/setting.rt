// Values that are set for elements.
ghost use Rattle.std.specs.Prelude.{◌≡◌, ◌<◌, All, IfErr, IfOk, IsSome, OnOk, Some, flat_map, fold, length, map, not, option_copied};
ghost use Rattle.std.specs.Option.{option_map};
ghost use Rattle.graph_meaning.specs.Graph.{elements_of};
ghost use Rattle.kernel.specs.Sets.{AreAdmitted, IsWhy, with_kept, with_set};
ghost use Rattle.py_tree.specs.Names.{is_among};
ghost use Rattle.py_tree.specs.View.{view_cells};
ghost use Rattle.py_value.specs.Maps.{IsSortedMap, where_name};
ghost use Rattle.py_value.specs.View.{data_of};
ghost use Rattle.visit_meaning.specs.Answer.{element_in, first_unknown, value_sent};
ghost use Rattle.visit_meaning.specs.WithElement.{with_element};

use cell_graph::Notebook;
use frames::Frame;
use messages::{SetItem, SetItems};
use py_eval::Env;
use py_value::{Element, Lines, Memory, Text, Value, copy};
use run_meaning::Binding;
use std::alloc::{AllocFailed, Global};
use ui_elements::{AdmitFault, Present, admit};

/// Why values aren't set.
#[derive(Drop)]
pub enum SetFault {
    /// The message is refused.
    Refused(Frame),
    /// Memory was wanting.
    Memory,
}

impl From<Memory> for SetFault {
    ghost use Rattle.kernel.specs.declared.state.setting.SetFault.TheVariants as fault;

    ghost from_gives = { λ _ f. f ≡ fault.Memory };

    fn from(_: Memory) -> Self {
        SetFault::Memory
    }
}

impl<T: Drop> From<AllocFailed<T>> for SetFault {
    ghost use Rattle.kernel.specs.declared.state.setting.SetFault.TheVariants as fault;

    ghost from_gives = { λ _ f. f ≡ fault.Memory };

    fn from(_: AllocFailed<T>) -> Self {
        SetFault::Memory
    }
}

// The element in being of this name.
fn element_in<'e>(env: &'e Env, name: &str) -> Option<&'e Element>
    ensures { option_copied result ≡ element_in env.now name.now }
{
    match env.get(name)? {
        Binding::Plain(Value::Element(element)) if element.name().items() == name => Some(element),
        _ => None,
    }
}

// The first item of a name that is no element's.
fn first_unknown<'i>(env: &Env, items: &'i [SetItem]) -> Option<&'i SetItem>
    ensures { option_copied result ≡ first_unknown env.now items.now }
{
    items
        .iter()
        .find(|item| element_in(env, item.name.items()).is_none())
}

// What an item sets its element to; none where no such element is in being, and where it doesn't admit what is sent.
fn value_sent(alloc: Global, env: &Env, item: &SetItem) -> Result<Option<Value>, Memory>
    ensures { IfOk result (λ value. option_map data_of value ≡ value_sent env.now item.now) }
{
    let (Some(element), Some(value)) = (element_in(env, item.name.items()), &item.value) else {
        return Ok(None);
    };
    match admit(alloc, element, value) {
        Ok(value) => Ok(Some(value)),
        Err(AdmitFault::NotAllowed) => Ok(None),
        Err(AdmitFault::Memory) => Err(Memory),
    }
}

/// The values that elements in being make of what is sent, by their names. Nothing is set yet. It is refused at the first name that is no
/// element's, and else at the first whose element doesn't admit what is sent.
pub fn admitted(alloc: Global, env: &Env, items: SetItems) -> Result<Vec<(Text, Value)>, SetFault>
    ensures ok { IfOk result (λ sets. AreAdmitted env.now items sets.items) }
    ensures fault { IfErr result (λ f. IsWhy env.now items f) }
{
    if let Some(item) = first_unknown(env, items.items()) {
        let name = item.name.copy(alloc)?;
        return Err(SetFault::Refused(Frame::NoElement(name)));
    }
    let mut sets = Vec::new(alloc);
    for item in items.into_items() {
        let Some(value) = value_sent(alloc, env, &item)? else {
            return Err(SetFault::Refused(Frame::NoValue(item.name)));
        };
        sets.push((item.name, value))?;
    }
    Ok(sets)
}

// Gives the element in being of this name another present value.
fn set_element(alloc: Global, env: &mut Env, name: &Text, value: &Value) -> Result<(), Memory>
    requires there { IsSome (element_in env.old name.now) }
    requires sorted { IsSortedMap env.old }
    ensures { OnOk result
        (env.new ≡ with_element name.now (element_in env.old name.now)
        (Some (data_of value.now)) env.old) }
{
    if let Some(Binding::Plain(Value::Element(mut element))) = env.remove(name.items()) {
        element.set_present(copy(alloc, value)?);
        env.put(name.copy(alloc)?, Binding::Plain(Value::Element(element)))?;
    }
    Ok(())
}

/// Gives elements in being other present values, one after the other.
pub fn set_elements(alloc: Global, env: &mut Env, sets: &[(Text, Value)]) -> Result<(), Memory>
    requires there { All (λ s. IsSome (element_in env.old s.0)) sets.now }
    requires sorted { IsSortedMap env.old }
    ensures { OnOk result (env.new ≡ fold with_set env.old sets.now) }
{
    for set in sets {
        set_element(alloc, env, &set.0, &set.1)?;
    }
    Ok(())
}

/// The names for which values are set.
pub fn names_of(alloc: Global, sets: &[(Text, Value)]) -> Result<Lines, Memory>
    ensures { IfOk result (λ names. names ≡ map (λ s. s.0) sets.now) }
{
    let mut names = Vec::new(alloc);
    for set in sets {
        names.push(set.0.copy(alloc)?)?;
    }
    Ok(Lines::of(names))
}

/// Keeps values, one after the other.
pub fn keep_values(present: &mut Present, sets: Vec<(Text, Value)>) -> Result<(), Memory>
    ensures { OnOk result (present.new ≡ fold with_kept present.old sets.items) }
{
    for (name, value) in sets {
        present.put(name, value)?;
    }
    Ok(())
}

/// Drops the values that are kept of elements which these cells create.
pub fn drop_created(present: &mut Present, notebook: &Notebook, cells: &[u32])
    requires { All (λ c. c < length notebook.now) cells.now }
    ensures { present.new ≡ where_name
        (λ x. not (is_among x (flat_map (elements_of (view_cells notebook.now)) cells.now)))
        present.old }
{
    for cell in cells {
        for name in notebook.elements_of(*cell).items() {
            let _dropped = present.remove(name.items());
        }
    }
}
