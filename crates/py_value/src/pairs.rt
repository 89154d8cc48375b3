// The pairs of a dictionary by their keys.
ghost use Rattle.std.specs.Prelude.{◌≡◌, ◌⊎◌, ◌<◌, ◌++◌, ◌∷◌, [], Some, None, IfOk, IfErr, OnOk, OnErr, vec_len, slice_set, slice_index_or};
ghost use Rattle.std.specs.Option.{option_copied, option_map};
ghost use Rattle.py_value.specs.declared.types.Value.{Value};
ghost use Rattle.py_value.specs.View.{data_of, pairs_of};
ghost use Rattle.py_value.specs.Keys.{IsKey, key_fault};
ghost use Rattle.py_value.specs.Dicts.{place_of, item_of, with_pair};

use crate::equality::eq_value;
use crate::key_faults::key_fault;
use crate::memory::Memory;
use crate::op_fault::OpFault;
use crate::types::{Pairs, Value, discard};
use std::alloc::Global;
use std::mem;

impl Pairs {
    /// The item of the pair whose key is equal (Python language reference, section 6.3.2), and none where no key is. A value that
    /// can't be a key is `WrongType` or `Subset`. It asks for no memory yet: the allocator is for an index of the keys.
    #[tactic(auto, using(crate::proofs::Places::looks))]
    pub fn look_up(&self, _alloc: Global, key: &Value) -> Result<Option<&Value>, OpFault>
        ensures ok { OnOk result (IsKey (data_of key.now)) }
        ensures item { IfOk result
            (λ r. option_map data_of (option_copied r) ≡ item_of (data_of key.now) self.now) }
        ensures fault { IfErr result
            (λ e. (e ≡ OpFault.Memory) ⊎ (key_fault (data_of key.now) ≡ Some e)) }
    {
        if let Some(fault) = key_fault(key) {
            return Err(fault);
        }
        match find_key(self.items.as_slice(), key) {
            Some(at) => Ok(Some(&self.items[at].1)),
            None => Ok(None),
        }
    }

    /// Sets one pair (Python language reference, section 7.2): where a key is equal, it stays where and as it is, and a new one is
    /// appended. A value that can't be a key is `WrongType` or `Subset`. A refused call leaves the pairs.
    #[tactic(auto, using(crate::proofs::KeyFaults::keys_kept))]
    pub fn put(&mut self, _alloc: Global, key: Value, item: Value) -> Result<(), OpFault>
        ensures ok { OnOk result (self.new ≡ with_pair (data_of key) (data_of item) self.old) }
        ensures key { OnOk result (IsKey (data_of key)) }
        ensures fault { IfErr result
            (λ e. (e ≡ OpFault.Memory) ⊎ (key_fault (data_of key) ≡ Some e)) }
        ensures err { OnErr result (self.new ≡ self.old) }
    {
        if let Some(fault) = key_fault(&key) {
            discard(key);
            discard(item);
            return Err(fault);
        }
        put_pair(&mut self.items, key, item)?;
        Ok(())
    }
}

// The place of the first pair whose key is equal.
#[tactic(auto, using(crate::proofs::Places::places))]
fn find_key(pairs: &[(Value, Value)], key: &Value) -> Option<usize>
    ensures { result ≡ place_of (data_of key.now) (pairs_of pairs.now) }
{
    for at in 0..pairs.len() {
        if eq_value(key, &pairs[at].0) {
            return Some(at);
        }
    }
    None
}

// Sets one pair.
#[tactic(auto, using(crate::proofs::Places::puts))]
fn put_pair(pairs: &mut Vec<(Value, Value)>, key: Value, item: Value) -> Result<(), Memory>
    ensures ok { OnOk result
        (pairs_of pairs.new.items
        ≡ with_pair (data_of key) (data_of item) (pairs_of pairs.old.items)) }
    ensures err { OnErr result (pairs.new.items ≡ pairs.old.items) }
{
    match find_key(pairs.as_slice(), &key) {
        Some(at) => {
            discard(key);
            set_item(pairs, at, item);
            Ok(())
        }
        None => push_pair(pairs, key, item),
    }
}

fn set_item(pairs: &mut Vec<(Value, Value)>, at: usize, item: Value)
    requires { at < vec_len pairs.old }
    ensures { (d : Value × Value)
        → pairs.new.items
        ≡ slice_set pairs.old.items at ((slice_index_or pairs.old.items at d).0, item) }
{
    let pair = &mut pairs[at];
    let old = mem::replace(&mut pair.1, item);
    discard(old);
}

fn push_pair(pairs: &mut Vec<(Value, Value)>, key: Value, item: Value) -> Result<(), Memory>
    ensures ok { OnOk result (pairs.new.items ≡ pairs.old.items ++ (key, item) ∷ []) }
    ensures err { OnErr result (pairs.new.items ≡ pairs.old.items) }
{
    if pairs.reserve(1).is_err() {
        discard(key);
        discard(item);
        return Err(Memory);
    }
    pairs.push_reserved((key, item));
    Ok(())
}
