// From bytes to a message.
ghost use Rattle.std.specs.Prelude.{◌≡◌, IfOk, IfErr, MatchOption};
ghost use Rattle.message_json.specs.Only.{only};
ghost use Rattle.message_json.specs.declared.fault.MessageFault.TheVariants.{NotMessage};
ghost use Rattle.message_meaning.specs.Computed.{message_in, said_at};
ghost use Rattle.message_meaning.specs.Messages.{IsMessage, IsNoMessage, IsTextOf, value_in, items_in, list_in};
ghost use Rattle.serde_json.specs.Data.{Data};
ghost use Rattle.serde_json.specs.Find.{as_str};
ghost use Rattle.serde_json.specs.View.{view, items_view, members_view};

use crate::fault::MessageFault;
use messages::{Message, SetItem, SetItems};
use py_value::{Memory, Text, Value, Values};
use serde_json::{Map, Value as Json};
use std::alloc::Global;

// The greatest number of bytes of a message.
const MESSAGE_LIMIT: usize = 65_536;

// The text that a string is; none of another value.
fn text_of(json: Json) -> Option<Text>
    ensures { result ≡ as_str (view json) }
{
    match json {
        Json::String(text) => Some(Text::of(text)),
        _ => None,
    }
}

// The list of these texts; none where not all of them are texts.
fn list_of(alloc: Global, items: Vec<Json>) -> Result<Option<Value>, Memory>
    ensures { IfOk result (λ v. v ≡ list_in (items_view items.items)) }
{
    let mut texts = Vec::with_capacity(alloc, items.len())?;
    for item in items {
        let Some(text) = text_of(item) else {
            return Ok(None);
        };
        texts.push(Value::Text(text))?;
    }
    Ok(Some(Value::List(Values::of(texts))))
}

// The value that is sent as this one; none where it is one that no element admits.
fn value_of(alloc: Global, json: Json) -> Result<Option<Value>, Memory>
    ensures { IfOk result (λ v. v ≡ value_in (view json)) }
{
    match json {
        Json::Null => Ok(Some(Value::None)),
        Json::Bool(truth) => Ok(Some(Value::Bool(truth))),
        Json::Number(number) => Ok(match number.as_i128() {
            Some(n) => Some(Value::Int(n)),
            None => None,
        }),
        Json::String(text) => Ok(Some(Value::Text(Text::of(text)))),
        Json::Array(items) => list_of(alloc, items),
        Json::Object(_) => Ok(None),
    }
}

// The values that the members set.
fn items_of(alloc: Global, members: Map<String, Json>) -> Result<SetItems, Memory>
    ensures { IfOk result (λ items. items ≡ items_in (members_view members.entries)) }
{
    let mut items = Vec::with_capacity(alloc, members.len())?;
    for (name, member) in members {
        let value = value_of(alloc, member)?;
        items.push(SetItem {
            name: Text::of(name),
            value,
        })?;
    }
    Ok(SetItems::of(items))
}

// The only member; none where there is none or another.
fn only_member(mut members: Map<String, Json>) -> Option<(String, Json)>
    ensures { result ≡ only members.entries }
{
    let first = members.pop_first()?;
    if members.is_empty() {
        Some(first)
    } else {
        None
    }
}

// What is said by the object at this name.
fn said_at(alloc: Global, name: &str, members: Map<String, Json>) -> Result<Option<Message>, Memory>
    ensures { IfOk result (λ m. m ≡ said_at name.now (members_view members.entries)) }
{
    if name == "set" {
        return Ok(Some(Message::Set(items_of(alloc, members)?)));
    }
    if !members.is_empty() {
        return Ok(None);
    }
    if name == "open" {
        return Ok(Some(Message::Open));
    }
    if name == "close" {
        return Ok(Some(Message::Close));
    }
    Ok(None)
}

// The message that this value is.
fn message_of(alloc: Global, json: Json) -> Result<Option<Message>, Memory>
    ensures { IfOk result (λ m. m ≡ message_in (view json)) }
{
    let Json::Object(members) = json else {
        return Ok(None);
    };
    let Some((name, value)) = only_member(members) else {
        return Ok(None);
    };
    let Json::Object(inner) = value else {
        return Ok(None);
    };
    said_at(alloc, name.as_str(), inner)
}

// The value that bytes are the text of; none where they are the text of none.
fn json_of(alloc: Global, bytes: &[u8]) -> Result<Option<Json>, Memory>
    ensures { IfOk result (λ o. MatchOption o ((d : Data) → IsTextOf bytes.now d → ⊥) (λ v. IsTextOf bytes.now (view v))) }
{
    match Json::from_slice(alloc, bytes) {
        Ok(json) => Ok(Some(json)),
        Err(error) => if error.is_memory() {
            Err(Memory)
        } else {
            Ok(None)
        },
    }
}

/// The message that these bytes are. `NotMessage` comes exactly where they are none, if memory isn't wanting.
pub fn read_message(alloc: Global, bytes: &[u8]) -> Result<Message, MessageFault>
    ensures ok { IfOk result (λ m. IsMessage bytes.now m) }
    ensures none { IfErr result (λ f. f ≡ NotMessage → IsNoMessage bytes.now) }
{
    if bytes.len() > MESSAGE_LIMIT {
        return Err(MessageFault::NotMessage);
    }
    let Some(json) = json_of(alloc, bytes)? else {
        return Err(MessageFault::NotMessage);
    };
    match message_of(alloc, json)? {
        Some(message) => Ok(message),
        None => Err(MessageFault::NotMessage),
    }
}
