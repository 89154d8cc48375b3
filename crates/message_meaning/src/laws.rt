// Laws of messages, proved from the definitions.
ghost use Rattle.std.specs.Prelude.{◌≡◌, ◌↔◌, ◌<◌, ◌^◌, ℕ, List, Some, decimal, pos, negsuc};
ghost use Rattle.std.specs.Fmt.{signed_decimal};
ghost use Rattle.py_value.specs.declared.types.Value.TheVariants as V;
ghost use Rattle.messages.specs.declared.message.Message.{Message};
ghost use Rattle.messages.specs.declared.message.Message.TheVariants.{Set};
ghost use Rattle.messages.specs.declared.message.SetItem.{SetItem};
ghost use Rattle.message_meaning.specs.Computed.{message_in};
ghost use Rattle.message_meaning.specs.Messages.{IsMessage, Says, number_in};
ghost use Rattle.message_meaning.specs.Order.{Ascend};
ghost use Rattle.message_meaning.specs.Repeats.{last_value};
ghost use Rattle.json.specs.Json as json;
ghost use Rattle.serde_json.specs.Data.{Data, Members, no_members};
ghost use Rattle.serde_json.specs.Find.{get_member};
ghost use Rattle.serde_json.specs.Read.{of_members};

/// No bytes are two messages.
pub fn messages_are_read_one_way()
    ensures one { (bytes : List ℕ) (m k : Message) → IsMessage bytes m → IsMessage bytes k → m ≡ k }
{}

/// The names that a message sets stand in the order of their bytes, so each stands once.
pub fn names_in_order()
    ensures ascend { (bytes : List ℕ) (items : List SetItem) → IsMessage bytes (Set items) → Ascend items }
{}

/// Of the values that a text gives one name in an object, the last one counts.
pub fn last_value_counts()
    ensures last { (js : json.Members) (ms : Members) (k : List ℕ)
        → of_members js no_members ≡ Some ms → get_member k ms ≡ last_value k js }
{}

/// The message that a value says can be computed.
pub fn messages_are_computed()
    ensures same { (d : Data) (m : Message) → ((message_in d ≡ Some m) ↔ Says d m) }
{}

/// A whole number from -2^63 to 2^64 - 1, written in digits, is this number.
pub fn whole_numbers()
    ensures natural { (n : ℕ) → n < 2 ^ 64 → number_in (decimal n) ≡ Some (V.Int (pos n)) }
    ensures below_zero { (n : ℕ) → n < 2 ^ 63
        → number_in (signed_decimal (negsuc n)) ≡ Some (V.Int (negsuc n)) }
{}
