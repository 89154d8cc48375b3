//! Values of notebook code, and operations on them.
#![tactic(auto)]

mod charges;
mod copies;
mod equality;
mod error_kind;
mod key_faults;
mod kinds;
mod laws;
mod memory;
mod name_map;
mod op_fault;
mod pairs;
mod quotes;
mod raw_bytes;
mod repr;
mod sameness;
mod sizes;
mod sums;
mod texts;
mod types;

pub use charges::operand_charge;
pub use copies::copy;
pub use error_kind::ErrorKind;
pub use kinds::Kind;
pub use laws::{texts_by_type, worked_texts};
pub use memory::Memory;
pub use name_map::NameMap;
pub use op_fault::OpFault;
pub use quotes::hex_digit;
pub use raw_bytes::RawBytes;
pub use repr::{write_element, write_repr, write_str};
pub use sameness::same;
pub use sizes::size;
pub use sums::add;
pub use texts::{Lines, Text};
pub use types::{Data, Element, Pairs, Value, Values};
