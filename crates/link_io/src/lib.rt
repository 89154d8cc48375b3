//! The outside, as the program sees it: files that are read, a place that is written to, and visitors, in memory and real. Visitors come
//! through doors, which a porch gives, and each has a link.
#![tactic(auto)]

mod answers;
mod door;
mod files;
mod gate;
mod link;
mod mem_door;
mod mem_files;
mod mem_link;
mod mem_porch;
mod mem_sink;
mod mem_talk;
mod mem_visits;
mod porch;
mod real_files;
mod real_out;
mod sink;
mod tcp_door;
mod tcp_porch;
mod whole_file;
mod whole_text;
mod ws_link;

pub use answers::{Accepted, PorchFault, Received, Sent};
pub use door::Door;
pub use files::{Failed, Files};
pub use gate::{Gate, NoGate};
pub use link::Link;
pub use mem_door::MemDoor;
pub use mem_files::{MemFile, MemFiles};
pub use mem_link::MemLink;
pub use mem_porch::MemPorch;
pub use mem_sink::MemSink;
pub use porch::Porch;
pub use real_files::RealFiles;
pub use real_out::RealOut;
pub use sink::Sink;
pub use tcp_door::TcpDoor;
pub use tcp_porch::TcpPorch;
pub use whole_file::{ReadFault, read_file};
pub use whole_text::write_all;
pub use ws_link::WsLink;
