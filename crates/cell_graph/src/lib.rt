//! The graph of a notebook's cells: the names that they define and reference, their parents and their order; names that are defined
//! again, cells on cycles, and cells that run again.
#![tactic(auto)]

mod build;
mod cell_elements;
mod cell_list;
mod cell_names;
mod cell_places;
mod children;
mod cycles;
mod definers;
mod fault;
mod free_names;
mod graph;
mod name_set;
mod order;
mod parent_counts;
mod parents;
mod place_set;
mod readers;
mod scope;

pub use build::notebook;
pub use cell_elements::elements;
pub use cell_list::CellList;
pub use cell_names::{defs, refs};
pub use fault::GraphFault;
pub use graph::Notebook;
