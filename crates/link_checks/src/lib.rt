//! The tests of files, doors, porches and links that are proved functions: of what no contract says, and of the real ones, which tell
//! nothing.
#![tactic(auto)]

#[cfg(test)]
mod calls;
#[cfg(test)]
mod doors;
#[cfg(test)]
mod files;
#[cfg(test)]
mod sockets;
