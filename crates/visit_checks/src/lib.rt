//! The tests that are proved functions, of a visitor's session and of what one is sent: of what no contract says and no run of the
//! program shows. Each file tests one subject, by the public functions of the crates below.
#![tactic(auto)]

#[cfg(test)]
mod frame_texts;
#[cfg(test)]
mod sessions;
#[cfg(test)]
mod visits;
