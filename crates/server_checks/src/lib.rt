//! The tests that are proved functions, of workers that serve the visitors of doors: of what no contract says and no run of the program
//! shows. Each file tests one subject, by the public functions of the crates below.
#![tactic(auto)]

#[cfg(test)]
mod memory_doors;
#[cfg(test)]
mod notebooks;
#[cfg(test)]
mod side_by_side;
