//! The tests that are proved functions, of values and of what is done with them: of what no contract says and no run of the program
//! shows. Each file tests one subject, by the public functions of the crates below. Those of a visitor's session stand in `visit_checks`.
#![tactic(auto)]

#[cfg(test)]
mod blocks;
#[cfg(test)]
mod graphs;
#[cfg(test)]
mod sliders;
#[cfg(test)]
mod trees;
#[cfg(test)]
mod value_texts;
#[cfg(test)]
mod values;
