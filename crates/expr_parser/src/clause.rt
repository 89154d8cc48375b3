// What stands behind `for` in a comprehension.
use crate::lists::Parts;
use crate::part::Part;
use py_tree::Spelling;

/// `TARGETS in FROM if TEST ..`
#[derive(Drop)]
pub struct Clause {
    pub targets: Vec<Spelling>,
    pub from: Part,
    pub tests: Parts,
}
