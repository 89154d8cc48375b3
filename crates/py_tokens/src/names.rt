// The names of a file.
ghost use Rattle.std.specs.Prelude.{◌≡◌, ◌++◌, ℕ, List, [], IfOk, OnOk, Some};
ghost use Rattle.py_tokens.specs.NameView.{met, place_of};

use indexmap::IndexSet;
use py_tree::Spelling;
use std::alloc::{AllocError, Global};

/// The names of a file, keywords among them, each once, in the order in which they were met.
#[derive(Debug, Drop)]
pub struct Names {
    texts: IndexSet<String>,
}

impl Names {
    /// No names.
    pub fn new(alloc: Global) -> Names
        ensures { met result ≡ [] }
    {
        Names {
            texts: IndexSet::new(alloc),
        }
    }

    // The place of the name, which comes behind the others where it wasn't met before.
    fn place(&mut self, alloc: Global, name: &str) -> Result<usize, AllocError>
        ensures place { IfOk result (λ n. place_of name.now self.new ≡ Some n) }
        ensures kept { OnOk result ((later : List (List ℕ)) × (met self.new ≡ met self.old ++ later)) }
    {
        if let Some(place) = self.texts.get_index_of(name) {
            return Ok(place);
        }
        let (place, _) = self.texts.insert_full(String::from_str(alloc, name)?)?;
        Ok(place)
    }

    /// The spelling of the name, with its place.
    pub fn spelling(&mut self, alloc: Global, name: &str) -> Result<Spelling, AllocError>
        ensures { IfOk result (λ s. s ≡ name.now) }
    {
        let place = self.place(alloc, name)?;
        let copy = String::from_str(alloc, name)?;
        Ok(Spelling::of_name(copy, u32::try_from(place).ok()))
    }
}
