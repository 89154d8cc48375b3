// The names of the sliders that the lines of a file make, and whether a line imports `mo`.
ghost use Rattle.std.specs.Prelude.{◌≡◌, codes, IfOk, OnOk};
ghost use Rattle.std.specs.Str.{bytes_eq};
ghost use Rattle.thin_form.specs.SliderNames.{as_elements, unknown, Learns};
ghost use Rattle.form_meaning.specs.Fails.{AreElements};

use crate::sliders::slider_in;
use py_tree::whole_line;
use py_value::Memory;
use std::alloc::Global;
use std::collections::BTreeSet;
use std::marker::Model;

// The names of the sliders that lines make, and whether a line imports `mo`.
#[derive(Drop)]
pub struct SliderNames<'a> {
    sliders: BTreeSet<&'a str>,
    imported: bool,
}

impl<'a> Model for SliderNames<'a> {
    ghost use Rattle.std.specs.Prelude.{map};
    ghost use Rattle.thin_form.specs.SliderNames.{Known};

    ghost Value = { Known };

    ghost view = { λ es. record { sliders = map (λ name. name.now) es.sliders.keys; imported = es.imported } };
}

impl<'a> SliderNames<'a> {
    // Before any line.
    fn new(alloc: Global) -> Self
        ensures { result ≡ unknown }
    {
        SliderNames {
            sliders: BTreeSet::new(alloc),
            imported: false,
        }
    }

    // Whether the name is that of a slider.
    pub fn is_slider(&self, name: &str) -> bool
        ensures { result ≡ (as_elements self.now).is_slider name.now }
    {
        self.sliders.contains(name)
    }

    // Whether a line imports `mo`.
    pub fn imported(&self) -> bool
        ensures { result ≡ (as_elements self.now).imported }
    {
        self.imported
    }

    // Takes in what a line says.
    fn learn(&mut self, line: &'a [u8]) -> Result<(), Memory>
        ensures { OnOk result (Learns line.now self.old self.new) }
    {
        self.imported |= is_import(line);
        if let Some(name) = slider_in(line) {
            self.sliders.insert(name)?;
        }
        Ok(())
    }

    /// What the whole lines of these bytes say, also the lines behind one that doesn't fit.
    pub fn of(alloc: Global, bytes: &'a [u8]) -> Result<SliderNames<'a>, Memory>
        ensures { IfOk result (λ es. AreElements bytes.now (as_elements es)) }
    {
        let mut elements = SliderNames::new(alloc);
        let mut rest = bytes;
        while let Some((line, after)) = whole_line(rest) {
            elements.learn(line)?;
            rest = after;
        }
        Ok(elements)
    }
}

// Whether the line, with its indent, imports `mo`.
fn is_import(line: &[u8]) -> bool
    ensures { result ≡ bytes_eq line.now (codes "    import marimo as mo") }
{
    line == b"    import marimo as mo".as_slice()
}
