// Texts of elements.
ghost use Rattle.std.specs.Prelude.{◌≡◌, IfOk};
ghost use Rattle.py_value.specs.Texts.{element_text};

use py_value::{Element, Memory, Text, write_element};
use std::alloc::Global;

/// The text of the element: its kind, its name and the parameters of its call. Its present value isn't in it.
pub fn shown(alloc: Global, element: &Element) -> Result<Text, Memory>
    ensures { IfOk result (λ t. t ≡ element_text element.now) }
{
    let mut text = Text::new(alloc);
    write_element(alloc, element, &mut text)?;
    Ok(text)
}
