// Kinds of elements.
ghost use Rattle.std.specs.Prelude.{◌≡◌};
ghost use Rattle.py_value.specs.Elements.{kind_called};
ghost use Rattle.py_value.specs.Texts.{kind_name};

/// The kind of an element, named as the function of `marimo.ui` that makes it.
#[derive(Clone, Copy, Debug, PartialEq, Eq)]
pub enum Kind {
    Slider,
    Number,
    Checkbox,
    Switch,
    Text,
    TextArea,
    Dropdown,
    Radio,
    Multiselect,
}

impl Kind {
    /// The name of the function of `marimo.ui` that makes elements of the kind.
    pub fn name(self) -> &'static str
        ensures { result.now ≡ kind_name self }
    {
        match self {
            Kind::Slider => "slider",
            Kind::Number => "number",
            Kind::Checkbox => "checkbox",
            Kind::Switch => "switch",
            Kind::Text => "text",
            Kind::TextArea => "text_area",
            Kind::Dropdown => "dropdown",
            Kind::Radio => "radio",
            Kind::Multiselect => "multiselect",
        }
    }

    /// The kind that a function of `marimo.ui` of this name makes.
    pub fn called(name: &str) -> Option<Kind>
        ensures { result ≡ kind_called name.now }
    {
        match name {
            "slider" => Some(Kind::Slider),
            "number" => Some(Kind::Number),
            "checkbox" => Some(Kind::Checkbox),
            "switch" => Some(Kind::Switch),
            "text" => Some(Kind::Text),
            "text_area" => Some(Kind::TextArea),
            "dropdown" => Some(Kind::Dropdown),
            "radio" => Some(Kind::Radio),
            "multiselect" => Some(Kind::Multiselect),
            _ => None,
        }
    }
}
