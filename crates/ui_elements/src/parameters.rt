// The parameters of the kinds of elements.

/// What a parameter is where no argument is given for it.
#[derive(Clone, Copy)]
pub enum Preset {
    /// An argument has to be given.
    Wanted,
    Number(i128),
    EmptyText,
    /// What an earlier parameter is.
    Same(&'static str),
}

/// A parameter. Where it stands among others is its place.
#[derive(Clone, Copy)]
pub struct Parameter {
    pub name: &'static str,
    pub preset: Preset,
}

/// The parameters of `marimo.ui.slider` (marimo's documentation, "Inputs").
pub const SLIDER: [Parameter; 5] = [
    Parameter {
        name: "start",
        preset: Preset::Wanted,
    },
    Parameter {
        name: "stop",
        preset: Preset::Wanted,
    },
    Parameter {
        name: "step",
        preset: Preset::Number(1),
    },
    Parameter {
        name: "value",
        preset: Preset::Same("start"),
    },
    Parameter {
        name: "label",
        preset: Preset::EmptyText,
    },
];
