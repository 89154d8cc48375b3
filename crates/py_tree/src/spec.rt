// How the value of an f-text's field becomes a text.

/// The conversion of a field.
#[derive(Clone, Copy, Debug, PartialEq, Eq)]
pub enum Convert {
    /// None is written.
    Plain,
    /// `!r`
    Repr,
    /// `!s`
    Str,
}

/// The alignment of a format.
#[derive(Clone, Copy, Debug, PartialEq, Eq)]
pub enum Align {
    /// `<`
    Left,
    /// `>`
    Right,
    /// `^`
    Center,
}

/// The type letter of a format.
#[derive(Clone, Copy, Debug, PartialEq, Eq)]
pub enum Form {
    /// `d`
    Decimal,
    /// `s`
    Text,
}

/// The format of a field (Python library reference, "Format Specification Mini-Language", the part that this language has). A width is a
/// number of characters from 1 to 200.
#[derive(Clone, Copy, Debug, PartialEq, Eq)]
pub enum Spec {
    /// An alignment, a width and a type letter, each of which may be left out.
    Aligned {
        align: Option<Align>,
        width: Option<u8>,
        form: Option<Form>,
    },
    /// `0`, a width, and whether a `d` is written.
    Zeros {
        width: u8,
        decimal: bool,
    },
    /// `,`, and whether a `d` is written.
    Comma {
        decimal: bool,
    },
}
