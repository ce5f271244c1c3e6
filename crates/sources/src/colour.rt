//! Colours of rows.
ghost use Rattle.std.specs.Prelude.{◌≡◌};
ghost use Rattle.sources.specs.Colours.{is_clean};

/// What is known of a row's value against its sources (`docs/SEMANTICS.md`, "Colours").
#[derive(Clone, Copy, Debug, PartialEq, Eq)]
pub enum Colour {
    /// The row has the value that its sources give. A row that is not derived is always clean.
    Clean,
    /// Something that the row depends on was written. Its recorded sources are looked at before it
    /// runs.
    Check,
    /// A source that the row reads was written, or the row never ran.
    Dirty,
}

impl Colour {
    /// Whether nothing is left to be done for the row.
    pub fn is_clean(self) -> bool
        ensures { result ≡ is_clean self }
    {
        matches!(self, Colour::Clean)
    }
}
