//! The mode of the program.

ghost use Rattle.std.specs.Prelude.{◌≡◌};

/// The kind of report on each line.
#[derive(Clone, Copy, PartialEq, Eq, Debug)]
pub enum Mode {
    /// The parts of the line's media type, or the line's fault: for `a/b` the rows `ok a/b`, `type a` and `subtype b`.
    Parts,
    /// The media types and the bad pieces of the line, as [`mime::MimeIter`] yields them.
    List,
}

/// A `Mode` can always be copied and cloned, and the copy is the same as the original.
pub fn copies_are_same()
    ensures mode { (value copy : Mode) → ⟦<Mode as Clone>⟧.is_clone value copy → copy ≡ value }
    ensures mode_always { (value : Mode) → ⟦<Mode as Clone>⟧.is_infallible value }
{}
