//! The laws of the public types, as a function that does nothing. A caller of this function can use the laws in a proof.

ghost use Rattle.std.specs.Prelude.{◌≡◌};

use crate::device::Failed;
use crate::error::{ReadError, RunError};

/// A `RunError`, a `ReadError` or a `Failed` can always be copied and cloned, and the copy is the same as the original.
pub fn copies_are_same()
    ensures error { (value copy : RunError) → ⟦<RunError as Clone>⟧.is_clone value copy → copy ≡ value }
    ensures error_always { (value : RunError) → ⟦<RunError as Clone>⟧.is_infallible value }
    ensures read { (value copy : ReadError) → ⟦<ReadError as Clone>⟧.is_clone value copy → copy ≡ value }
    ensures read_always { (value : ReadError) → ⟦<ReadError as Clone>⟧.is_infallible value }
    ensures failed { (value copy : Failed) → ⟦<Failed as Clone>⟧.is_clone value copy → copy ≡ value }
    ensures failed_always { (value : Failed) → ⟦<Failed as Clone>⟧.is_infallible value }
{}
