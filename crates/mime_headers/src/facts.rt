//! Examples of the definitions of specs/. What their proofs state is proved with the tests, and not before the program first runs.

/// Lines, heads and fields.
#[test]
fn heads() {}

/// Rows, reports, offers and errors.
#[test]
fn reports() {}
