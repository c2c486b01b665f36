//! How far a list has come: what its lines so far have decided.
use crate::form::Form;

/// How far a list has come.
#[derive(Clone, Copy, Debug, PartialEq, Eq)]
pub(crate) enum State {
    /// Line 1 is still to come.
    Start,
    /// The line that decides the form is still to come. In a list of version 2 the unit is known, in ns.
    Formless(Option<u32>),
    /// The form is known, and the time in ns of the last row, or 0 before the first.
    Rows(Form, u64),
}
