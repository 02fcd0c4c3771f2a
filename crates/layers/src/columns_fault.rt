//! Faults in lists of columns.
use thiserror::Error;

/// Why names don't choose columns. A name is given by its index in the list, counted from 0.
#[derive(Clone, Copy, Debug, PartialEq, Eq, Error)]
pub enum ColumnsFault {
    #[error("the list of names is empty")]
    Empty,
    #[error("name {0} of the list is no column")]
    Unknown(usize),
    #[error("name {0} of the list is repeated")]
    Repeated(usize),
}
