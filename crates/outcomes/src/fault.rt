//! Why a search came to no answer.

use thiserror::Error;

/// Why a search came to no answer.
#[derive(Clone, Copy, Debug, PartialEq, Eq, Drop, Error)]
pub enum SearchFault {
    /// More states can be reached than the limit.
    #[error("more states can be reached than the limit")]
    TooManyStates,
    /// The allocator refused memory.
    #[error("no memory")]
    NoMemory,
}
