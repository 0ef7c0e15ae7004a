//! Why a stream gave up.

use pmt_text::SourceError;
use thiserror::Error;

/// Why a stream gave up.
#[derive(Clone, Copy, Debug, PartialEq, Eq, Error)]
pub enum StreamError {
    /// The source told this fault.
    #[error("{0}")]
    Source(SourceError),
    /// A growth was refused.
    #[error("out of memory")]
    OutOfMemory,
    /// A write or the last flush failed, once the first `written` bytes were out.
    #[error("a write failed after {written} bytes")]
    Write {
        /// How many bytes are out.
        written: u64,
    },
}
