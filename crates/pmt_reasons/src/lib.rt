//! Why a crash may lose a store and what mends that, and why a flush or fence has no effect: the definitions, and laws about them.
//! Each function has an empty body, and its contract states a theorem.
#![tactic(auto)]

pub mod cause;
pub mod causes;
pub mod failure;
pub mod failures;
pub mod mend;
pub mod mends;
pub mod reason;
pub mod reasons;

pub use crate::cause::Cause;
pub use crate::failure::{ByteStore, Failure};
pub use crate::mend::Mend;
pub use crate::reason::Reason;
