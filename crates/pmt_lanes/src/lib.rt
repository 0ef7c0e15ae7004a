//! What stands at the front of a text, read by lanes: sixteen bytes at once. A number of base 10 or 16, or bytes as pairs of digits.
//!
//! Each function takes a few steps, whatever the number of digits. It answers `None` where what stands first has another form, and
//! where fewer than sixteen bytes are left: then the text is to be read digit by digit. The definitions stand in `specs/`.
#![tactic(auto)]

pub mod decimal;
pub mod hex;
pub(crate) mod runs;

pub use crate::decimal::decimal_number;
pub use crate::hex::{hex_bytes, hex_number};
