//! What the words of `pmtrim` ask for.
#![tactic(auto)]

mod drawing;
mod explaining;
mod imaging;
mod measuring;
mod parting;
mod request;
mod slicing;

pub use crate::drawing::{AskedEvents, Drawing};
pub use crate::explaining::{Color, ExplainWords, Form, options_for};
pub use crate::imaging::{AddressStores, AskedCrash, ImageWords, ListWords, PlaceRange, has_place};
pub use crate::measuring::StatWords;
pub use crate::parting::PartsWords;
pub use crate::request::{RecordWords, Request, Run, RunWords};
pub use crate::slicing::{SliceSubject, SliceWords};

/// The version of the program.
pub const VERSION: &str = "1.0.0";
