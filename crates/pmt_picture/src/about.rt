//! What a picture is about.
use crate::crash::{DrawnCrash, crash_at_end, crash_of};
use crate::known::KnownTrace;
use crate::subject::DrawnSubject;
use crate::told::{DrawnEvents, told_of};
use pmt_model::OutOfMemory;
use std::alloc::Global;

/// What a picture is about, and what it shows of it.
#[derive(Drop)]
pub struct PictureContent {
    /// The finding, or the event that is asked for.
    pub subject: DrawnSubject,
    /// Its crash, if it has one.
    pub crash: Option<DrawnCrash>,
    /// The events that the picture has.
    pub told: DrawnEvents,
}

/// The subject with its crash, and with the events that tell of it.
///
/// # Errors
/// Where memory was refused.
pub fn about_of(
    alloc: Global,
    known: KnownTrace<'_>,
    subject: DrawnSubject,
) -> Result<PictureContent, OutOfMemory> {
    let crash = match subject {
        DrawnSubject::Failure(number) => crash_of(alloc, known.trace, number)?,
        DrawnSubject::Lost(group) => Some(crash_at_end(alloc, known, group)?),
        _ => None,
    };
    let told = told_of(alloc, known.trace, subject, crash.as_ref())?;
    Ok(PictureContent {
        subject,
        crash,
        told,
    })
}
