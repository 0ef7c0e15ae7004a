//! What a picture is drawn of.
use crate::layout::Layout;
use pmt_asked::Labels;
use pmt_picture::Picture;

/// What a picture is drawn of.
#[derive(Clone, Copy)]
pub struct Page<'a> {
    /// What is drawn.
    pub picture: &'a Picture,
    /// Where it stands.
    pub layout: &'a Layout,
    /// What the program calls its events.
    pub labels: &'a Labels,
    /// Where the crash's name stands.
    pub name: u64,
    /// Where the threads' rows begin, and where those of the lines do.
    pub threads: u64,
    pub rows: u64,
    /// Where the lines' rows end.
    pub end: u64,
}
