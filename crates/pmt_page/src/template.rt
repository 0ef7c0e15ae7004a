//! The template of the page: what stands before its blocks, between them and after them.
ghost use Rattle.std.specs.Prelude.{◌≡◌};
ghost use Rattle.pmt_page.specs.Pages.{parts as own_parts, parts_of};

use crate::parts::{
    AFTER_SOURCES, BEFORE_ABOUT, BEFORE_COLUMNS, BEFORE_EXPLAINED, BEFORE_LABELS, BEFORE_PICTURE,
    BEFORE_SOURCES, BEFORE_TEXT,
};

/// The parts of a template, in the order in which they stand on the page. Each but the last is named after the block that follows.
#[derive(Clone, Copy)]
pub struct Template<'a> {
    pub before_picture: &'a str,
    pub before_text: &'a str,
    pub before_about: &'a str,
    pub before_columns: &'a str,
    pub before_explained: &'a str,
    pub before_labels: &'a str,
    pub before_sources: &'a str,
    pub after_sources: &'a str,
}

/// The template in `page/`.
pub(crate) fn own_template() -> Template<'static>
    ensures { parts_of result ≡ own_parts }
{
    TEMPLATE
}

const TEMPLATE: Template<'static> = Template {
    before_picture: BEFORE_PICTURE,
    before_text: BEFORE_TEXT,
    before_about: BEFORE_ABOUT,
    before_columns: BEFORE_COLUMNS,
    before_explained: BEFORE_EXPLAINED,
    before_labels: BEFORE_LABELS,
    before_sources: BEFORE_SOURCES,
    after_sources: AFTER_SOURCES,
};
