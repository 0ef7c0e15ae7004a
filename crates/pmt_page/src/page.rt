//! The page, laid together of its parts.
ghost use Rattle.std.specs.Prelude.{◌≡◌, ◌++◌, IfOk, OnOk};
ghost use Rattle.pmt_page.specs.Pages.{page, parts_of, source_data, still, told_data, trace_data, filled as filled_with};

use crate::escapes::{push_embedded, push_html};
use crate::template::{Template, own_template};
use pmt_model::OutOfMemory;
use std::alloc::Global;

/// What a page shows.
#[derive(Clone, Copy)]
pub struct PageBlocks<'a> {
    /// The first picture, as an element of SVG, which stands there until the script is ready,
    pub picture: &'a str,
    /// and the text of `explain` for people.
    pub text: &'a [u8],
    /// The data, as JSON: what the page is of,
    pub about: &'a [u8],
    /// the columns of the trace,
    pub columns: &'a [u8],
    /// what `explain` tells,
    pub explained: &'a [u8],
    /// what the events are called,
    pub labels: &'a [u8],
    /// and lines of source files.
    pub sources: &'a [u8],
}

/// The page with these blocks, which needs nothing else. No data ends the element that it stands in: each `<` of it is written
/// `\u003c`, and the text is escaped. The picture goes in as it is.
///
/// # Errors
/// Where memory was refused.
pub fn page_text(alloc: Global, blocks: PageBlocks<'_>) -> Result<Vec<u8>, OutOfMemory>
    ensures { IfOk result (λ text. text.items ≡ page blocks.entry) }
{
    filled(alloc, own_template(), blocks)
}

// A template with these blocks between its parts.
fn filled(
    alloc: Global,
    template: Template<'_>,
    blocks: PageBlocks<'_>,
) -> Result<Vec<u8>, OutOfMemory>
    ensures { IfOk result (λ text. text.items ≡ filled_with (parts_of template.entry) blocks.entry) }
{
    let mut text = Vec::new(alloc);
    push_still(&mut text, template, blocks)?;
    push_trace_data(&mut text, template, blocks)?;
    push_told_data(&mut text, template, blocks)?;
    Ok(text)
}

// Adds the start of the page, and what stands there until the script is ready.
fn push_still(
    text: &mut Vec<u8>,
    template: Template<'_>,
    blocks: PageBlocks<'_>,
) -> Result<(), OutOfMemory>
    ensures { OnOk result (text.new.items ≡ text.old.items ++ still (parts_of template.entry) blocks.entry) }
{
    text.extend_from_slice(template.before_picture.as_bytes())?;
    text.extend_from_slice(blocks.picture.as_bytes())?;
    text.extend_from_slice(template.before_text.as_bytes())?;
    push_html(text, blocks.text)
}

// Adds the body of the page, and the data of the trace.
fn push_trace_data(
    text: &mut Vec<u8>,
    template: Template<'_>,
    blocks: PageBlocks<'_>,
) -> Result<(), OutOfMemory>
    ensures { OnOk result (text.new.items ≡ text.old.items ++ trace_data (parts_of template.entry) blocks.entry) }
{
    text.extend_from_slice(template.before_about.as_bytes())?;
    push_embedded(text, blocks.about)?;
    text.extend_from_slice(template.before_columns.as_bytes())?;
    push_embedded(text, blocks.columns)
}

// Adds what is told of it, and the end of the page, with the script.
fn push_told_data(
    text: &mut Vec<u8>,
    template: Template<'_>,
    blocks: PageBlocks<'_>,
) -> Result<(), OutOfMemory>
    ensures { OnOk result (text.new.items ≡ text.old.items ++ told_data (parts_of template.entry) blocks.entry) }
{
    text.extend_from_slice(template.before_explained.as_bytes())?;
    push_embedded(text, blocks.explained)?;
    text.extend_from_slice(template.before_labels.as_bytes())?;
    push_embedded(text, blocks.labels)?;
    push_source_data(text, template, blocks)
}

// Adds the lines of source files, and the end of the page, with the script.
fn push_source_data(
    text: &mut Vec<u8>,
    template: Template<'_>,
    blocks: PageBlocks<'_>,
) -> Result<(), OutOfMemory>
    ensures { OnOk result (text.new.items ≡ text.old.items ++ source_data (parts_of template.entry) blocks.entry) }
{
    text.extend_from_slice(template.before_sources.as_bytes())?;
    push_embedded(text, blocks.sources)?;
    text.extend_from_slice(template.after_sources.as_bytes())
}
