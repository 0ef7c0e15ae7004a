//! The picture as SVG.
use crate::head::push_head;
use crate::header::{push_columns, words_height};
use crate::layout::{EDGE, Layout, row_height};
use crate::legend::{legend_height, push_legend};
use crate::missing::push_missing;
use crate::page::Page;
use crate::rows::push_rows;
use crate::style::{PATTERNS, STYLE};
use crate::threads::push_threads;
use crate::veil::{NAME_LINE, push_crash};
use pmt_asked::Labels;
use pmt_model::OutOfMemory;
use pmt_pen::Pen;
use pmt_picture::Picture;
use std::alloc::Global;

// The room over the legend.
const APART: u64 = 28;

/// The picture as one SVG that needs nothing else. The same picture and labels give the same text.
///
/// # Errors
/// Where memory was refused.
pub fn svg_text(alloc: Global, picture: &Picture, labels: &Labels) -> Result<String, OutOfMemory> {
    let layout = Layout::new(alloc, picture)?;
    let mut drawn = Pen::new(alloc);
    let top = push_head(&mut drawn, picture, &layout);
    let page = page_of(picture, &layout, labels, top);
    push_page(&mut drawn, page);
    let end = page.end.saturating_add(APART);
    let mut pen = Pen::new(alloc);
    let height = end.saturating_add(legend_height(drawn.as_str()));
    push_opening(&mut pen, picture, layout.width(), height);
    pen.share(&drawn);
    pen.put(drawn.as_str());
    push_legend(&mut pen, drawn.as_str(), EDGE, end);
    pen.put("</svg>\n");
    pen.finish()
}

// The page that begins there, below the head.
fn page_of<'a>(picture: &'a Picture, layout: &'a Layout, labels: &'a Labels, top: u64) -> Page<'a> {
    let names = if picture.crash.is_some() {
        NAME_LINE
    } else {
        0
    };
    let threads = top
        .saturating_add(names)
        .saturating_add(words_height(picture, layout, labels));
    let rows = threads
        .saturating_add(layout.threads_height())
        .saturating_add(12);
    let mut end = rows;
    for row in &picture.rows {
        end = end.saturating_add(row_height(row));
    }
    Page {
        picture,
        layout,
        labels,
        name: top,
        threads,
        rows,
        end,
    }
}

// Adds what is drawn below the head.
fn push_page(pen: &mut Pen, page: Page<'_>) {
    pen.put("<g class='columns'>\n");
    push_threads(pen, page);
    push_rows(pen, page);
    push_columns(pen, page);
    push_missing(pen, page);
    push_crash(pen, page);
    pen.put("</g>\n");
}

// Adds what stands before the drawing.
fn push_opening(pen: &mut Pen, picture: &Picture, width: u64, height: u64) {
    let (events, size) = (picture.events, picture.format.line_size());
    pen.fill(
        "<svg xmlns='http://www.w3.org/2000/svg' width='#' height='#' viewBox='0 0 # #' role='img' data-events='#' data-line-size='#'>\n",
        &[width, height, width, height, events, size],
    );
    pen.put("<style>");
    pen.put(STYLE);
    pen.put("</style>\n");
    pen.put(PATTERNS);
    pen.fill(
        "\n<rect class='paper' width='#' height='#'/>\n",
        &[width, height],
    );
}
