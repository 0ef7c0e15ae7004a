//! The rows of the lines: their names, what is asserted of them, their flushes and the bars of their stores.
use crate::layout::{EDGE, LEFT, lane_top, row_height};
use crate::marks::{push_small_flush, worth_of};
use crate::missing::push_missing_flushes;
use crate::page::Page;
use crate::segments::push_bar;
use pmt_pen::Pen;
use pmt_picture::{AssertedRole, DrawnRow};
use pmt_text::line_address;

/// Adds the rows of the lines.
pub fn push_rows(pen: &mut Pen, page: Page<'_>) {
    let mut top = page.rows;
    let mut shaded = true;
    for row in &page.picture.rows {
        push_row(pen, page, row, top, shaded);
        top = top.saturating_add(row_height(row));
        shaded = !shaded;
    }
}

// Adds the row of a line, which begins there.
fn push_row(pen: &mut Pen, page: Page<'_>, row: &DrawnRow, top: u64, shaded: bool) {
    let address = line_address(page.picture.format, row.line);
    pen.fill("<g class='line' data-line='@'>", &[address]);
    if shaded {
        pen.fill(
            "<rect class='band' x='#' y='#' width='#' height='#'/>",
            &[
                EDGE,
                top,
                page.layout.right.saturating_sub(EDGE),
                row_height(row),
            ],
        );
    }
    pen.fill(
        "<text class='end strong' x='#' y='#'>@</text>\n",
        &[LEFT - 14, top.saturating_add(18), address],
    );
    push_asserted(pen, page, row, top);
    for flush in &row.flushes {
        if let Some(column) = page.picture.column(flush.number) {
            let x = page.layout.middle(flush.number);
            push_small_flush(pen, worth_of(column), flush.thread, x, top);
        }
    }
    push_missing_flushes(pen, page, row.line, top);
    for bar in &row.bars {
        push_bar(pen, page, bar, address, lane_top(top, bar.lane));
    }
    pen.put("</g>\n");
}

// Adds which bytes of the line the failed assertion speaks of, under the line's name, and what is claimed of them.
fn push_asserted(pen: &mut Pen, page: Page<'_>, row: &DrawnRow, top: u64) {
    let mut y = top.saturating_add(31);
    for claim in &page.picture.asserted {
        let Some(asserted) = claim else {
            continue;
        };
        let Some((first, last)) = asserted.within(page.picture.format, row.line) else {
            continue;
        };
        pen.fill(
            "<rect class='asserted-side' x='#' y='#' width='3' height='10'/><text class='end small asserted' data-first='#' data-last='#' x='#' y='#'>",
            &[LEFT - 8, y.saturating_sub(8), first, last, LEFT - 14, y],
        );
        pen.put(match asserted.role {
            AssertedRole::Saved => "claimed",
            AssertedRole::First => "first",
            AssertedRole::Second => "second",
        });
        if first == last {
            pen.fill(" +#</text>", &[first]);
        } else {
            pen.fill(" +# to +#</text>", &[first, last]);
        }
        y = y.saturating_add(11);
    }
}
