//! The shapes of a picture.
use pmt_pen::Pen;

/// Adds the start of an element of this class, with the filled form for its other attributes and what follows them.
pub fn push_shape(pen: &mut Pen, name: &str, class: &str, form: &str, numbers: &[u64]) {
    pen.put("<");
    pen.put(name);
    pen.put(" class='");
    pen.put(class);
    pen.put("' ");
    pen.fill(form, numbers);
}
