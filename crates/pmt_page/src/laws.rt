//! Laws of the page.
ghost use Rattle.std.specs.Prelude.{◌≡◌, ℕ, ◌==◌, List, false};
ghost use Rattle.std.specs.List.{list_any};
ghost use Rattle.pmt_page.specs.Pages.{embedded, ColumnsTellEvents, LinesBecomeArray};

/// No `<` stands in JSON as the page has it, so it can not end the element that it stands in.
pub fn embedded_has_no_less_than()
    ensures { (json : List ℕ) → list_any (λ c. c == 60) (embedded json) ≡ false }
{}

/// The columns of a trace, where none are left out, are those of no other events: whoever reads them can have all of these back.
pub fn columns_tell_events()
    ensures { ColumnsTellEvents }
{}

/// Lines of JSON, a value each, become the array of these values.
pub fn lines_become_array()
    ensures { LinesBecomeArray }
{}
