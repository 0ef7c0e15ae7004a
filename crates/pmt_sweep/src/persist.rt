//! Whether a range is persisted.
ghost use Rattle.std.specs.Prelude.{◌≡◌, ℕ, ◌≤◌, ◌↔◌, true};
ghost use Rattle.pmt_laws.specs.Prelude.{PersistPasses, Recording, history, Span};
ghost use Rattle.pmt_sweep.specs.Known.{IsKnownOf, IsLineOf};
ghost use Rattle.pmt_sweep.specs.Judged.{IsAtLine, IsLineSafe};

use crate::known::Known;
use crate::placed::Placed;
use pmt_model::Range;
use pmt_tables::Spanned;

/// Whether `isPersist` of this range passes after the events so far. It takes one step a line that has no store beyond its last safe one,
/// else one a word.
#[inline(never)]
pub fn is_persisted(known: &Known, range: Range) -> bool
    requires { (T : Recording) × (n : ℕ) × IsKnownOf T n known.now }
    ensures { (T : Recording) (n : ℕ) → IsKnownOf T n known.now → (result ≡ true) ↔ PersistPasses (history T n) range }
{
    let lines = Spanned::new(known.format(), range);
    for line in lines.first..lines.last + 1 {
        if !is_placed_persisted(known, &lines, line) {
            return false;
        }
    }
    true
}

// Whether the bytes of the range in this line are persisted.
#[inline(always)]
fn is_placed_persisted(known: &Known, lines: &Spanned, line: u64) -> bool
    requires { (T : Recording) × (n : ℕ) × (A : Span) × IsLineOf T n A lines.now line known.now }
    ensures { (T : Recording) (n : ℕ) (A : Span) → IsLineOf T n A lines.now line known.now → (result ≡ true) ↔ IsLineSafe T n A line }
{
    match known.find(line) {
        Some(slot) => is_line_persisted(known, lines, &Placed { line, slot }),
        None => true,
    }
}

// The same of a line that has a slot.
#[inline(always)]
fn is_line_persisted(known: &Known, lines: &Spanned, at: &Placed) -> bool
    requires { (T : Recording) × (n : ℕ) × (A : Span) × IsAtLine T n A lines.now at.now known.now }
    ensures { (T : Recording) (n : ℕ) (A : Span) → IsAtLine T n A lines.now at.now known.now → (result ≡ true) ↔ IsLineSafe T n A at.now.line }
{
    let row = known.row(at.slot);
    if row.last_store <= row.safe {
        return true;
    }
    let bytes = lines.bytes(at.line);
    known.newest(at.slot, bytes.low, bytes.high) <= row.safe
}
