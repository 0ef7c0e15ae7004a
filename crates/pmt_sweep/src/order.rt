//! Whether a range persists before another.
ghost use Rattle.std.specs.Prelude.{◌≡◌, ℕ, ◌↔◌, true};
ghost use Rattle.pmt_laws.specs.Prelude.{OrderedPasses, Recording, history, Span};
ghost use Rattle.pmt_tables.specs.Slots.{IsSpanned};
ghost use Rattle.pmt_sweep.specs.Known.{IsKnownOf, IsLineOf};
ghost use Rattle.pmt_sweep.specs.Judged.{AreSafeFrom, IsLineOrdered, AreOldestOf};

use crate::known::Known;
use crate::latest::Latest;
use crate::line_order::{is_line_ordered, latest_of};
use crate::oldest::OldestStores;
use crate::placed::Placed;
use pmt_model::Range;
use pmt_tables::Spanned;

/// Whether `isOrderedBefore` of these ranges passes after the events so far. It takes one step a line that is whole in its range, else one a
/// word; and once after each store to a line one a word, where the second range has all of the line.
#[inline(never)]
pub fn is_ordered(known: &Known, oldest: &mut OldestStores, first: Range, second: Range) -> bool
    requires { (T : Recording) × (n : ℕ) × IsKnownOf T n known.now }
    ensures tells { (T : Recording) (n : ℕ) → IsKnownOf T n known.now → AreOldestOf T n oldest.old.found.items → (result ≡ true) ↔ OrderedPasses (history T n) first second }
    ensures kept { (T : Recording) (n : ℕ) → IsKnownOf T n known.now → AreOldestOf T n oldest.old.found.items → AreOldestOf T n oldest.new.found.items }
{
    let format = known.format();
    let before = Spanned::new(format, first);
    let after = Spanned::new(format, second);
    let latest = latest_of(known, &before, &after);
    if latest.first == 0 {
        return true;
    }
    for line in after.first..after.last + 1 {
        if !is_placed_ordered(known, oldest, &before, &latest, &after, line) {
            return false;
        }
    }
    true
}

// Whether the last stores to bytes of the first range come no later than those to the second range's bytes of this line.
#[inline(always)]
fn is_placed_ordered(
    known: &Known,
    oldest: &mut OldestStores,
    first: &Spanned,
    latest: &Latest,
    second: &Spanned,
    line: u64,
) -> bool
    requires { (T : Recording) × (n : ℕ) × (A : Span) × (B : Span) × IsLineOf T n B second.now line known.now × IsSpanned T.format A first.now }
    ensures tells { (T : Recording) (n : ℕ) (A B : Span) → IsLineOf T n B second.now line known.now → IsSpanned T.format A first.now → AreSafeFrom T n known.now.links A B latest.now → AreOldestOf T n oldest.old.found.items → (result ≡ true) ↔ IsLineOrdered T n known.now.links A B line }
    ensures kept { (T : Recording) (n : ℕ) (B : Span) → IsLineOf T n B second.now line known.now → AreOldestOf T n oldest.old.found.items → AreOldestOf T n oldest.new.found.items }
{
    match known.find(line) {
        Some(slot) => {
            is_line_ordered(known, oldest, first, latest, second, &Placed { line, slot })
        }
        None => true,
    }
}
