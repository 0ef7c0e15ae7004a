//! What an order of two ranges asks of their lines.
ghost use Rattle.std.specs.Prelude.{◌≡◌, ℕ, ◌+◌, ◌^◌, ◌<◌, ◌↔◌, true};
ghost use Rattle.pmt_laws.specs.Prelude.{Recording, Span};
ghost use Rattle.pmt_safety.specs.Safety.{last_line_store_at, safe_store_at};
ghost use Rattle.pmt_tables.specs.Slots.{IsSpanned};
ghost use Rattle.pmt_sweep.specs.Known.{IsKnownOf, IsLineAt, IsLineOf};
ghost use Rattle.pmt_sweep.specs.Judged.{AreSafeFrom, AreSafeFromBelow, IsAtLine, IsLineBefore, IsLineOrdered, IsNewestIn, IsOldestIn, IsToldFrom, AreOldestOf};

use crate::known::Known;
use crate::latest::Latest;
use crate::oldest::OldestStores;
use crate::placed::Placed;
use pmt_tables::Spanned;

// Of the lines of the range the places from which their last stores are safe: the latest one, and the latest one of the other lines. It
// ends once there is a store that is not safe beside each line of the second range.
#[inline(never)]
pub(crate) fn latest_of(known: &Known, lines: &Spanned, second: &Spanned) -> Latest
    requires { (T : Recording) × (n : ℕ) × (A : Span) × IsKnownOf T n known.now × IsSpanned T.format A lines.now }
    ensures { (T : Recording) (n : ℕ) (A B : Span) → IsKnownOf T n known.now → IsSpanned T.format A lines.now → IsSpanned T.format B second.now → AreSafeFrom T n known.now.links A B result }
{
    let mut latest = Latest::none();
    for line in lines.first..lines.last + 1 {
        add_placed(&mut latest, known, lines, line);
        if latest.is_pending_apart(second) {
            return latest;
        }
    }
    latest
}

// One more line, if it has a slot.
#[inline(always)]
fn add_placed(latest: &mut Latest, known: &Known, lines: &Spanned, line: u64)
    requires { (T : Recording) × (n : ℕ) × (A : Span) × IsLineOf T n A lines.now line known.now }
    ensures { (T : Recording) (n : ℕ) (A : Span) → IsLineOf T n A lines.now line known.now → AreSafeFromBelow T n known.now.links A line latest.old → AreSafeFromBelow T n known.now.links A (line + 1) latest.new }
{
    if let Some(slot) = known.find(line) {
        add_line(latest, known, lines, &Placed { line, slot });
    }
}

// One more line, if its bytes of the range have stores.
#[inline(always)]
fn add_line(latest: &mut Latest, known: &Known, lines: &Spanned, at: &Placed)
    requires { (T : Recording) × (n : ℕ) × (A : Span) × IsAtLine T n A lines.now at.now known.now }
    ensures { (T : Recording) (n : ℕ) (A : Span) → IsAtLine T n A lines.now at.now known.now → AreSafeFromBelow T n known.now.links A at.now.line latest.old → AreSafeFromBelow T n known.now.links A (at.now.line + 1) latest.new }
{
    let row = known.row(at.slot);
    let newest = newest_in(known, lines, at, row.last_store);
    if newest > 0 {
        latest.add(at.line, safe_from(known, row.safe, newest));
    }
}

// The newest of the last stores to the bytes of the range in the line, or 0: the line's last store, which is given, where the range goes
// beyond the line on both sides.
#[inline(always)]
fn newest_in(known: &Known, lines: &Spanned, at: &Placed, last_store: u32) -> u32
    requires { (T : Recording) × (n : ℕ) × (A : Span) × IsAtLine T n A lines.now at.now known.now }
    ensures { (T : Recording) (n : ℕ) (A : Span) → IsAtLine T n A lines.now at.now known.now → last_store ≡ last_line_store_at T at.now.line n → IsNewestIn T n A at.now.line result }
{
    if lines.first < at.line && at.line < lines.last {
        return last_store;
    }
    let bytes = lines.bytes(at.line);
    known.newest(at.slot, bytes.low, bytes.high)
}

// The place from which this store is safe, to a line of which that one is the last safe one: `u32::MAX` where it is not.
#[inline(always)]
fn safe_from(known: &Known, safe: u32, store: u32) -> u32
    requires { (T : Recording) × (n : ℕ) × (l : ℕ) × IsKnownOf T n known.now × (safe ≡ safe_store_at T l n) }
    ensures { (T : Recording) (n l : ℕ) → IsKnownOf T n known.now → safe ≡ safe_store_at T l n → IsToldFrom T n known.now.links l store result }
{
    if store <= safe {
        known.entry(store)
    } else {
        u32::MAX
    }
}

// Whether the last stores to bytes of the first range come no later than those to the second range's bytes of this line.
#[inline(always)]
pub(crate) fn is_line_ordered(
    known: &Known,
    oldest: &mut OldestStores,
    first: &Spanned,
    latest: &Latest,
    second: &Spanned,
    at: &Placed,
) -> bool
    requires { (T : Recording) × (n : ℕ) × (A : Span) × (B : Span) × IsAtLine T n B second.now at.now known.now × IsSpanned T.format A first.now }
    ensures tells { (T : Recording) (n : ℕ) (A B : Span) → IsAtLine T n B second.now at.now known.now → IsSpanned T.format A first.now → AreSafeFrom T n known.now.links A B latest.now → AreOldestOf T n oldest.old.found.items → (result ≡ true) ↔ IsLineOrdered T n known.now.links A B at.now.line }
    ensures kept { (T : Recording) (n : ℕ) (B : Span) → IsAtLine T n B second.now at.now known.now → AreOldestOf T n oldest.old.found.items → AreOldestOf T n oldest.new.found.items }
{
    let oldest = oldest_in(known, oldest, second, at);
    oldest == 0 || (latest.of_others(at.line) <= oldest && is_line_before(known, first, at, oldest))
}

// The oldest of the last stores to the bytes of the range in the line, or 0.
#[inline(always)]
fn oldest_in(known: &Known, oldest: &mut OldestStores, lines: &Spanned, at: &Placed) -> u32
    requires { (T : Recording) × (n : ℕ) × (A : Span) × IsAtLine T n A lines.now at.now known.now }
    ensures oldest { (T : Recording) (n : ℕ) (A : Span) → IsAtLine T n A lines.now at.now known.now → AreOldestOf T n oldest.old.found.items → IsOldestIn T n A at.now.line result }
    ensures kept { (T : Recording) (n : ℕ) (A : Span) → IsAtLine T n A lines.now at.now known.now → AreOldestOf T n oldest.old.found.items → AreOldestOf T n oldest.new.found.items }
{
    let bytes = lines.bytes(at.line);
    if (bytes.high - bytes.low) as u64 == known.format().line_size() {
        return oldest.of(known, at.slot);
    }
    known.oldest(at.slot, bytes.low, bytes.high)
}

// Whether in this line no last store to a byte of the range comes after this store.
#[inline(always)]
fn is_line_before(known: &Known, lines: &Spanned, at: &Placed, store: u32) -> bool
    requires small { at.now.slot < 2 ^ 32 }
    requires line { (T : Recording) × (n : ℕ) × (A : Span) × IsLineAt T n at.now.line at.now.slot known.now × IsSpanned T.format A lines.now }
    ensures { (T : Recording) (n : ℕ) (A : Span) → IsLineAt T n at.now.line at.now.slot known.now → IsSpanned T.format A lines.now → (result ≡ true) ↔ IsLineBefore T n A at.now.line store }
{
    if !lines.meets(at.line) {
        return true;
    }
    let bytes = lines.bytes(at.line);
    known.newest(at.slot, bytes.low, bytes.high) <= store
}
