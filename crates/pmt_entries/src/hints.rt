//! Hints that are told by themselves.

ghost use Rattle.std.specs.Prelude.{◌≡◌, IfOk, map, nat_eq};
ghost use Rattle.std.specs.List.{enumerate_from, filter_map};
ghost use Rattle.std.specs.HashSet.{IsFromIterResult, contains};
ghost use Rattle.pmt_fates.specs.Places.{same_place};
ghost use Rattle.pmt_entries.specs.Entries.{contrast_of, hint_entry as entry_of_hint, hint_entry_if, is_stored_after as is_stored_after_in};

use crate::entries::{Entry, Subject};
use crate::place_sets::Places;
use crate::sites::Site;
use crate::weight::weight_of_hint;
use pmt_hints::{Contrast, Hint, HintKind};
use pmt_model::OutOfMemory;
use std::alloc::Global;
use std::collections::HashSet;

// An entry for each of these hints, in the order of their contrasts, that is no small thing, and not told with one of these sites.
pub(crate) fn hint_entries(
    alloc: Global,
    sites: &[Site],
    hints: &[Hint],
    contrasts: &[Contrast],
) -> Result<Vec<Entry>, OutOfMemory>
    ensures { IfOk result (λ entries. entries.items ≡ filter_map (entry_of_hint sites.now contrasts.now) (enumerate_from 0 hints.now)) }
{
    let signs = signs_of(alloc, sites)?;
    let places = places_of(alloc, sites)?;
    hints
        .iter()
        .enumerate()
        .filter_map(|(index, hint)| hint_entry(&signs, &places, contrasts, index as u64, hint))
        .collect(alloc)
}

// The signs of these sites.
fn signs_of(alloc: Global, sites: &[Site]) -> Result<HashSet<u64>, OutOfMemory>
    ensures { IfOk result (IsFromIterResult nat_eq (filter_map (λ site. site.sign) sites.now)) }
{
    sites.iter().filter_map(|site| site.sign).collect(alloc)
}

// The places of these sites.
fn places_of(alloc: Global, sites: &[Site]) -> Result<Places, OutOfMemory>
    ensures { IfOk result (IsFromIterResult same_place (map (λ site. site.row.place) sites.now)) }
{
    sites.iter().map(|site| site.row.place).collect(alloc)
}

// The entry of the hint with this index, if it is none of these signs, and no store after its flush at one of these places.
fn hint_entry(
    signs: &HashSet<u64>,
    places: &Places,
    contrasts: &[Contrast],
    index: u64,
    hint: &Hint,
) -> Option<Entry>
    ensures { result ≡ hint_entry_if (contains nat_eq signs.now index) (contains same_place places.now hint.now.place) index (contrast_of contrasts.now index) hint.now }
{
    if signs.contains(&index) {
        return None;
    }
    if is_stored_after(hint.kind) && places.contains(&hint.place) {
        return None;
    }
    let weight = weight_of_hint(contrast_at(contrasts, index), hint)?;
    Some(Entry {
        weight,
        subject: Subject::Hint(index),
    })
}

// The contrast of the hint with this index.
fn contrast_at(contrasts: &[Contrast], index: u64) -> Contrast
    ensures { result ≡ contrast_of contrasts.now index }
{
    match contrasts.get(index as usize) {
        Some(contrast) => *contrast,
        None => Contrast { clear: 0, all: 0 },
    }
}

// Whether it is a store after its flush.
fn is_stored_after(kind: HintKind) -> bool
    ensures { result ≡ is_stored_after_in kind }
{
    matches!(kind, HintKind::StoredAfterFlush)
}
