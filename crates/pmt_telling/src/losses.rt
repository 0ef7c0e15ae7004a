//! Sites that lose or delay stores, first in the same call, in words.

use crate::contrast::add_contrast;
use crate::loss_story::add_story;
use crate::{Made, Telling, Told, push_site, push_sites};
use pmt_causes::Origin;
use pmt_entries::Site;
use pmt_hints::Hint;
use pmt_pen::Pen;

/// The loss with this index, with its story or without.
///
/// # Errors
/// Where memory was refused.
pub fn loss_entry<'a>(told: &Telling<'a>, index: u64, has_story: bool) -> Made<Told<'a>> {
    let mut entry = Told::new(told.alloc);
    let sites = sites_of(told, index)?;
    let Some(main) = main_site(sites.as_slice()) else {
        return Ok(entry);
    };
    push_missed(&mut entry.gist, told, sites.as_slice());
    push_missed(&mut entry.what, told, sites.as_slice());
    entry.what.put(", at ");
    push_all(&mut entry.what, told, sites.as_slice())?;
    push_site(&mut entry.site, told, main.row.place);
    if has_story {
        add_contrast(told, &main, sites.len(), &mut entry)?;
        add_story(told, &main, sites.as_slice(), &mut entry)?;
    }
    Ok(entry)
}

// The hint that tells why the site misses stores.
pub(crate) fn sign_of(told: &Telling<'_>, site: &Site) -> Option<Hint> {
    told.explanation.hints.get(site.sign? as usize).copied()
}

/// The sites of the loss with this index.
///
/// # Errors
/// Where memory was refused.
pub fn sites_of(told: &Telling<'_>, index: u64) -> Made<Vec<Site>> {
    let entries = &told.explanation.entries;
    let Some(loss) = entries.losses.get(index as usize) else {
        return Ok(Vec::new(told.alloc));
    };
    let members = loss.members.iter();
    let sites = members.filter_map(|member| entries.sites.get(*member as usize).copied());
    sites.collect(told.alloc)
}

// The site whose story is told: the first that has a sign, or else a contrast, or else the first.
fn main_site(sites: &[Site]) -> Option<Site> {
    let signed = sites.iter().find(|site| site.sign.is_some());
    let other = sites.iter().find(|site| site.has_contrast);
    signed.or(other).or(sites.first()).copied()
}

/// How many stores the sites lose.
pub fn lost_in(sites: &[Site]) -> u64 {
    let sites = sites.iter();
    sites.fold(0u64, |sum, site| sum.saturating_add(site.row.lost))
}

/// How many stores the sites delay.
pub fn late_in(sites: &[Site]) -> u64 {
    let sites = sites.iter();
    sites.fold(0u64, |sum, site| sum.saturating_add(site.row.late))
}

// Adds how many stores the sites lose and delay.
fn push_missed(pen: &mut Pen, told: &Telling<'_>, sites: &[Site]) {
    let lost = lost_in(sites);
    let late = late_in(sites);
    let (form, numbers) = match (lost, late) {
        (0, _) => ("% store~ saved late", [late, 0]),
        (_, 0) => ("% store~ never saved", [lost, 0]),
        _ => ("% store~ never saved and # saved late", [lost, late]),
    };
    told.say(pen, form, &numbers);
}

/// Adds the names of the sites.
///
/// # Errors
/// Where memory was refused.
pub fn push_all(pen: &mut Pen, told: &Telling<'_>, sites: &[Site]) -> Made<()> {
    let places: Vec<Origin> = sites.iter().map(|site| site.row.place).collect(told.alloc)?;
    push_sites(pen, told, places.as_slice());
    Ok(())
}
