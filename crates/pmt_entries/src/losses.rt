//! Sites that are told together, since they first lose or delay stores in the same call.

ghost use Rattle.std.specs.Prelude.{◌≡◌, IfOk, OnOk, map};
ghost use Rattle.std.specs.List.{enumerate_from, list_any};
ghost use Rattle.pmt_causes.specs.Groups.{first_in};
ghost use Rattle.pmt_entries.specs.Entries.{AreLosses, IsByFirst, is_suspect_at, loss_item, loss_key, loss_weight};

use crate::sites::Site;
use crate::weight::{Weight, weight_of_site};
use pmt_causes::{Group, Keyed, groups};
use pmt_model::OutOfMemory;
use std::alloc::Global;

/// What the sites of one entry have in common.
#[derive(Clone, Copy, PartialEq, Eq, Hash)]
pub struct LossKey {
    /// They lose stores for good; else they only delay some.
    pub loses: bool,
    /// They weigh `Meant`.
    pub is_meant: bool,
    /// The thread of their first lost or late store.
    pub thread: u8,
    /// The next fence of the thread after it.
    pub fence: u64,
}

// These sites in groups, those with the lowest first site first: members are the indexes of sites.
pub(crate) fn losses_of(alloc: Global, sites: &[Site]) -> Result<Vec<Group<LossKey>>, OutOfMemory>
    ensures { IfOk result (λ losses. AreLosses sites.now losses.items) }
{
    let items = items_of(alloc, sites)?;
    let mut losses = groups(alloc, items.as_slice())?;
    sort(&mut losses)?;
    Ok(losses)
}

// The indexes of these sites with their keys.
fn items_of(alloc: Global, sites: &[Site]) -> Result<Vec<Keyed<LossKey>>, OutOfMemory>
    ensures { IfOk result (λ items. items.items ≡ map loss_item (enumerate_from 0 sites.now)) }
{
    sites
        .iter()
        .enumerate()
        .map(|(index, site)| Keyed {
            key: key_of(site),
            number: index as u64,
        })
        .collect(alloc)
}

// The key of the site.
fn key_of(site: &Site) -> LossKey
    ensures { result ≡ loss_key site.now }
{
    LossKey {
        loses: 0 < site.row.lost,
        is_meant: matches!(weight_of_site(site), Weight::Meant),
        thread: site.thread,
        fence: site.fence,
    }
}

// Puts the losses into the order of their first sites.
fn sort(losses: &mut Vec<Group<LossKey>>) -> Result<(), OutOfMemory>
    ensures { OnOk result (IsByFirst losses.old.items losses.new.items) }
{
    losses.sort_by_key(|loss| first_of(loss))?;
    Ok(())
}

// The first site of the loss, or 0 of none.
fn first_of(loss: &Group<LossKey>) -> u64
    ensures { result ≡ first_in loss.now }
{
    match loss.members.first() {
        Some(index) => *index,
        None => 0,
    }
}

// The greatest weight of the sites of the loss.
pub(crate) fn weight_of_loss(sites: &[Site], loss: &Group<LossKey>) -> Weight
    ensures { result ≡ loss_weight sites.now loss.now }
{
    if loss.key.is_meant {
        Weight::Meant
    } else if loss.key.loses {
        Weight::Lost
    } else if is_any_suspect(sites, loss.members.as_slice()) {
        Weight::Suspect
    } else {
        Weight::Check
    }
}

// Whether one of the sites with these indexes weighs `Suspect`.
fn is_any_suspect(sites: &[Site], indexes: &[u64]) -> bool
    ensures { result ≡ list_any (is_suspect_at sites.now) indexes.now }
{
    indexes.iter().any(|index| is_suspect(sites, *index))
}

// Whether the site with this index does.
fn is_suspect(sites: &[Site], index: u64) -> bool
    ensures { result ≡ is_suspect_at sites.now index }
{
    match sites.get(index as usize) {
        Some(site) => matches!(weight_of_site(site), Weight::Suspect),
        None => false,
    }
}
