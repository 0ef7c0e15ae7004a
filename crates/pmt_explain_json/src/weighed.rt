//! The verdict, and the entries by weight, as JSON.
ghost use Rattle.std.specs.Prelude.{◌≡◌, ◌++◌, ◌-◌, ◌∷◌, [], IfOk, OnOk, length, map, slice_get, take};
ghost use Rattle.std.specs.List.{flat_map};
ghost use Rattle.serde_json.specs.Data.{string};
ghost use Rattle.serde_json.specs.View.{view};
ghost use Rattle.pmt_hints.specs.declared.hint.HintKind.{HintKind as Kind};
ghost use Rattle.pmt_explain_json.specs.Places.{hint_name as hint_name_in};
ghost use Rattle.pmt_explain_json.specs.Entries.{array_of, json_line, or_null};
ghost use Rattle.pmt_explain_json.specs.Lines.{entry_data, entry_line, members_of as members_in, place_of, site_at, site_data, sites_data, sites_left, subject_name as subject_in, told_entries as told_in, verdict_name as verdict_in, weight_name as weight_in, why_name as why_in};

use crate::causes::cause_name;
use crate::facts::{Facts, Why, facts_of};
use crate::hints::{hint_name, path_or_null};
use crate::lines::push_value;
use crate::objects::object_made;
use crate::parts::{count_or_null, event_or_null};
use crate::places::{label_or_null, thread_or_null};
use pmt_asked::{Choice, Labels};
use pmt_causes::{Group, Origin};
use pmt_entries::{Entries, Entry, LossKey, Site, Subject, Verdict, Weight};
use pmt_explanation::{Explanation, first};
use pmt_hints::HintKind;
use pmt_model::OutOfMemory;
use serde_json::Value;
use std::alloc::Global;

// The most sites of an entry that are told.
const MOST_SITES: usize = 100;

// The entries, where no option chooses findings.
pub(crate) fn told_entries<'a>(explanation: &'a Explanation, choice: &Choice) -> &'a [Entry]
    ensures { result.now ≡ told_in explanation.now choice.now }
{
    if choice.tells_all() {
        explanation.entries.entries.as_slice()
    } else {
        &[]
    }
}

// Adds the entries.
pub(crate) fn push_entries(
    alloc: Global,
    text: &mut Vec<u8>,
    explanation: &Explanation,
    labels: &Labels,
    entries: &[Entry],
) -> Result<(), OutOfMemory>
    ensures { OnOk result (text.new.items ≡ text.old.items ++ flat_map (entry_line explanation.now labels.now) entries.now) }
{
    for entry in entries {
        push_entry(alloc, text, explanation, labels, entry)?;
    }
    Ok(())
}

// Adds the entry.
fn push_entry(
    alloc: Global,
    text: &mut Vec<u8>,
    explanation: &Explanation,
    labels: &Labels,
    entry: &Entry,
) -> Result<(), OutOfMemory>
    ensures { OnOk result (text.new.items ≡ text.old.items ++ entry_line explanation.now labels.now entry.now) }
{
    let Some(facts) = facts_of(explanation, entry.subject) else {
        return Ok(());
    };
    push_facts(alloc, text, explanation, labels, entry, &facts)
}

// Adds the entry, which tells these facts.
fn push_facts(
    alloc: Global,
    text: &mut Vec<u8>,
    explanation: &Explanation,
    labels: &Labels,
    entry: &Entry,
    facts: &Facts,
) -> Result<(), OutOfMemory>
    ensures { OnOk result (text.new.items ≡ text.old.items ++ json_line (entry_data explanation.now labels.now entry.now facts.now)) }
{
    let value = entry_value(alloc, explanation, labels, entry, facts)?;
    push_value(alloc, text, &value)
}

// The entry, which tells these facts.
fn entry_value(
    alloc: Global,
    explanation: &Explanation,
    labels: &Labels,
    entry: &Entry,
    facts: &Facts,
) -> Result<Value, OutOfMemory>
    ensures { IfOk result (λ v. view v ≡ entry_data explanation.now labels.now entry.now facts.now) }
{
    let trace = explanation.analysis.trace();
    let first = event_or_null(alloc, trace, labels, facts.first);
    let kind = Value::try_from_str(alloc, "entry");
    let path = path_or_null(alloc, labels, facts.path);
    let sign = sign_value(alloc, facts.sign);
    let sites = sites_value(
        alloc,
        labels,
        &explanation.entries,
        entry.subject,
        facts.site,
    );
    let subject = Value::try_from_str(alloc, subject_name(entry.subject));
    let why = Value::try_from_str(alloc, why_name(facts.why));
    let word = Value::try_from_str(alloc, weight_name(entry.weight));
    let fields = vec![in alloc;
        ("claimed", Ok(Value::from(facts.is_claimed))),
        ("contrast", Ok(Value::from(facts.has_contrast))),
        ("count", Ok(Value::from(facts.count))),
        ("first", first),
        ("kind", kind),
        (
            "more_sites",
            Ok(Value::from(more_sites(&explanation.entries, entry.subject)))
        ),
        ("of", Ok(count_or_null(facts.of))),
        ("path", path),
        ("scratch", Ok(Value::from(facts.is_scratch))),
        ("sign", sign),
        ("sites", sites),
        ("subject", subject),
        ("why", why),
        ("word", word),
    ]?;
    object_made(alloc, fields)
}

// The name of the kind of the hint that is a sign, if one is.
fn sign_value(alloc: Global, sign: Option<HintKind>) -> Result<Value, OutOfMemory>
    ensures { IfOk result (λ v. view v ≡ or_null (λ (k : Kind). string (hint_name_in k)) sign) }
{
    match sign {
        Some(kind) => Value::try_from_str(alloc, hint_name(kind)),
        None => Ok(Value::Null),
    }
}

// The sites of the entry of this subject: of a loss the first ones, and else this one.
fn sites_value(
    alloc: Global,
    labels: &Labels,
    entries: &Entries,
    subject: Subject,
    site: Origin,
) -> Result<Value, OutOfMemory>
    ensures { IfOk result (λ v. view v ≡ sites_data labels.now entries.now subject site) }
{
    match subject {
        Subject::Loss(index) => {
            let members = told_members(entries.losses.as_slice(), index);
            members_value(alloc, labels, entries.sites.as_slice(), members)
        }
        Subject::Failure(_) => lone_value(alloc, labels, site),
        Subject::Hint(_) => lone_value(alloc, labels, site),
        Subject::Left(_) => lone_value(alloc, labels, site),
        Subject::LeftPath(_) => lone_value(alloc, labels, site),
    }
}

// How many more sites the entry of this subject has than are told.
fn more_sites(entries: &Entries, subject: Subject) -> u64
    ensures { result ≡ sites_left entries.now subject }
{
    match subject {
        Subject::Loss(index) => more_members(entries.losses.as_slice(), index),
        Subject::Failure(_) | Subject::Hint(_) | Subject::Left(_) | Subject::LeftPath(_) => 0,
    }
}

fn more_members(losses: &[Group<LossKey>], index: u64) -> u64
    ensures { result ≡ length (members_in (slice_get losses.now index)) - 100 }
{
    members_of(losses, index).len().saturating_sub(MOST_SITES) as u64
}

// The first members of the loss with this index, by the indexes of its sites.
fn told_members(losses: &[Group<LossKey>], index: u64) -> &[u64]
    ensures { result.now ≡ take 100 (members_in (slice_get losses.now index)) }
{
    first(members_of(losses, index), MOST_SITES)
}

// All of them.
fn members_of(losses: &[Group<LossKey>], index: u64) -> &[u64]
    ensures { result.now ≡ members_in (slice_get losses.now index) }
{
    match losses.get(index as usize) {
        Some(group) => group.members.as_slice(),
        None => &[],
    }
}

// These sites.
fn members_value(
    alloc: Global,
    labels: &Labels,
    sites: &[Site],
    members: &[u64],
) -> Result<Value, OutOfMemory>
    ensures { IfOk result (λ v. view v ≡ array_of (map (site_at labels.now sites.now) members.now)) }
{
    let mut values = Vec::with_capacity(alloc, members.len())?;
    for member in members {
        values.push(member_value(alloc, labels, sites, *member)?)?;
    }
    Ok(Value::Array(values))
}

// The site with this index.
fn member_value(
    alloc: Global,
    labels: &Labels,
    sites: &[Site],
    index: u64,
) -> Result<Value, OutOfMemory>
    ensures { IfOk result (λ v. view v ≡ site_at labels.now sites.now index) }
{
    site_or_null(alloc, labels, place_at(sites, index))
}

fn place_at(sites: &[Site], index: u64) -> Option<Origin>
    ensures { result ≡ place_of (slice_get sites.now index) }
{
    match sites.get(index as usize) {
        Some(site) => Some(site.row.place),
        None => None,
    }
}

fn site_or_null(alloc: Global, labels: &Labels, site: Option<Origin>) -> Result<Value, OutOfMemory>
    ensures { IfOk result (λ v. view v ≡ or_null (site_data labels.now) site) }
{
    match site {
        Some(site) => site_value(alloc, labels, site),
        None => Ok(Value::Null),
    }
}

// This site alone.
fn lone_value(alloc: Global, labels: &Labels, site: Origin) -> Result<Value, OutOfMemory>
    ensures { IfOk result (λ v. view v ≡ array_of (map (site_data labels.now) (site ∷ []))) }
{
    let value = site_value(alloc, labels, site)?;
    Ok(Value::Array(vec![in alloc; value]?))
}

fn site_value(alloc: Global, labels: &Labels, site: Origin) -> Result<Value, OutOfMemory>
    ensures { IfOk result (λ v. view v ≡ site_data labels.now site) }
{
    let label = label_or_null(alloc, labels, site);
    let fields = vec![in alloc; ("label", label), ("thread", Ok(thread_or_null(site)))]?;
    object_made(alloc, fields)
}

/// The name of the verdict.
pub(crate) fn verdict_name(verdict: Verdict) -> &'static str
    ensures { result.now ≡ verdict_in verdict }
{
    match verdict {
        Verdict::Nothing => "nothing",
        Verdict::Fail => "fail",
        Verdict::Lost => "lost",
        Verdict::Suspect => "suspect",
        Verdict::Check => "check",
        Verdict::ProbablyOk => "probably_ok",
        Verdict::Ok => "ok",
        Verdict::OkSoFar => "ok_so_far",
    }
}

// The name of the weight.
fn weight_name(weight: Weight) -> &'static str
    ensures { result.now ≡ weight_in weight }
{
    match weight {
        Weight::Fail => "fail",
        Weight::Lost => "lost",
        Weight::Suspect => "suspect",
        Weight::Check => "check",
        Weight::Meant => "meant",
    }
}

// What the entry of this subject is of.
fn subject_name(subject: Subject) -> &'static str
    ensures { result.now ≡ subject_in subject }
{
    match subject {
        Subject::Failure(_) => "failure",
        Subject::Loss(_) => "stores",
        Subject::Hint(_) => "hint",
        Subject::Left(_) | Subject::LeftPath(_) => "left",
    }
}

// Why the entry is told, in a word.
fn why_name(why: Why) -> &'static str
    ensures { result.now ≡ why_in why }
{
    match why {
        Why::Failure(cause) => cause_name(cause),
        Why::Lost => "never_persisted",
        Why::Late => "late",
        Why::Hint(kind) => hint_name(kind),
        Why::Left => "left",
    }
}
