//! What the events are called.
ghost use Rattle.std.specs.Prelude.{◌≡◌, ◌∷◌, ◌++◌, map, IfOk, OnOk};
ghost use Rattle.std.specs.List.{flat_map};
ghost use Rattle.pmt_page.specs.Pages.{AreTexts, IsLabelsBlock, quoted};
ghost use Rattle.pmt_page.specs.Columns.{listed, steps};

use crate::escapes::push_quoted;
use crate::fields::push_steps;
use indexmap::IndexSet;
use pmt_model::OutOfMemory;
use std::alloc::{AllocError, Global};

/// What the program calls an event.
#[derive(Clone, Copy)]
pub struct Label<'a> {
    /// The event's number, from 1.
    pub event: u64,
    /// Its text.
    pub text: &'a str,
}

// The distinct texts of labels, and of each label the place of its text among them, from 0.
#[derive(Drop)]
struct Texts<'a> {
    texts: Vec<&'a str>,
    places: Vec<u64>,
}

/// The block of these labels: each text once.
///
/// # Errors
/// Where memory was refused.
pub fn labels_text(alloc: Global, labels: &[Label<'_>]) -> Result<Vec<u8>, OutOfMemory>
    ensures { IfOk result (λ text. IsLabelsBlock labels.now text.items) }
{
    let found = texts_of(alloc, labels)?;
    let mut text = Vec::new(alloc);
    text.extend_from_slice(b"{\"events\":\"")?;
    push_events(alloc, &mut text, labels)?;
    text.extend_from_slice(b"\",\"texts\":[")?;
    push_texts(&mut text, found.texts.as_slice())?;
    text.extend_from_slice(b"],\"text\":\"")?;
    push_steps(&mut text, found.places.as_slice())?;
    text.extend_from_slice(b"\"}")?;
    Ok(text)
}

// The texts of the labels.
fn texts_of<'a>(alloc: Global, labels: &[Label<'a>]) -> Result<Texts<'a>, OutOfMemory>
    ensures { IfOk result (λ t. AreTexts labels.now (map (λ s. s.now) t.texts.items) t.places.items) }
{
    let mut seen: IndexSet<&'a str> = IndexSet::new(alloc);
    let mut places = Vec::with_capacity(alloc, labels.len())?;
    for label in labels {
        match seen.insert_full(label.text) {
            Ok((place, _)) => places.push(place as u64)?,
            Err(_) => return Err(AllocError),
        }
    }
    let mut texts = Vec::new(alloc);
    texts.extend_from_slice(seen.as_slice())?;
    Ok(Texts { texts, places })
}

// Adds the steps through the numbers of the events.
fn push_events(alloc: Global, text: &mut Vec<u8>, labels: &[Label<'_>]) -> Result<(), OutOfMemory>
    ensures { OnOk result (text.new.items ≡ text.old.items ++ steps 0 (map (λ l. l.event) labels.now)) }
{
    let events = events_of(alloc, labels)?;
    push_steps(text, events.as_slice())
}

// The numbers of the events.
fn events_of(alloc: Global, labels: &[Label<'_>]) -> Result<Vec<u64>, OutOfMemory>
    ensures { IfOk result (λ v. v.items ≡ map (λ l. l.event) labels.now) }
{
    let mut events = Vec::new(alloc);
    for label in labels {
        events.push(label.event)?;
    }
    Ok(events)
}

// Adds the texts with commas between them.
fn push_texts(text: &mut Vec<u8>, texts: &[&str]) -> Result<(), OutOfMemory>
    ensures { OnOk result (text.new.items ≡ text.old.items ++ listed quoted (map (λ s. s.now) texts.now)) }
{
    match texts {
        [] => Ok(()),
        [first, later @ ..] => {
            push_quoted(text, first.as_bytes())?;
            push_later_texts(text, later)
        }
    }
}

// Adds the texts, each behind a comma.
fn push_later_texts(text: &mut Vec<u8>, texts: &[&str]) -> Result<(), OutOfMemory>
    ensures { OnOk result (text.new.items ≡ text.old.items ++ flat_map (λ s. 44 ∷ quoted s) (map (λ s. s.now) texts.now)) }
{
    for one in texts {
        push_later_text(text, *one)?;
    }
    Ok(())
}

fn push_later_text(text: &mut Vec<u8>, one: &str) -> Result<(), OutOfMemory>
    ensures { OnOk result (text.new.items ≡ text.old.items ++ (44 ∷ quoted one.now)) }
{
    text.push(b',')?;
    push_quoted(text, one.as_bytes())
}
