//! What the page is of.
ghost use Rattle.std.specs.Prelude.{◌≡◌, ◌++◌, ◌∷◌, [], codes, IfOk, OnOk};
ghost use Rattle.sha2.specs.Sha256.{sha256};
ghost use Rattle.pmt_text.specs.Spelling.{hex_bytes, numeral};
ghost use Rattle.pmt_page.specs.Pages.{about, about_kept, flags, truth, quoted};

use crate::columns::{has_ranges, has_values};
use crate::digits::push_bytes;
use crate::escapes::push_quoted;
use crate::known::Kept;
use pmt_model::OutOfMemory;
use pmt_text::write::push_number;
use sha2::{Digest, Sha256};
use std::alloc::Global;

/// What the page is of.
#[derive(Clone, Copy)]
pub struct About<'a> {
    /// How many events the trace has.
    pub events: u64,
    /// How many bytes a cache line has.
    pub line_size: u64,
    /// What a person calls the trace.
    pub name: &'a str,
    /// The program and its version.
    pub program: &'a str,
    /// The SHA-256 digest of the trace's bytes.
    pub digest: &'a [u8],
    /// How many labels of its events are left out.
    pub labels_left_out: u64,
    /// What of the trace is in its columns.
    pub kept: Kept,
}

/// The SHA-256 digest of the bytes.
pub fn digest_of(bytes: &[u8]) -> [u8; 32]
    ensures { result ≡ sha256 bytes.now }
{
    let mut hasher = Sha256::new();
    hasher.update(bytes);
    hasher.finalize()
}

/// The block that says what the page is of.
///
/// # Errors
/// Where memory was refused.
pub fn about_text(alloc: Global, page: About<'_>) -> Result<Vec<u8>, OutOfMemory>
    ensures { IfOk result (λ text. text.items ≡ about page.entry.events page.entry.line_size page.entry.name.now page.entry.program.now page.entry.digest.now page.entry.labels_left_out page.entry.kept) }
{
    let mut text = Vec::new(alloc);
    push_count(&mut text, b"{\"events\":", page.events)?;
    push_count(&mut text, b",\"line_size\":", page.line_size)?;
    push_string(&mut text, b",\"name\":", page.name)?;
    push_string(&mut text, b",\"program\":", page.program)?;
    push_digest(&mut text, page.digest)?;
    push_kept(&mut text, page.labels_left_out, page.kept)?;
    Ok(text)
}

// Adds the words and the number.
pub(crate) fn push_count(text: &mut Vec<u8>, words: &[u8], number: u64) -> Result<(), OutOfMemory>
    ensures { OnOk result (text.new.items ≡ text.old.items ++ words.now ++ numeral 10 number) }
{
    text.extend_from_slice(words)?;
    push_number(text, 10, number)
}

// Adds the words and the string.
pub(crate) fn push_string(text: &mut Vec<u8>, words: &[u8], string: &str) -> Result<(), OutOfMemory>
    ensures { OnOk result (text.new.items ≡ text.old.items ++ words.now ++ quoted string.now) }
{
    text.extend_from_slice(words)?;
    push_quoted(text, string.as_bytes())
}

// Adds the schema and the digest.
fn push_digest(text: &mut Vec<u8>, digest: &[u8]) -> Result<(), OutOfMemory>
    ensures { OnOk result (text.new.items ≡ text.old.items ++ codes ",\"schema\":1,\"sha256\":\"" ++ hex_bytes digest.now) }
{
    text.extend_from_slice(b",\"schema\":1,\"sha256\":\"")?;
    push_bytes(text, digest)
}

// Adds what is on the page, and ends the object.
fn push_kept(text: &mut Vec<u8>, labels_left_out: u64, kept: Kept) -> Result<(), OutOfMemory>
    ensures { OnOk result (text.new.items ≡ text.old.items ++ about_kept labels_left_out kept) }
{
    push_count(text, b"\",\"labels_left_out\":", labels_left_out)?;
    push_flags(text, has_ranges(kept), has_values(kept))
}

// Adds whether there are ranges and values, and ends the object.
fn push_flags(text: &mut Vec<u8>, has_ranges: bool, has_values: bool) -> Result<(), OutOfMemory>
    ensures { OnOk result (text.new.items ≡ text.old.items ++ flags has_ranges has_values) }
{
    push_truth(text, b",\"ranges\":", has_ranges)?;
    push_truth(text, b",\"values\":", has_values)?;
    text.push(b'}')?;
    Ok(())
}

// Adds the words and whether it is so.
pub(crate) fn push_truth(text: &mut Vec<u8>, words: &[u8], is_so: bool) -> Result<(), OutOfMemory>
    ensures { OnOk result (text.new.items ≡ text.old.items ++ words.now ++ truth is_so) }
{
    text.extend_from_slice(words)?;
    text.extend_from_slice(word_of(is_so))
}

fn word_of(is_so: bool) -> &'static [u8]
    ensures { result.now ≡ truth is_so }
{
    if is_so { b"true" } else { b"false" }
}
