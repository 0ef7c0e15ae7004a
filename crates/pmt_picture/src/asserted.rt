//! The bytes that the failed assertion speaks of.
use pmt_model::{Format, Op, Range};

/// What the assertion claims of the bytes.
#[derive(Clone, Copy)]
pub enum AssertedRole {
    /// No crash loses them.
    Saved,
    /// No crash keeps the second bytes without them.
    First,
    /// No crash keeps them without the first bytes.
    Second,
}

/// The bytes of a range of an assertion.
#[derive(Clone, Copy)]
pub struct Asserted {
    /// The address of the first byte.
    pub first: u64,
    /// The address of the last byte.
    pub last: u64,
    /// What is claimed of them.
    pub role: AssertedRole,
}

impl Asserted {
    /// The first and the last line of the bytes.
    pub fn lines(&self, format: Format) -> (u64, u64) {
        let size = format.line_size();
        (self.first / size, self.last / size)
    }

    /// The first and the last of the bytes in the line, counted from its start; none where it has none of them.
    pub fn within(&self, format: Format, line: u64) -> Option<(u64, u64)> {
        let size = format.line_size();
        let (first, last) = self.lines(format);
        if line < first || last < line {
            return None;
        }
        let from = if line == first { self.first % size } else { 0 };
        let to = if line == last {
            self.last % size
        } else {
            size.saturating_sub(1)
        };
        Some((from, to))
    }
}

/// The bytes of each range of the assertion; none of another event.
pub fn asserted_of(op: Op) -> [Option<Asserted>; 2] {
    match op {
        Op::IsPersist(range) => [Some(bytes_of(range, AssertedRole::Saved)), None],
        Op::IsOrderedBefore(first, second) => [
            Some(bytes_of(first, AssertedRole::First)),
            Some(bytes_of(second, AssertedRole::Second)),
        ],
        Op::Store(_) | Op::Clwb(_) | Op::ClflushOpt(_) | Op::Clflush(_) | Op::Sfence | Op::Mfence =>
            [None, None],
    }
}

// The bytes of the range.
fn bytes_of(range: Range, role: AssertedRole) -> Asserted {
    let len = range.len();
    let first = range.addr().get();
    Asserted {
        first,
        last: first.saturating_add(len.saturating_sub(1)),
        role,
    }
}
