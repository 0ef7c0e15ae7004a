//! Why the calls ended early.
use std::alloc::AllocError;

/// Why the calls ended early.
#[derive(Clone, Copy)]
pub enum Stop {
    /// Memory was refused to what a call is asked about, or is compared with.
    Unready,
    /// Memory was refused to this call, and all stands as it should.
    Refused(&'static str),
    /// This call gave what it should not, or left what it should not.
    Wrong(&'static str),
}

impl From<AllocError> for Stop {
    fn from(_refused: AllocError) -> Self {
        Stop::Unready
    }
}

/// What the call answered, where it tells by this fault that memory was refused to it, and has to tell no other.
pub fn given<T, E: Copy + PartialEq>(
    call: &'static str,
    answer: Result<T, E>,
    refusal: E,
) -> Result<T, Stop> {
    match answer {
        Ok(value) => Ok(value),
        Err(fault) if fault == refusal => Err(Stop::Refused(call)),
        Err(_) => Err(Stop::Wrong(call)),
    }
}

/// What the call gave or left is right, or is not.
pub fn gave(call: &'static str, right: bool) -> Result<(), Stop> {
    if right {
        Ok(())
    } else {
        Err(Stop::Wrong(call))
    }
}

/// Memory was refused to the call, and what it left is right, or is not.
pub fn refused(call: &'static str, right: bool) -> Result<(), Stop> {
    gave(call, right)?;
    Err(Stop::Refused(call))
}

/// How two calls ended together: wrong if one did, else refused if one was.
pub fn worst(first: Result<(), Stop>, second: Result<(), Stop>) -> Result<(), Stop> {
    match (first, second) {
        (Err(Stop::Wrong(_)), _) | (Err(_), Ok(())) => first,
        (Err(_), Err(Stop::Wrong(_))) | (Ok(()), _) => second,
        _ => first,
    }
}
