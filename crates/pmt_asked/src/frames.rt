//! The innermost frames of labels.
ghost use Rattle.std.specs.Prelude.{◌≡◌};
ghost use Rattle.pmt_asked.specs.Choosing.{inner_frame};

// What stands between a place and that of its caller.
const CALLER: &str = " < ";

/// The innermost frame of a label: what stands before its first caller, as `list.c:57 insert` of `list.c:57 insert < main list.c:90`.
pub fn frame_of(label: &str) -> &str
    ensures { result.now ≡ inner_frame label.now }
{
    match label.split_once(CALLER) {
        Some((frame, _)) => frame,
        None => label,
    }
}
