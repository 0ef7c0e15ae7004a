//! Which streams a person reads.

/// Which streams a person reads.
#[derive(Clone, Copy)]
pub struct Terminals {
    /// Whether standard input is one.
    pub input: bool,
    /// Whether faults go to a terminal, or into the log of a build.
    pub faults: bool,
    /// Whether answers go to a terminal that is to show colors.
    pub colors: bool,
}

impl Terminals {
    /// A program reads all of them.
    pub const NONE: Terminals = Terminals {
        input: false,
        faults: false,
        colors: false,
    };
}
