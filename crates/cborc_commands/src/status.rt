//! The exit statuses of the program.

/// How the program ends. The number is the exit status.
#[derive(Clone, Copy, Debug, PartialEq, Eq)]
pub enum Status {
    /// The input was accepted, or both inputs were and have the same value.
    Accepted = 0,
    /// The input was refused, or both inputs were accepted and have different values.
    Refused = 1,
    /// The command line has a usage error.
    Misused = 2,
    /// A file, its hex text, the output or memory failed.
    Failed = 3,
}
