//! The two programs.

/// A program, since they differ in what they accept.
#[derive(Clone, Copy, Debug, PartialEq, Eq)]
pub enum Program {
    /// `shardctl`: one session; it may run a workload.
    Ctl,
    /// `shardmux`: a script may have lines `session`.
    Mux,
}
