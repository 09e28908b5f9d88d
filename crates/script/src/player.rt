//! What a program makes of a script.
use ordinate::kind::Ordinate;
use outlet::outlet::Outlet;
use std::alloc::Global;

/// Whoever works an outlet of the kind `P` as the lines say that follow its start. Each outlet gets one of its own.
pub trait Player<P: Ordinate>: Drop {
    /// What such a line asks for.
    type Line: Drop;

    fn new() -> Self;

    /// What the line asks for; an error where it is none of these.
    fn read(heap: Global, line: &str) -> anyhow::Result<Self::Line>;

    /// Does what is asked for, and prints the answer.
    fn play<O: Outlet<P>>(
        &mut self,
        rt: &HostRuntime,
        outlet: &mut O,
        line: Self::Line,
    ) -> anyhow::Result<()>;
}
