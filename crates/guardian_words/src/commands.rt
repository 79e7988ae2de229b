//! What the words ask for.

/// What the program is asked to do.
#[derive(Clone, Copy, Debug, PartialEq, Eq)]
pub enum Command {
    /// Read a scenario, run its network, and write the report.
    Run,
    /// Run the network of the generated scenario of that many rounds, 1 to 1,000, and write the summary.
    Demo(u32),
    /// Read a scenario, and write the report on the book as it is.
    Ask,
    /// Write all columns of the book.
    List,
    /// Write the sketch of a switch and an epoch, rebuilt of the columns of the book.
    Rebuild {
        /// The name of the switch.
        switch: u16,
        /// The epoch.
        epoch: u32,
    },
    /// Read a scenario, run its network, and write the sketchlets that came to the hosts.
    Capture,
    /// Write the text of the generated scenario of that many rounds, 1 to 1,000.
    Make(u32),
}
