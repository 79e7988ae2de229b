//! The lines of the summary of a demonstration.
ghost use Rattle.text_out.specs.Appending.{AppendsText};
ghost use Rattle.report_text.specs.Summary.{demo_line, packets_line, arrived_line, asks_line, sent_lines, network_lines, book_lines, summary_lines};

use crate::answers::put_columns_line;
use lg_base::Memory;
use text_out::{put_field, put_text};

/// What a demonstration comes to, in numbers.
#[derive(Clone, Copy, Debug, PartialEq, Eq)]
pub struct Summary {
    /// The rounds of its scenario.
    pub rounds: u32,
    /// The packets that were sent, bursts counted out.
    pub packets: u32,
    /// The sketchlets that arrived, over all hosts.
    pub arrived: usize,
    /// The columns of the book.
    pub columns: u32,
    /// The asks.
    pub asks: usize,
    /// The asks of which no row is known.
    pub unknown: usize,
}

#[tactic(auto, using(text_out::proofs::Keeping::keeps_itself, text_out::proofs::Keeping::keeps_after), unfolding(crate::specs::Summary::demo_line))]
fn put_demo_line(out: &mut Vec<u8>, rounds: u32) -> Result<(), Memory>
    ensures { AppendsText result out.old.items out.new.items (demo_line rounds) }
{
    put_field(out, b"demo ", u64::from(rounds))?;
    put_text(out, b"\n")
}

#[tactic(auto, using(text_out::proofs::Keeping::keeps_itself, text_out::proofs::Keeping::keeps_after), unfolding(crate::specs::Summary::packets_line))]
fn put_packets_line(out: &mut Vec<u8>, packets: u32) -> Result<(), Memory>
    ensures { AppendsText result out.old.items out.new.items (packets_line packets) }
{
    put_field(out, b"packets ", u64::from(packets))?;
    put_text(out, b"\n")
}

#[tactic(auto, using(text_out::proofs::Keeping::keeps_itself, text_out::proofs::Keeping::keeps_after), unfolding(crate::specs::Summary::arrived_line))]
fn put_arrived_line(out: &mut Vec<u8>, arrived: usize) -> Result<(), Memory>
    ensures { AppendsText result out.old.items out.new.items (arrived_line arrived) }
{
    put_field(out, b"arrived ", arrived as u64)?;
    put_text(out, b"\n")
}

#[tactic(auto, using(text_out::proofs::Keeping::keeps_itself, text_out::proofs::Keeping::keeps_after), unfolding(crate::specs::Summary::asks_line))]
fn put_asks_line(out: &mut Vec<u8>, asks: usize, unknown: usize) -> Result<(), Memory>
    ensures { AppendsText result out.old.items out.new.items (asks_line asks unknown) }
{
    put_field(out, b"asks ", asks as u64)?;
    put_field(out, b" unknown ", unknown as u64)?;
    put_text(out, b"\n")
}

// The lines of what was sent: the rounds and the packets.
fn put_sent_lines(out: &mut Vec<u8>, summary: &Summary) -> Result<(), Memory>
    ensures { AppendsText result out.old.items out.new.items (sent_lines summary.now) }
{
    put_demo_line(out, summary.rounds)?;
    put_packets_line(out, summary.packets)
}

// The lines of the network: what was sent, and what arrived.
fn put_network_lines(out: &mut Vec<u8>, summary: &Summary) -> Result<(), Memory>
    ensures { AppendsText result out.old.items out.new.items (network_lines summary.now) }
{
    put_sent_lines(out, summary)?;
    put_arrived_line(out, summary.arrived)
}

// The lines of the book: the columns and the asks.
fn put_book_lines(out: &mut Vec<u8>, summary: &Summary) -> Result<(), Memory>
    ensures { AppendsText result out.old.items out.new.items (book_lines summary.now) }
{
    put_columns_line(out, summary.columns as usize)?;
    put_asks_line(out, summary.asks, summary.unknown)
}

/// Appends the lines `demo N`, `packets P`, `arrived A`, `columns C` and `asks Q unknown U`, each with the byte 10. At
/// `Memory` what stood before is kept, and a part of the lines may stand after it (docs/FORMATS.md, Output lines).
pub fn put_summary(out: &mut Vec<u8>, summary: &Summary) -> Result<(), Memory>
    ensures { AppendsText result out.old.items out.new.items (summary_lines summary.now) }
{
    put_network_lines(out, summary)?;
    put_book_lines(out, summary)
}
