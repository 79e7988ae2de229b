//! Fault lines.
ghost use Rattle.std.specs.Prelude.{◌≡◌, ◌++◌, codes, IfOk};
ghost use Rattle.std.specs.List.{flat_map};
ghost use Rattle.scenario_lines.specs.Whys.{why_text};
ghost use Rattle.text_out.specs.Appending.{AppendsText};
ghost use Rattle.text_out.specs.Words.{field, joined};
ghost use Rattle.text_out.specs.Shapes.{shape_words};
ghost use Rattle.report_text.specs.Columns.{bucket_text};
ghost use Rattle.report_text.specs.Faults as faults;

use crate::columns::put_buckets;
use lg_base::Memory;
use lg_model::{Key, Shape};
use scenario_lines::Why;
use sketchlet_wire::Column;
use std::alloc::Global;
use text_out::{put_field, put_shape, put_text};

/// The line where the words are no command (docs/FORMATS.md, Fault lines and exit statuses). Takes no memory.
pub fn usage_line() -> &'static [u8]
    ensures { result.now ≡ faults.usage_line }
{
    b"guardian: usage: guardian run, ask, list, rebuild S E, capture, make N, demo N\n"
}

/// The line where the source failed. Takes no memory.
pub fn read_fault_line() -> &'static [u8]
    ensures { result.now ≡ faults.read_fault_line }
{
    b"guardian: read fault\n"
}

/// The line where the disk failed. Takes no memory.
pub fn disk_fault_line() -> &'static [u8]
    ensures { result.now ≡ faults.disk_fault_line }
{
    b"guardian: disk fault\n"
}

/// The line where the book's file is neither blank nor a journal. Takes no memory.
pub fn not_a_journal_line() -> &'static [u8]
    ensures { result.now ≡ faults.not_a_journal_line }
{
    b"guardian: not a journal\n"
}

/// The line where a sketch is to be rebuilt of a book that is blank. Takes no memory.
pub fn blank_line() -> &'static [u8]
    ensures { result.now ≡ faults.blank_line }
{
    b"guardian: rebuild: the book is blank\n"
}

/// The line where memory ran out. Takes no memory.
pub fn no_memory_line() -> &'static [u8]
    ensures { result.now ≡ faults.no_memory_line }
{
    b"guardian: no memory\n"
}

// `: WHY`
fn put_why(out: &mut Vec<u8>, why: Why) -> Result<(), Memory>
    ensures { AppendsText result out.old.items out.new.items (codes ": " ++ why_text why) }
{
    put_text(out, b": ")?;
    put_text(out, why.text())?;
    Ok(())
}

/// Appends `guardian: scenario line L: WHY` and the byte 10: the faulty line of a scenario text, counted from 1, and why
/// it is refused. At `Memory` what stood before is kept, and a part of the line may stand after it.
#[tactic(auto, using(text_out::proofs::Keeping::keeps_itself, text_out::proofs::Keeping::keeps_after), unfolding(crate::specs::Faults::scenario_line))]
pub fn put_scenario_line(out: &mut Vec<u8>, line: u32, why: Why) -> Result<(), Memory>
    ensures { AppendsText result out.old.items out.new.items (faults.scenario_line (line, why)) }
{
    put_field(out, b"guardian: scenario line ", u64::from(line))?;
    put_why(out, why)?;
    put_text(out, b"\n")?;
    Ok(())
}

/// The line that [`put_scenario_line`] appends, alone. `Memory` comes only where memory runs out.
pub fn scenario_line(alloc: Global, line: u32, why: Why) -> Result<Vec<u8>, Memory>
    ensures { IfOk result (λ text. text.items ≡ faults.scenario_line (line, why)) }
{
    let mut text = Vec::new(alloc);
    put_scenario_line(&mut text, line, why)?;
    Ok(text)
}

// The counts of a book that has no room: `guardian: full with H and M`.
fn put_counts(out: &mut Vec<u8>, held: u32, more: u32) -> Result<(), Memory>
    ensures { AppendsText result out.old.items out.new.items (field (codes "guardian: full with ") held ++ field (codes " and ") more) }
{
    put_field(out, b"guardian: full with ", u64::from(held))?;
    put_field(out, b" and ", u64::from(more))?;
    Ok(())
}

/// Appends `guardian: full with H and M more` and the byte 10: the columns that a book has, and the new ones of an upload
/// for which it has no room. At `Memory` what stood before is kept, and a part of the line may stand after it.
#[tactic(auto, using(text_out::proofs::Keeping::keeps_itself, text_out::proofs::Keeping::keeps_after), unfolding(crate::specs::Faults::full_line))]
pub fn put_full_line(out: &mut Vec<u8>, held: u32, more: u32) -> Result<(), Memory>
    ensures { AppendsText result out.old.items out.new.items (faults.full_line held more) }
{
    put_counts(out, held, more)?;
    put_text(out, b" more")?;
    put_text(out, b"\n")?;
    Ok(())
}

/// The line that [`put_full_line`] appends, alone. `Memory` comes only where memory runs out.
pub fn full_line(alloc: Global, held: u32, more: u32) -> Result<Vec<u8>, Memory>
    ensures { IfOk result (λ text. text.items ≡ faults.full_line held more) }
{
    let mut text = Vec::new(alloc);
    put_full_line(&mut text, held, more)?;
    Ok(text)
}

// `guardian: shape R W HASH`
fn put_kept_shape(out: &mut Vec<u8>, kept: &Shape) -> Result<(), Memory>
    ensures { AppendsText result out.old.items out.new.items (codes "guardian: shape " ++ joined (shape_words kept.now)) }
{
    put_text(out, b"guardian: shape ")?;
    put_shape(out, kept)?;
    Ok(())
}

// ` in the book, R W HASH`
fn put_asked_shape(out: &mut Vec<u8>, asked: &Shape) -> Result<(), Memory>
    ensures { AppendsText result out.old.items out.new.items (codes " in the book, " ++ joined (shape_words asked.now)) }
{
    put_text(out, b" in the book, ")?;
    put_shape(out, asked)?;
    Ok(())
}

#[tactic(auto, using(text_out::proofs::Keeping::keeps_itself, text_out::proofs::Keeping::keeps_after), unfolding(crate::specs::Faults::shape_line))]
fn put_shape_line(out: &mut Vec<u8>, kept: &Shape, asked: &Shape) -> Result<(), Memory>
    ensures { AppendsText result out.old.items out.new.items (faults.shape_line kept.now asked.now) }
{
    put_kept_shape(out, kept)?;
    put_asked_shape(out, asked)?;
    put_text(out, b" asked")?;
    put_text(out, b"\n")?;
    Ok(())
}

/// `guardian: shape R W HASH in the book, R W HASH asked` and the byte 10: the shape of the book's file, and the one that
/// was asked for. `Memory` comes only where memory runs out.
pub fn shape_line(alloc: Global, kept: &Shape, asked: &Shape) -> Result<Vec<u8>, Memory>
    ensures { IfOk result (λ text. text.items ≡ faults.shape_line kept.now asked.now) }
{
    let mut text = Vec::new(alloc);
    put_shape_line(&mut text, kept, asked)?;
    Ok(text)
}

#[tactic(auto, using(text_out::proofs::Keeping::keeps_itself, text_out::proofs::Keeping::keeps_after), unfolding(crate::specs::Faults::damaged_line))]
fn put_damaged_line(out: &mut Vec<u8>, at: u64) -> Result<(), Memory>
    ensures { AppendsText result out.old.items out.new.items (faults.damaged_line at) }
{
    put_field(out, b"guardian: damaged at ", at)?;
    put_text(out, b"\n")?;
    Ok(())
}

/// `guardian: damaged at N` and the byte 10, N being a place in the book's file, in bytes from its start. `Memory` comes only
/// where memory runs out.
pub fn damaged_line(alloc: Global, at: u64) -> Result<Vec<u8>, Memory>
    ensures { IfOk result (λ text. text.items ≡ faults.damaged_line at) }
{
    let mut text = Vec::new(alloc);
    put_damaged_line(&mut text, at)?;
    Ok(text)
}

// `guardian: rebuild: switch S epoch E`
fn put_sketch(out: &mut Vec<u8>, switch: u16, epoch: u32) -> Result<(), Memory>
    ensures { AppendsText result out.old.items out.new.items
        (field (codes "guardian: rebuild: switch ") switch ++ field (codes " epoch ") epoch) }
{
    put_field(out, b"guardian: rebuild: switch ", u64::from(switch))?;
    put_field(out, b" epoch ", u64::from(epoch))?;
    Ok(())
}

// ` has K of W`
fn put_known(out: &mut Vec<u8>, known: u16, width: u16) -> Result<(), Memory>
    ensures { AppendsText result out.old.items out.new.items
        (field (codes " has ") known ++ field (codes " of ") width) }
{
    put_field(out, b" has ", u64::from(known))?;
    put_field(out, b" of ", u64::from(width))?;
    Ok(())
}

#[tactic(auto, using(text_out::proofs::Keeping::keeps_itself, text_out::proofs::Keeping::keeps_after), unfolding(crate::specs::Faults::missing_line))]
fn put_missing_line(
    out: &mut Vec<u8>,
    switch: u16,
    epoch: u32,
    known: u16,
    width: u16,
) -> Result<(), Memory>
    ensures { AppendsText result out.old.items out.new.items (faults.missing_line switch epoch known width) }
{
    put_sketch(out, switch, epoch)?;
    put_known(out, known, width)?;
    put_text(out, b" columns")?;
    put_text(out, b"\n")?;
    Ok(())
}

/// `guardian: rebuild: switch S epoch E has K of W columns` and the byte 10: how many columns of a sketch are known, and how
/// many it has. `Memory` comes only where memory runs out.
pub fn missing_line(
    alloc: Global,
    switch: u16,
    epoch: u32,
    known: u16,
    width: u16,
) -> Result<Vec<u8>, Memory>
    ensures { IfOk result (λ text. text.items ≡ faults.missing_line switch epoch known width) }
{
    let mut text = Vec::new(alloc);
    put_missing_line(&mut text, switch, epoch, known, width)?;
    Ok(text)
}

// `guardian: conflict at switch S epoch E`
fn put_place(out: &mut Vec<u8>, key: &Key) -> Result<(), Memory>
    ensures { AppendsText result out.old.items out.new.items
        (field (codes "guardian: conflict at switch ") key.now.switch ++ field (codes " epoch ") key.now.epoch) }
{
    put_field(out, b"guardian: conflict at switch ", u64::from(key.switch))?;
    put_field(out, b" epoch ", u64::from(key.epoch))?;
    Ok(())
}

// A word, and the buckets of a column.
fn put_listed(out: &mut Vec<u8>, word: &[u8], column: &Column) -> Result<(), Memory>
    ensures { AppendsText result out.old.items out.new.items (word.now ++ flat_map bucket_text column.now.cells.buckets) }
{
    put_text(out, word)?;
    put_buckets(out, column)?;
    Ok(())
}

/// Appends `guardian: conflict at switch S epoch E column J kept LIST came LIST` and the byte 10: what names two columns, and
/// of each row the sum in bytes and the maximum in microseconds, of the one that the book keeps and of the one that came. At
/// `Memory` what stood before is kept, and a part of the line may stand after it.
#[tactic(auto, using(text_out::proofs::Keeping::keeps_itself, text_out::proofs::Keeping::keeps_after), unfolding(crate::specs::Faults::conflict_line))]
pub fn put_conflict_line(
    out: &mut Vec<u8>,
    key: &Key,
    kept: &Column,
    came: &Column,
) -> Result<(), Memory>
    ensures { AppendsText result out.old.items out.new.items (faults.conflict_line key.now kept.now came.now) }
{
    put_place(out, key)?;
    put_field(out, b" column ", u64::from(key.index))?;
    put_listed(out, b" kept", kept)?;
    put_listed(out, b" came", came)?;
    put_text(out, b"\n")?;
    Ok(())
}
