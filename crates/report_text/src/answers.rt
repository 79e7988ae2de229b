//! The lines of a report.
ghost use Rattle.std.specs.Prelude.{◌≡◌, ◌++◌, codes, IfOk};
ghost use Rattle.text_out.specs.Appending.{AppendsText};
ghost use Rattle.text_out.specs.Words.{field};
ghost use Rattle.report_text.specs.Report.{value_text, answer_line as line_of, columns_line};

use lg_base::Memory;
use lg_model::{Answer, Value};
use std::alloc::Global;
use text_out::{put_field, put_number, put_text};

// A number, `unknown` or `saturated`, after a word.
fn put_value(out: &mut Vec<u8>, word: &[u8], value: Value) -> Result<(), Memory>
    ensures { AppendsText result out.old.items out.new.items (word.now ++ value_text value) }
{
    put_text(out, word)?;
    match value {
        Value::Unknown => put_text(out, b"unknown"),
        Value::AtMost(n) => put_number(out, u64::from(n)),
        Value::Saturated => put_text(out, b"saturated"),
    }
}

// The question: `flow F switch S epoch E`.
fn put_question(out: &mut Vec<u8>, flow: u16, switch: u16, epoch: u32) -> Result<(), Memory>
    ensures { AppendsText result out.old.items out.new.items (field (codes "flow ") flow
        ++ field (codes " switch ") switch ++ field (codes " epoch ") epoch) }
{
    put_field(out, b"flow ", u64::from(flow))?;
    put_field(out, b" switch ", u64::from(switch))?;
    put_field(out, b" epoch ", u64::from(epoch))?;
    Ok(())
}

// The answer: ` rows K of R bytes B delay D`.
fn put_answer(out: &mut Vec<u8>, rows: u8, answer: &Answer) -> Result<(), Memory>
    ensures { AppendsText result out.old.items out.new.items (field (codes " rows ") answer.now.rows_known ++ field (codes " of ") rows
        ++ (codes " bytes " ++ value_text answer.now.bytes) ++ codes " delay " ++ value_text answer.now.delay) }
{
    put_field(out, b" rows ", u64::from(answer.rows_known))?;
    put_field(out, b" of ", u64::from(rows))?;
    put_value(out, b" bytes ", answer.bytes)?;
    put_value(out, b" delay ", answer.delay)?;
    Ok(())
}

/// Appends `flow F switch S epoch E rows K of R bytes B delay D` and the byte 10: the flow, the switch and the epoch of the
/// question, then the answer, with `rows` the rows of the shape. At `Memory` what stood before is kept, and a part of the
/// line may stand after it (docs/FORMATS.md, Output lines).
#[tactic(auto, using(text_out::proofs::Keeping::keeps_itself, text_out::proofs::Keeping::keeps_after), unfolding(crate::specs::Report::answer_line))]
pub fn put_answer_line(
    out: &mut Vec<u8>,
    flow: u16,
    switch: u16,
    epoch: u32,
    rows: u8,
    answer: &Answer,
) -> Result<(), Memory>
    ensures { AppendsText result out.old.items out.new.items (line_of flow switch epoch rows answer.now) }
{
    put_question(out, flow, switch, epoch)?;
    put_answer(out, rows, answer)?;
    put_text(out, b"\n")?;
    Ok(())
}

/// The line that [`put_answer_line`] appends, alone. `Memory` comes only where memory runs out.
pub fn answer_line(
    alloc: Global,
    flow: u16,
    switch: u16,
    epoch: u32,
    rows: u8,
    answer: &Answer,
) -> Result<Vec<u8>, Memory>
    ensures { IfOk result (λ line. line.items ≡ line_of flow switch epoch rows answer.now) }
{
    let mut line = Vec::new(alloc);
    put_answer_line(&mut line, flow, switch, epoch, rows, answer)?;
    Ok(line)
}

/// Appends `columns N` and the byte 10. At `Memory` what stood before is kept, and a part of the line may stand after it.
#[tactic(auto, using(text_out::proofs::Keeping::keeps_itself, text_out::proofs::Keeping::keeps_after), unfolding(crate::specs::Report::columns_line))]
pub fn put_columns_line(out: &mut Vec<u8>, count: usize) -> Result<(), Memory>
    ensures { AppendsText result out.old.items out.new.items (columns_line count) }
{
    put_field(out, b"columns ", count as u64)?;
    put_text(out, b"\n")
}
