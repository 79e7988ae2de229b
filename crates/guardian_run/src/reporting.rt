//! The report on a book.
ghost use Rattle.std.specs.Prelude.{◌≡◌, IfOk};
ghost use Rattle.report_text.specs.Report.{report as report_of};
ghost use Rattle.column_book.specs.Entries.{content};

use column_book::Book;
use flow_query::answer;
use lg_base::Memory;
use report_text::{put_answer_line, put_columns_line};
use scenario_text::Scenario;
use std::alloc::Global;

/// The report on a book: the answer to each ask of the scenario, and how many columns the book has. Memory where there is
/// none for its lines.
pub(crate) fn report(alloc: Global, scenario: &Scenario, book: &Book) -> Result<Vec<u8>, Memory>
    requires { book.now.shape ≡ scenario.now.shape }
    ensures { IfOk result (λ text. text.items ≡ report_of (content book.now.entries) scenario.now) }
{
    let mut text = Vec::new(alloc);
    let flows = scenario.flows();
    let rows = scenario.shape().rows();
    for ask in scenario.asks() {
        let flow = &flows[ask.flow_at as usize];
        let told = answer(book, ask.switch, ask.epoch, &flow.key);
        put_answer_line(&mut text, flow.name, ask.switch, ask.epoch, rows, &told)?;
    }
    put_columns_line(&mut text, book.count() as usize)?;
    Ok(text)
}
