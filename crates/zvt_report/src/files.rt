//! One page about several files: an index, and the report on each.
ghost use Rattle.std.specs.Prelude.{◌≡◌, ◌<◌, ◌≤◌, ◌++◌, [], Err, IfOk, List, OnOk, length};
ghost use Rattle.zvt_grammar.specs.Lengths.{reading_of};
ghost use Rattle.zvt_page.specs.Html.{element, end_tag, render, start_tag};
ghost use Rattle.zvt_trace.specs.Written.{limit};
ghost use Rattle.zvt_report.specs.Files.{count_cell, file_id, index_columns, index_with, looks_id, name_cell};
ghost use Rattle.zvt_report.specs.Files.{net_cell, page_with, read_row, read_section, report_net, sum_cells};
ghost use Rattle.zvt_report.specs.Files.{sum_row, unread_row};

use crate::amounts::amount;
use crate::books::DayBooks;
use crate::cases::Look;
use crate::currencies::{decimals_of, money_of};
use crate::net_sum::{Net, sum_of};
use crate::page::{page_foot, sections};
use crate::page_parts::column;
use crate::report::{Report, report_trace};
use crate::summary::unit;
use crate::sums::unclear_reversals;
use crate::written::{ReportSummary, acts_of, looks_of, summed_up};
use crate::zones::Zone;
use std::alloc::{AllocError, Global};
use zvt_grammar::Lengths;
use zvt_io::Sink;
use zvt_page::{Attribute, Element, document_end, document_start, end, escaped, leaf, start};
use zvt_text::Text;
use zvt_trace::{Scope, TraceFault};

/// A page about several files: an index with the sum of the net totals, if two reports or more have one currency, and
/// the report on each without its dialogue.
#[derive(Drop)]
pub struct FilesPage {
    alloc: Global,
    /// The rows of the index.
    index: Text,
    reports: Text,
    /// The net totals of the files that have a report.
    nets: Vec<Net>,
}

impl FilesPage {
    ghost use Rattle.zvt_report.specs.Files.{AddsFile, AnswersAdded, AnswersFiles, FileReport, HasFiles, read, unread};
    ghost use Rattle.zvt_report.specs.Written.{looks_of};

    /// Creates a page without files.
    pub fn new(alloc: Global) -> FilesPage
        ensures { HasFiles [] result }
    {
        FilesPage {
            alloc,
            index: Text::new(alloc),
            reports: Text::new(alloc),
            nets: Vec::new(alloc),
        }
    }

    /// Adds the report on the trace in the file with this name, which is the file at this place, counted from 1. Times
    /// are shown on the clock of `zone`; `scope` and `lengths` say how the trace is read, as for
    /// [`write_report`](crate::write_report).
    ///
    /// Fails with `Trace` if a line can't be read: then nothing is added. After `Memory`, do not write the page.
    pub fn add(
        &mut self,
        zone: Zone,
        place: usize,
        name: &[u8],
        scope: Scope,
        lengths: Lengths,
        trace: &[u8],
    ) -> Result<ReportSummary, TraceFault>
        requires { length trace.now ≤ limit }
        ensures { AnswersAdded (reading_of lengths) scope zone place name.now trace.now self.old self.new result }
    {
        let report = report_trace(self.alloc, zone, scope, lengths, trace)?;
        let looks = looks_of(self.alloc, &report)?;
        self.put(place, name, &report, looks.as_slice())?;
        Ok(summed_up(&report, looks.as_slice()))
    }

    /// Adds the file at this place to the index, without a report. After a failed allocation, do not write the page.
    pub fn add_unread(&mut self, place: usize, name: &[u8]) -> Result<(), AllocError>
        ensures { OnOk result (AddsFile self.old place (unread name.now) self.new) }
    {
        unread_row(&mut self.index, name)
    }

    /// Adds the report with these looks.
    fn put(
        &mut self,
        place: usize,
        name: &[u8],
        report: &Report,
        looks: &[Look],
    ) -> Result<(), AllocError>
        requires { looks.now ≡ looks_of report.now }
        ensures { OnOk result (AddsFile self.old place (read name.now report.now) self.new) }
    {
        let mut note = Text::new(self.alloc);
        let net = report_net(report);
        self.nets.push(net)?;
        let acts = acts_of(report, looks);
        read_row(
            &mut self.index,
            &mut note,
            place,
            name,
            &net,
            &report.books,
            acts,
        )?;
        let mut id = Text::new(self.alloc);
        read_section(
            &mut self.reports,
            &mut note,
            &mut id,
            place,
            name,
            report,
            looks,
        )
    }

    /// Writes the page. Writes nothing if an allocation fails.
    pub fn write<W: Sink>(&self, writer: &mut W) -> Result<(), TraceFault>
        ensures writes { (files : List FileReport) → HasFiles files self.now
            → AnswersFiles files (W.written writer.old) (W.written writer.new) result }
        ensures write { result ≡ Err TraceFault.Write → W.failures writer.old < W.failures writer.new }
    {
        let page = self.page()?;
        writer.write_all(page.bytes())?;
        Ok(())
    }

    /// Returns the page.
    #[tactic(auto, unfolding(crate::specs::Files::page_with))]
    fn page(&self) -> Result<Text, AllocError>
        ensures { IfOk result (λ page. page ≡ page_with self.now.index self.now.nets.items self.now.reports) }
    {
        let mut page = Text::new(self.alloc);
        document_start(&mut page, b"Reports")?;
        start(&mut page, Element::Main, b"page", None)?;
        index(
            &mut page,
            &mut Text::new(self.alloc),
            self.index.bytes(),
            self.nets.as_slice(),
        )?;
        page.word(self.reports.bytes())?;
        end(&mut page, Element::Main)?;
        document_end(&mut page)?;
        Ok(page)
    }
}

/// Writes where the links to the file at this place lead.
#[tactic(auto, unfolding(crate::specs::Files::file_id))]
fn file_id(text: &mut Text, place: usize) -> Result<(), AllocError>
    ensures { OnOk result (text.new ≡ text.old ++ file_id place) }
{
    text.push(b'f')?;
    text.number(place as u64)
}

/// Writes where the looks of the file at this place begin.
#[tactic(auto, unfolding(crate::specs::Files::looks_id))]
fn looks_id(text: &mut Text, place: usize) -> Result<(), AllocError>
    ensures { OnOk result (text.new ≡ text.old ++ looks_id place) }
{
    file_id(text, place)?;
    text.word(b"-look")
}

/// Writes the name of the file at this place, with a link to its report.
#[tactic(auto, unfolding(crate::specs::Files::name_cell))]
fn name_cell(page: &mut Text, note: &mut Text, place: usize, name: &[u8]) -> Result<(), AllocError>
    ensures { OnOk result (page.new ≡ page.old ++ render (name_cell place name.now)) }
{
    note.clear();
    note.push(b'#')?;
    file_id(note, place)?;
    start(page, Element::Td, b"", None)?;
    start(page, Element::A, b"", Some((Attribute::Href, note.bytes())))?;
    escaped(page, name)?;
    end(page, Element::A)?;
    end(page, Element::Td)
}

/// Writes a net total and its unit.
#[tactic(auto, unfolding(crate::specs::Files::net_cell))]
fn net_cell(page: &mut Text, note: &mut Text, net: &Net) -> Result<(), AllocError>
    ensures { OnOk result (page.new ≡ page.old ++ render (net_cell net.now)) }
{
    let money = money_of(net.currency);
    note.clear();
    amount(note, decimals_of(&money), net.units)?;
    unit(note, &money)?;
    leaf(page, Element::Td, b"n", note.bytes())
}

/// Writes a count.
#[tactic(auto, unfolding(crate::specs::Files::count_cell))]
fn count_cell(page: &mut Text, note: &mut Text, count: u128) -> Result<(), AllocError>
    ensures { OnOk result (page.new ≡ page.old ++ render (count_cell count)) }
{
    note.clear();
    note.number(count)?;
    leaf(page, Element::Td, b"n", note.bytes())
}

/// Returns the net total of a report.
fn report_net(report: &Report) -> Net
    ensures { result ≡ report_net report.now }
{
    Net::new(report.currency, report.books.book.as_slice())
}

/// Writes the row of a file in the index: the net total, and how much is unclear or to be acted on.
#[tactic(auto, unfolding(crate::specs::Files::read_row))]
fn read_row(
    page: &mut Text,
    note: &mut Text,
    place: usize,
    name: &[u8],
    net: &Net,
    books: &DayBooks,
    acts: u64,
) -> Result<(), AllocError>
    ensures { OnOk result (page.new ≡ page.old
        ++ render (read_row place name.now net.now books.now acts)) }
{
    let reversals = unclear_reversals(books.book.as_slice());
    let unclear = books.unclear.len() as u128 + reversals as u128;
    start(page, Element::Tr, b"", None)?;
    name_cell(page, note, place, name)?;
    net_cell(page, note, net)?;
    count_cell(page, note, unclear)?;
    count_cell(page, note, acts as u128)?;
    end(page, Element::Tr)
}

/// Writes the row of a file that has no report.
#[tactic(auto, unfolding(crate::specs::Files::unread_row))]
fn unread_row(page: &mut Text, name: &[u8]) -> Result<(), AllocError>
    ensures { OnOk result (page.new ≡ page.old ++ render (unread_row name.now)) }
{
    start(page, Element::Tr, b"", None)?;
    leaf(page, Element::Td, b"", name)?;
    leaf(page, Element::Td, b"n", b"not read")?;
    leaf(page, Element::Td, b"n", b"")?;
    leaf(page, Element::Td, b"n", b"")?;
    end(page, Element::Tr)
}

/// Writes the row of a sum.
#[tactic(auto, unfolding(crate::specs::Files::sum_cells))]
fn sum_cells(page: &mut Text, note: &mut Text, sum: &Net) -> Result<(), AllocError>
    ensures { OnOk result (page.new ≡ page.old ++ render (sum_cells sum.now)) }
{
    start(page, Element::Tr, b"", None)?;
    leaf(page, Element::Td, b"", b"Sum")?;
    net_cell(page, note, sum)?;
    leaf(page, Element::Td, b"n", b"")?;
    leaf(page, Element::Td, b"n", b"")?;
    end(page, Element::Tr)
}

/// Writes the row of the sum of these net totals, if they have one.
fn sum_row(page: &mut Text, note: &mut Text, nets: &[Net]) -> Result<(), AllocError>
    ensures { OnOk result (page.new ≡ page.old ++ render (sum_row nets.now)) }
{
    match sum_of(nets) {
        Some(sum) => sum_cells(page, note, &sum),
        None => Ok(()),
    }
}

/// Writes the headings of the index.
#[tactic(auto, unfolding(crate::specs::Files::index_columns))]
fn index_columns(page: &mut Text) -> Result<(), AllocError>
    ensures { OnOk result (page.new ≡ page.old ++ render index_columns) }
{
    column(page, b"", b"File")?;
    column(page, b"n", b"Net total")?;
    column(page, b"n", b"Unclear")?;
    column(page, b"n", b"To act on")
}

/// Writes the heading of the page, and the index with these rows and the sum of these net totals. The sum is put
/// together in `note`, whose own text is lost.
#[tactic(auto, unfolding(crate::specs::Files::index_with))]
fn index(page: &mut Text, note: &mut Text, rows: &[u8], nets: &[Net]) -> Result<(), AllocError>
    ensures { OnOk result (page.new ≡ page.old ++ index_with rows.now nets.now) }
{
    start(page, Element::Header, b"", None)?;
    leaf(page, Element::H1, b"", b"Reports")?;
    end(page, Element::Header)?;
    start(page, Element::Table, b"t", None)?;
    index_head(page)?;
    index_body(page, note, rows, nets)?;
    end(page, Element::Table)
}

/// Writes the rows of the index.
fn index_body(page: &mut Text, note: &mut Text, rows: &[u8], nets: &[Net]) -> Result<(), AllocError>
    ensures { OnOk result (page.new ≡ page.old
        ++ (start_tag Element.Tbody [] ++ (rows.now ++ render (sum_row nets.now)) ++ end_tag Element.Tbody)) }
{
    start(page, Element::Tbody, b"", None)?;
    page.word(rows)?;
    sum_row(page, note, nets)?;
    end(page, Element::Tbody)
}

/// Writes the first row of the index.
fn index_head(page: &mut Text) -> Result<(), AllocError>
    ensures { OnOk result (page.new ≡ page.old
        ++ render (element Element.Thead [] (element Element.Tr [] index_columns))) }
{
    start(page, Element::Thead, b"", None)?;
    start(page, Element::Tr, b"", None)?;
    index_columns(page)?;
    end(page, Element::Tr)?;
    end(page, Element::Thead)
}

/// Writes the report on the file at this place. `id` holds the place of its looks, and its own text is lost.
#[tactic(auto, unfolding(crate::specs::Files::read_section))]
fn read_section(
    page: &mut Text,
    note: &mut Text,
    id: &mut Text,
    place: usize,
    name: &[u8],
    report: &Report,
    looks: &[Look],
) -> Result<(), AllocError>
    ensures { OnOk result (page.new ≡ page.old ++ render (read_section place name.now report.now looks.now)) }
{
    id.clear();
    file_id(id, place)?;
    start(
        page,
        Element::Section,
        b"",
        Some((Attribute::Id, id.bytes())),
    )?;
    id.clear();
    looks_id(id, place)?;
    let money = money_of(report.currency);
    sections(
        page,
        note,
        id.bytes(),
        &[],
        name,
        &money,
        report.terminal,
        &report.times,
        &report.books,
        report.messages.as_slice(),
        report.closings.as_slice(),
        looks,
        report.findings.as_slice(),
    )?;
    page_foot(page, note, report.tally, &report.times)?;
    end(page, Element::Section)
}
