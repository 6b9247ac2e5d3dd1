// The program's text: the dose at the middle of each cell of a table file, cubic and quintic.
#![tactic(auto)]

ghost use Rattle.std.specs.Prelude.{◌≡◌, ◌*◌, ◌≤◌, length};
ghost use Rattle.lattice.specs.Buffer.{overwrite};
ghost use Rattle.lattice.specs.Outcome.{done};
ghost use Rattle.cell.specs.Cell.{place_at, Accepted};
ghost use Rattle.table_file.specs.Answers.{read_header};
ghost use Rattle.report.specs.Report.{held_nodes, middle, with_degree, table_with, text_of, report_text};
ghost use Rattle.report.specs.Parts.{Answers, HeldTable, Estimates, Gives, dose_from, line_limit};

use evaluate::Derivative;
use lattice::{FullShape, Reason, Refusal, refuse_unless};
use query::CellQuery;
use table_file::Header;

mod both_degrees;

use both_degrees::BothDegrees;

// The middle of a cell: half the finest steps, none on an unused axis.
fn middle_of(axes: u32) -> [u32; 3]
    requires { axes ≤ 3 }
    ensures { place_at result ≡ middle axes }
{
    let [x, y, z] = lattice::finest_steps(axes);
    [x / 2, y / 2, z / 2]
}

// The table of one degree.
fn table_with(header: Header, degree: u32) -> FullShape
    ensures { result ≡ table_with (read_header header) degree }
{
    FullShape {
        shape: header.shape(degree),
        steps: lattice::finest_steps(header.axes),
        second_edition: header.second_edition,
    }
}

// The dose of one degree at the middle of a cell; no query is refused.
fn dose_at(header: Header, degree: u32, records: &[i32], cell: [u32; 3]) -> i32
    requires answers { Answers (table_with (read_header header) degree) records.now }
    requires accepted { Accepted (with_degree (read_header header) degree) (place_at cell) }
    ensures { result ≡ dose_from (table_with (read_header header) degree) records.now cell }
{
    let step = middle_of(header.axes);
    let table = table_with(header, degree);
    let derivative = Derivative { order: 0, axis: 0 };
    let query = CellQuery {
        cell,
        step,
        derivative,
    };
    query::in_cell(table, records, query).unwrap().number
}

// Estimates one degree: the records to the front of `records`; gives the number of their entries.
fn estimate_degree(
    header: Header,
    degree: u32,
    samples: &[i32],
    records: &mut [i32],
) -> Result<usize, Refusal>
    ensures { Estimates (table_with (read_header header) degree) samples.now records.old records.new result }
{
    let table = table_with(header, degree);
    estimate::estimate(table, samples, records)?;
    Ok(lattice::table_entries(table.shape))
}

// Puts the lines of a table: estimates of both degrees, then its cells.
fn put_table(header: Header, samples: &[i32], out: &mut [u8]) -> Result<usize, Refusal>
    requires { HeldTable (read_header header) samples.now × (held_nodes * line_limit ≤ length out.old) }
    ensures { Gives out.old (text_of (done (read_header header)) samples.now) out.new result }
{
    let mut cubic = [0i32; 4096];
    let mut quintic = [0i32; 13824];
    let low = estimate_degree(header, 3, samples, &mut cubic)?;
    let high = estimate_degree(header, 5, samples, &mut quintic)?;
    let table = BothDegrees {
        header,
        cubic: &cubic[..low],
        quintic: &quintic[..high],
    };
    Ok(table.put_lines(out))
}

// Puts the lines of the table that an input holds.
fn put_input(input: &[u8], out: &mut [u8]) -> Result<usize, Refusal>
    requires { held_nodes * line_limit ≤ length out.old }
    ensures { Gives out.old (report_text input.now) out.new result }
{
    refuse_unless(input.len() <= 4096, Reason::BufferTooShort, 0)?;
    let mut samples = [0i32; 512];
    let header = table_file::read(input, &mut samples)?;
    // The number of nodes is the same for both degrees.
    let nodes = lattice::node_count(header.shape(3));
    put_table(header, &samples[..nodes], out)
}

// Puts the whole text for an input at the front of `out`, and gives its length.
pub fn report(input: &[u8], out: &mut [u8; 16896]) -> usize
    ensures value { (result ≡ length (report_text input.now)) × (result ≤ 16896) }
    ensures out_after { out.new ≡ overwrite (report_text input.now) out.old }
{
    match put_input(input, out) {
        Ok(end) => end,
        Err(refusal) => text::put_refused_line(out, refusal.reason.number()),
    }
}
