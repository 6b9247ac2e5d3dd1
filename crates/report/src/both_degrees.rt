// A table's records of both degrees, and the lines of its cells.
ghost use Rattle.std.specs.Prelude.{◌+◌, ◌*◌, ◌≤◌, length};
ghost use Rattle.cell.specs.Cell.{place_at, Accepted};
ghost use Rattle.cell.specs.Cells.{Between, cell_count};
ghost use Rattle.table_file.specs.Answers.{read_header};
ghost use Rattle.text.specs.Lines.{Put};
ghost use Rattle.report.specs.Report.{held_nodes, with_degree, table_with};
ghost use Rattle.report.specs.Parts.{Answers, line_from, lines_from, line_limit};

use crate::dose_at;
use table_file::Header;

// A table and its records, which refuse no cell.
#[derive(Clone, Copy)]
pub struct BothDegrees<'a> {
    pub header: Header,
    pub cubic: &'a [i32],
    pub quintic: &'a [i32],
    pub ghost cubic_answers: { Answers (table_with (read_header header) 3) cubic.now },
    pub ghost quintic_answers: { Answers (table_with (read_header header) 5) quintic.now },
}

impl BothDegrees<'_> {
    // Puts the line of a cell at `at`, and gives the place after it.
    fn put_line(self, cell: [u32; 3], out: &mut [u8], at: usize) -> usize
        requires accepted { Accepted (with_degree (read_header self.header) 3) (place_at cell) × Between 0 99 cell × (at + line_limit ≤ length out.old) }
        ensures { Put out.old at (line_from (read_header self.entry.header) self.entry.cubic.now self.entry.quintic.now cell) out.new result × (result ≤ at + line_limit) }
    {
        let a = dose_at(self.header, 3, self.cubic, cell);
        let b = dose_at(self.header, 5, self.quintic, cell);
        text::put_cell_line(out, at, cell, a, b)
    }

    // Puts the lines of all cells at the front of `out`, and gives their length.
    pub fn put_lines(self, out: &mut [u8]) -> usize
        requires { (cell_count (with_degree (read_header self.header) 3) ≤ held_nodes) × (held_nodes * line_limit ≤ length out.old) }
        ensures { Put out.old 0 (lines_from (read_header self.entry.header) self.entry.cubic.now self.entry.quintic.now) out.new result × (result ≤ held_nodes * line_limit) }
    {
        // The cells are the same for both degrees.
        let cells = cell::cells_of(self.header.shape(3));
        let [x, y, z] = cells;
        let mut at = 0;
        for i in 0..x * (y * z) {
            at = self.put_line(cell::cell_at(cells, i), out, at);
        }
        at
    }
}
