// Showing a sheet: its numbers written to a page, line by line.
// That the cells suffice is a `requires`, as in picking.
ghost use Rattle.std.specs.Prelude.{◌≡◌, ◌≤◌, length};
ghost use Rattle.lines.specs.Line.{written_length};
ghost use Rattle.lines.specs.Page.{model as page_model, with_text, HasRoom};
ghost use Rattle.sheets.specs.Cells.{needed, numbers};
ghost use Rattle.sheets.specs.Sheet.{contents_of, model};
ghost use Rattle.sheets.specs.Showing.{row_text, show_length, shown_text};

use crate::cells::number;
use crate::shape::MOST_UNKNOWNS;
use crate::sheet::Sheet;
use kinds::kind::Kind;
use lines::page::Page;

// The frame of a fixed plan.
const FIXED_PLAN: u8 = 0x83;

// The frame of a move.
const MOVE: u8 = 0x84;

// Writes a row of numbers in cells as one line.
fn write_row<K: Kind>(page: &mut Page, frame: u8, row: &[K::Cell])
    requires few { length row.now ≤ MOST_UNKNOWNS }
    requires page { HasRoom (page_model page.old) (written_length (length row.now)) }
    ensures held { page.new.bytes.ghost_name ≡ page.old.bytes.ghost_name }
    ensures model { page_model page.new
        ≡ with_text (page_model page.old)
        (row_text K.Kind.arith frame (numbers K.Kind.arith row.now)) }
{
    let token = page.begin(frame, row.len()).unwrap();
    for cell in row {
        page.put(&token, number::<K>(*cell).write()).unwrap();
    }
    page.close(token).unwrap();
}

impl<K: Kind> Sheet<'_, K> {
    // Writes the fixed plan and the moves, a line each.
    // Moves are told by number, by which the shape shows that they lie within the cells.
    pub(crate) fn write_rows(&self, page: &mut Page)
        requires room { needed self.now.shape.unknowns ≤ length self.now.cells.now }
        requires page { HasRoom (page_model page.old) (show_length (model self.now)) }
        ensures held { page.new.bytes.ghost_name ≡ page.old.bytes.ghost_name }
        ensures model { page_model page.new ≡ with_text (page_model page.old)
            (shown_text K.Kind.arith (contents_of K.Kind.arith (model self.now))) }
    {
        let n = self.shape.unknowns;
        write_row::<K>(page, FIXED_PLAN, &self.cells[..n]);
        for j in 0..self.shape.moves {
            let from = self.shape.row(j);
            write_row::<K>(page, MOVE, &self.cells[from..from + n]);
        }
    }
}
