// A sheet in decimal: its fixed plan and its moves.
ghost use Rattle.std.specs.Prelude.{◌≡◌};
ghost use Rattle.sheets.specs.Cells.{number};

use kinds::kind::Kind;
use sheets::shape::Outline;
use std::io;
use std::io::Write;

// The number in a cell; a cell that fails its kind's check counts as zero. `sheets` has it for its own use only.
fn entry<K: Kind>(cell: K::Cell) -> i32
    ensures { result ≡ K.Kind.arith.write (number K.Kind.arith cell) }
{
    K::from_cell(cell).unwrap_or(K::zero()).write()
}

// The numbers of one plan or move. Kept beside decimal's Row, which prints numbers in memory: these stand in cells.
fn row<K: Kind, W: Write>(out: &mut W, cells: &[K::Cell]) -> io::Result<()> {
    write!(out, "(")?;
    for (i, cell) in cells.iter().enumerate() {
        let before = if i > 0 { ", " } else { "" };
        let number = entry::<K>(*cell);
        write!(out, "{before}{number}")?;
    }
    write!(out, ")")
}

// The sheet that lies in the cells.
pub fn sheet<K: Kind, W: Write>(
    out: &mut W,
    outline: Outline,
    cells: &[K::Cell],
) -> io::Result<()> {
    let unknowns = outline.unknowns();
    if unknowns == 0 {
        return writeln!(out, "    sheet: no unknowns");
    }
    let (plan, moves) = cells.split_at(unknowns.min(cells.len()));
    write!(out, "    sheet: fixed plan ")?;
    row::<K, W>(out, plan)?;
    if outline.moves() == 0 {
        return writeln!(out, "; no moves");
    }
    write!(out, "; moves ")?;
    for (i, cells) in moves
        .chunks_exact(unknowns)
        .take(outline.moves())
        .enumerate()
    {
        if i > 0 {
            write!(out, ", ")?;
        }
        row::<K, W>(out, cells)?;
    }
    writeln!(out, "")
}
