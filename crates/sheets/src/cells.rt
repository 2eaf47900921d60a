// Work on lent cells, by place: reading and writing one, and columns of them.
// Places are kept to their bounds by `requires`: the type of a number cannot name the slice that it counts in.
ghost use Rattle.std.specs.Prelude.{◌≡◌, ◌+◌, ◌*◌, ◌<◌, ◌≤◌, ◌⊎◌, length, map, slice_set};
ghost use Rattle.plans.specs.Posting.{adds};
ghost use Rattle.sheets.specs.Combining.{Put, Combined};
ghost use Rattle.sheets.specs.Cells.{needed, part, number as number_of_cell, number_at, numbers, held, zero_cells};
ghost use Rattle.lines.specs.Page.{over};

use crate::shape::MOST_UNKNOWNS;
use kinds::kind::Kind;

// A step gave a number that cannot be stored.
#[derive(Clone, Copy)]
pub(crate) struct Overflow;

// How many cells a sheet of n unknowns needs.
pub(crate) fn needed_cells(n: usize) -> usize
    requires { n ≤ MOST_UNKNOWNS }
    ensures { result ≡ needed n }
{
    n * (n + 1) + (n + 1) * (n + 1)
}

// The number in a cell; a cell that fails its check counts as zero.
pub(crate) fn number<K: Kind>(cell: K::Cell) -> K
    ensures { result ≡ number_of_cell K.Kind.arith cell }
{
    K::from_cell(cell).unwrap_or(K::zero())
}

// The number in cell i.
pub(crate) fn read<K: Kind>(cells: &[K::Cell], i: usize) -> K
    requires { i < length cells.now }
    ensures { result ≡ number_at K.Kind.arith cells.now i }
{
    number(cells[i])
}

// Puts a number into cell i.
pub(crate) fn write<K: Kind>(cells: &mut [K::Cell], i: usize, x: K)
    requires { i < length cells.old }
    ensures { cells.new ≡ slice_set cells.old i (K.Kind.arith.to_cell x) }
{
    cells[i] = x.to_cell();
}

// Adds q × the number in cell `from` to the one in cell `to`.
pub(crate) fn add_number<K: Kind>(cells: &mut [K::Cell], to: usize, from: usize, q: K) -> Option<()>
    requires to { to < length cells.old }
    requires from { from < length cells.old }
    ensures { let c = number_at K.Kind.arith cells.old to in
        let d = number_at K.Kind.arith cells.old from in
        Put K.Kind.arith (K.Kind.arith.add_product c q d) to cells.old result cells.new }
{
    let c = read::<K>(cells, to);
    let d = read::<K>(cells, from);
    let x = c.add_product(q, d)?;
    write(cells, to, x);
    Some(())
}

// Adds q × the numbers from `from` on to those from `to` on, from the top down.
// Kept by index: both columns lie in one slice, either before the other; splitting it makes two cases of every step.
// Out of line: written into a posting, it leaves the walk of a round short of registers, and a posting takes longer.
#[inline(never)]
pub(crate) fn combine<K: Kind>(
    cells: &mut [K::Cell],
    to: usize,
    from: usize,
    height: usize,
    q: K,
) -> Result<(), Overflow>
    requires to { to + height ≤ length cells.old }
    requires from { from + height ≤ length cells.old }
    requires apart { (to ≤ from) ⊎ (from + height ≤ to) }
    ensures { let a = K.Kind.arith in
        let u = numbers a (part to height cells.old) in
        let v = numbers a (part from height cells.old) in
        Combined a (adds a u q v) height cells.old to result cells.new }
{
    for i in 0..height {
        add_number(cells, to + i, from + i, q).ok_or(Overflow)?;
    }
    Ok(())
}

// Multiplies the numbers from `at` on by u, from the top down. Kept by index, as `combine` is: one lemma proves both.
pub(crate) fn scale<K: Kind>(
    cells: &mut [K::Cell],
    at: usize,
    height: usize,
    u: K,
) -> Result<(), Overflow>
    requires { at + height ≤ length cells.old }
    ensures { let a = K.Kind.arith in
        let v = numbers a (part at height cells.old) in
        Combined a (adds a (map (λ _. a.zero) v) u v) height cells.old at result cells.new }
{
    for i in 0..height {
        let x = K::zero()
            .add_product(u, read::<K>(cells, at + i))
            .ok_or(Overflow)?;
        write(cells, at + i, x);
    }
    Ok(())
}

// Copies n numbers from the cells from `from` on to those from `to` on.
// Kept by index: `copy_within` would copy cells, and a cell that fails its check is to become zero.
pub(crate) fn copy<K: Kind>(cells: &mut [K::Cell], to: usize, from: usize, n: usize)
    requires to { to + n ≤ length cells.old }
    requires from { from + n ≤ length cells.old }
    requires apart { (to ≤ from) ⊎ (from + n ≤ to) }
    ensures { let a = K.Kind.arith in
        cells.new ≡ over cells.old to (held a (numbers a (part from n cells.old))) }
{
    for i in 0..n {
        let x = read::<K>(cells, from + i);
        write(cells, to + i, x);
    }
}

// Puts zero into n cells from `from` on.
// Not by `fill`, which clones: no kind says that a clone of a cell cannot fail.
pub(crate) fn wipe<K: Kind>(cells: &mut [K::Cell], from: usize, n: usize)
    requires { from + n ≤ length cells.old }
    ensures { cells.new ≡ over cells.old from (zero_cells K.Kind.arith n) }
{
    for cell in &mut cells[from..from + n] {
        *cell = K::zero().to_cell();
    }
}
