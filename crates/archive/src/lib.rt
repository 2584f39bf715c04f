// Tables stored by position, and restored: rows of cells turned into columns.
#![tactic(auto)]

ghost use Rattle.std.specs.Prelude.{◌≡◌, ◌≤◌};
ghost use Rattle.schema.specs.Cells.{held_at, reach_at, stored, HasCell};
ghost use Rattle.archive.specs.Archive.{told, StorePromise, RestorePromise};
ghost use Rattle.archive.specs.Refusals.{variables_out, tables_short, movable};
ghost use Rattle.archive.specs.Turn.{AcrossReady, Across, BlockReady, BlockTurned, BlocksReady, BlocksTurned, TurnReady, Turned, Sides, TurnPromise};

use cells::Cell;
use grammar::refusal::Refusal;

// How many columns are turned at once.
const BLOCK: usize = 4;

// Copies a cell, both its numbers.
fn copy_cell(source: &[u32], from: usize, target: &mut [u32], to: usize)
    requires { HasCell source.now from × HasCell target.old to }
    ensures { target.new ≡ stored target.old to (held_at source.now from) (reach_at source.now from) }
{
    let cell = Cell::load(source, from);
    cell.store(target, to);
}

// Copies cells that stand one behind the other in the source into as many rows of the target, which begin at the cell `start`, each to the same column.
fn copy_across(
    rows: usize,
    width: usize,
    start: usize,
    row: usize,
    source: &[u32],
    from: usize,
    target: &mut [u32],
)
    requires { AcrossReady rows width start row from source.now target.old }
    ensures { Across rows width start row from width source.now target.old target.new }
{
    for k in 0..width {
        copy_cell(source, from + k, target, start + (k * rows + row));
    }
}

// Turns columns of the source's rows, `width` of them from one on, into rows of the target from the cell `start` on.
fn turn_block(
    rows: usize,
    columns: usize,
    column: usize,
    width: usize,
    start: usize,
    source: &[u32],
    target: &mut [u32],
)
    requires { BlockReady rows columns column width start source.now target.old }
    ensures { BlockTurned rows columns column width start rows source.now target.old target.new }
{
    for row in 0..rows {
        copy_across(
            rows,
            width,
            start,
            row,
            source,
            row * columns + column,
            target,
        );
    }
}

// Turns columns into rows of the target, block by block from one on, as long as there is a whole block left: the first column that is not turned.
fn turn_blocks(
    rows: usize,
    columns: usize,
    first: usize,
    width: usize,
    source: &[u32],
    target: &mut [u32],
) -> usize
    requires { BlocksReady rows columns first width source.now target.old }
    ensures { BlocksTurned rows columns first width source.now target.old target.new result }
{
    let blocks = (columns - first) / width;
    for block in 0..blocks {
        let column = first + block * width;
        turn_block(rows, columns, column, width, column * rows, source, target);
    }
    first + blocks * width
}

// Turns rows of cells into columns: first those of whole blocks, of which each row has the cells side by side, so that what is fetched of the source serves
// several of the target's rows; then the columns that are left, one by one.
fn turn(rows: usize, columns: usize, source: &[u32], target: &mut [u32])
    requires { TurnReady rows columns source.now target.old }
    ensures { Turned rows columns 0 columns source.now target.old target.new }
{
    let left = turn_blocks(rows, columns, 0, BLOCK, source, target);
    turn_blocks(rows, columns, left, 1, source, target);
}

// Refusal 20: one of two tables has fewer than two numbers for each cell.
fn too_short(variables: u32, n: u32, source: usize, target: usize) -> bool
    requires { (variables ≤ 256) × (n ≤ 4096) }
    ensures { result ≡ tables_short variables n source target }
{
    let due = 2 * (variables as usize * (n as usize + 1));
    source < due || target < due
}

// Refusal 3: the count of variables is out of range.
fn variables_out(variables: u32) -> bool
    ensures { result ≡ variables_out variables }
{
    !(1..=256).contains(&variables)
}

// The first refusal, or that there is none.
fn admit(variables: u32, n: u32, source: usize, target: usize) -> Result<(), Refusal>
    ensures { told result ≡ movable variables n source target }
{
    if variables_out(variables) {
        return Err(Refusal::Variables);
    }
    if 4096 < n {
        return Err(Refusal::LongEntry);
    }
    if too_short(variables, n, source, target) {
        return Err(Refusal::Tables);
    }
    Ok(())
}

// Turns rows of cells into columns, unless something is refused: the rows of the variables, or those of the positions.
fn turn_table(
    variables: u32,
    n: u32,
    rows: usize,
    columns: usize,
    source: &[u32],
    target: &mut [u32],
) -> Result<(), Refusal>
    requires { Sides variables n rows columns }
    ensures { TurnPromise variables n rows columns source.now target.old target.new result }
{
    admit(variables, n, source.len(), target.len())?;
    turn(rows, columns, source, target);
    Ok(())
}

// Stores a table of so many variables, of an input of so many bytes, by position.
pub fn store(variables: u32, length: u32, table: &[u32], stored: &mut [u32]) -> Result<(), Refusal>
    ensures { StorePromise variables length table.now stored.old stored.new result }
{
    let columns = length as usize + 1;
    turn_table(
        variables,
        length,
        variables as usize,
        columns,
        table,
        stored,
    )
}

// Restores a table that was stored by position.
pub fn restore(
    variables: u32,
    length: u32,
    stored: &[u32],
    table: &mut [u32],
) -> Result<(), Refusal>
    ensures { RestorePromise variables length stored.now table.old table.new result }
{
    let rows = length as usize + 1;
    turn_table(variables, length, rows, variables as usize, stored, table)
}
