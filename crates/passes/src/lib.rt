// What a call does to the cells of a table before it asks over them, row by row: whether a cell that stays is out of range, and, for a correction,
// blanking what does not stay. Cells at positions below a limit are blanked: up to the corrected byte for a correction, none for a further question. On
// sheets as societies write them nearly all cells are blank: the first pass skips them in blocks, and notes for each row from where on the second has
// something to blank.
#![tactic(auto)]

ghost use Rattle.std.specs.Prelude.{false, cond, ◌&&◌, ◌≡◌, ◌+◌, ◌*◌, ◌≤◌, eqb, length};
ghost use Rattle.schema.specs.Cells.{cell_at, stored, HasCell};
ghost use Rattle.schema.specs.Table.{contents};
ghost use Rattle.kept.specs.Kept.{is_result, looks_below, retained};
ghost use Rattle.kept.specs.Range.{out_of_range, cells_out};
ghost use Rattle.passes.specs.Passes.{PassReady, BlankIf, EndBlankIf, Looked, Found, refused_if, FirstsUnless, Firsts, Unchanged, Keeps, Starts, StartsUnless};

use cells::Cell;
use grammar::refusal::Refusal;

// How many cells are skipped at once.
const BLOCK: usize = 16;

// Order 11: "cell value 4 no longer" occurs, "and a retained 4 comes under 19": the number right below those of success.
const NO_OUTCOME: u32 = 4;

// For each row, a position before which the second pass has nothing to blank.
type FirstPositions = [u32; 256];

// Is this the number of a success or a failure?
fn is_result(cell: Cell) -> bool
    ensures { result ≡ is_result cell.0 }
{
    (cell.0 == Cell::FAILURE.0) | !(cell.0 < Cell::SUCCESS.0)
}

// Are both numbers 0?
fn is_blank(cell: Cell) -> bool
    ensures { result ≡ (eqb cell.0 0 && eqb cell.1 0) }
{
    cell == Cell::BLANK
}

// Does this cell hold a result whose reach is below the limit?
fn looks_below(cell: Cell, limit: u32) -> bool
    ensures { result ≡ looks_below limit (cell.0, cell.1) }
{
    is_result(cell) & (cell.1 < limit)
}

// Is what a cell at a position holds over 5 + n, or 4, or that of a success ending left of it, or that of a result that reaches less than it?
fn out_of_range(cell: Cell, position: u32, n: u32) -> bool
    requires { (n ≤ 4096) × (position ≤ n) }
    ensures { result ≡ out_of_range n position (cell.0, cell.1) }
{
    let success = Cell::SUCCESS.0;
    let end_out = (success + n < cell.0) | (!(cell.0 < NO_OUTCOME) & (cell.0 < success + position));
    end_out | (is_result(cell) & (cell.1 < position))
}

// Are all cells of a block blank? It begins at a number.
fn block_blank(table: &[u32], start: usize) -> bool
    requires { HasCell table.now (start + 15) }
    ensures { BlankIf result table.now start 16 }
{
    let mut blank = true;
    for i in 0..BLOCK {
        blank &= is_blank(Cell::load(table, start + i));
    }
    blank
}

// Are the last cells of a row blank, as many as a block has? The row begins at a number. Of a shorter row nothing is said.
fn end_blank(table: &[u32], start: usize, n: usize) -> bool
    requires { (n ≤ 4096) × HasCell table.now (start + n) }
    ensures { EndBlankIf result table.now start n 16 }
{
    if n + 1 < BLOCK {
        return false;
    }
    block_blank(table, start + (n + 1 - BLOCK))
}

// Looks at the cells of a row from one position to another: a position before which nothing is blanked, the lesser of `first` and
// theirs; or refusal 19. The row begins at a number. There is no branch in the loop and the limit has 32 bits, so that the compiler tests several cells at once.
fn look(
    table: &[u32],
    start: usize,
    from: usize,
    to: usize,
    n: usize,
    limit: u32,
    first: u32,
) -> Result<u32, Refusal>
    requires { (n ≤ 4096) × (limit ≤ n) × (from ≤ to) × (to ≤ n + 1) × HasCell table.now (start + n) × Looked n limit table.now start from false first }
    ensures { Found n limit table.now start to result }
{
    let mut out = false;
    let mut changes = false;
    for position in from..to {
        let cell = Cell::load(table, start + position);
        let stays = !((position as u32) < limit) | looks_below(cell, limit);
        out |= stays & out_of_range(cell, position as u32, n as u32);
        changes |= !stays & !is_blank(cell);
    }
    if out {
        return Err(Refusal::Cell);
    }
    Ok(if changes {
        first.min(from as u32)
    } else {
        first
    })
}

// Looks at a row, which begins at a number. What is left behind the last whole block is passed over where the row ends with as many blank cells as a block
// has: rows are short, so that cells looked at one by one would cost more than the blocks.
fn look_row(table: &[u32], start: usize, n: usize, limit: u32) -> Result<u32, Refusal>
    requires { (n ≤ 4096) × (limit ≤ n) × HasCell table.now (start + n) }
    ensures { Found n limit table.now start (n + 1) result }
{
    let mut first = limit;
    let blocks = (n + 1) / BLOCK;
    for block in 0..blocks {
        let at = BLOCK * block;
        if !block_blank(table, start + at) {
            first = look(table, start, at, at + BLOCK, n, limit, first)?;
        }
    }
    if end_blank(table, start, n) {
        return Ok(first);
    }
    look(table, start, BLOCK * blocks, n + 1, n, limit, first)
}

// Refusal 19, where a cell that stays is out of range. If none is, each row's first position is noted.
fn note_firsts(
    table: &[u32],
    variables: u32,
    n: usize,
    limit: u32,
    firsts: &mut FirstPositions,
) -> Result<(), Refusal>
    requires { PassReady variables n limit table.now × (length firsts.old ≡ 256) }
    ensures refuses { result ≡ refused_if (cells_out variables n (retained limit n table.now)) }
    ensures notes { FirstsUnless (cells_out variables n (retained limit n table.now)) variables n limit table.now firsts.new }
{
    for (row, first) in firsts[..variables as usize].iter_mut().enumerate() {
        *first = look_row(table, row * (n + 1), n, limit)?;
    }
    Ok(())
}

// Refusal 19 of a call that blanks nothing: is any cell out of range?
pub fn cells_out(table: &[u32], variables: u32, n: usize) -> bool
    requires { PassReady variables n 0 table.now }
    ensures { result ≡ cells_out variables n (contents n table.now) }
{
    let mut firsts: FirstPositions = [0u32; 256];
    note_firsts(table, variables, n, 0, &mut firsts).is_err()
}

// The cell, blank unless it holds a result whose reach is below the limit.
fn kept_cell(cell: Cell, limit: u32) -> Cell
    ensures { (result.0 ≡ cond (looks_below limit (cell.0, cell.1)) cell.0 0) × (result.1 ≡ cond (looks_below limit (cell.0, cell.1)) cell.1 0) }
{
    if looks_below(cell, limit) {
        return cell;
    }
    Cell::BLANK
}

// Blanks a cell, unless it holds a result whose reach is below the limit. It is stored again in any case: of the choice between the two the compiler
// then makes no branch, and goes through a row several cells at once.
fn retain_cell(table: &mut [u32], index: usize, limit: u32)
    requires { HasCell table.old index }
    ensures { let k = cell_at table.old index in table.new ≡ stored table.old index (cond (looks_below limit k) k.0 0) (cond (looks_below limit k) k.1 0) }
{
    kept_cell(Cell::load(table, index), limit).store(table, index);
}

// The cells of a row, which begins at a number, at positions from the first that may change up to the limit.
fn retain_row(table: &mut [u32], start: usize, first: u32, limit: u32)
    requires { (first ≤ limit) × (2 * (start + limit) ≤ length table.old) × Unchanged limit table.old start first }
    ensures { Keeps limit start limit table.old table.new }
{
    for position in first as usize..limit as usize {
        retain_cell(table, start + position, limit);
    }
}

// Blanks the cells that do not stay, and leaves the others.
fn retain_rows(table: &mut [u32], variables: u32, n: usize, limit: u32, firsts: &FirstPositions)
    requires { PassReady variables n limit table.old × Firsts variables n limit table.old firsts.now }
    ensures { Starts variables n (retained limit n table.old) table.old table.new }
{
    for (row, first) in firsts[..variables as usize].iter().enumerate() {
        retain_row(table, row * (n + 1), *first, limit);
    }
}

// Blanks the cells at positions below the limit, but for results whose reach is below it, and retains the others; or refuses with 19, where a retained one
// is out of range, and leaves the table as it was.
pub fn retain(table: &mut [u32], variables: u32, n: usize, limit: u32) -> Result<(), Refusal>
    requires { PassReady variables n limit table.old }
    ensures refuses { result ≡ refused_if (cells_out variables n (retained limit n table.old)) }
    ensures retains { StartsUnless (cells_out variables n (retained limit n table.old)) variables n (retained limit n table.old) table.old table.new }
{
    let mut firsts: FirstPositions = [0u32; 256];
    note_firsts(table, variables, n, limit, &mut firsts)?;
    retain_rows(table, variables, n, limit, &firsts);
    Ok(())
}
