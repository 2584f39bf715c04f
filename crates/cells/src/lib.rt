// Cells of a lent table: what one holds, the number of a pair's cell, a caller as one number, and blanking.
#![tactic(auto)]

ghost use Rattle.std.specs.Prelude.{◌≡◌, ◌++◌, ◌+◌, ◌/◌, ◌%◌, max, ◌≤◌, eqb, length, drop, replicate};
ghost use Rattle.schema.specs.Cells.{held_at, reach_at, stored, HasCell};
ghost use Rattle.schema.specs.Derivation.{◌at◌};
ghost use Rattle.schema.specs.Table.{cell};
ghost use Rattle.cells.specs.Packed.{entry};

// What a cell of the table holds: the number of an outcome (document 01: blank, failure, loop, missing, or success ending at a position), and its
// reach (document 02, order 6), 0 in what the calls store but for success and failure.
#[derive(Clone, Copy, PartialEq, Eq)]
pub struct Cell(pub u32, pub u32);

impl Cell {
    // "0 for blank"; order 6: "both 0 when blank"
    pub const BLANK: Cell = Cell(0, 0);

    // "1 for failure", with reach 0.
    pub const FAILURE: Cell = Cell(1, 0);

    // "2 loop"
    pub const LOOP: Cell = Cell(2, 0);

    // "3 missing"
    pub const MISSING: Cell = Cell(3, 0);

    // "5 + q for success ending at q", at 0, with reach 0.
    pub const SUCCESS: Cell = Cell(5, 0);

    // A pair that is asked and not decided yet, above every code.
    pub const OPEN: Cell = Cell(4294967295, 0);

    // Success ending at a position, with its reach.
    pub fn success(end: u32, reach: u32) -> Cell
        requires { end ≤ 4096 }
        ensures { (result.0 ≡ 5 + end) × (result.1 ≡ reach) }
    {
        Cell(Cell::SUCCESS.0 + end, reach)
    }

    // Failure, with its reach.
    pub fn failure(reach: u32) -> Cell
        ensures { (result.0 ≡ 1) × (result.1 ≡ reach) }
    {
        Cell(Cell::FAILURE.0, reach)
    }

    // The cell of a number.
    pub fn load(table: &[u32], index: usize) -> Cell
        requires { HasCell table.now index }
        ensures { (result.0 ≡ held_at table.now index) × (result.1 ≡ reach_at table.now index) }
    {
        Cell(table[2 * index], table[2 * index + 1])
    }

    // Puts the cell at a number.
    pub fn store(self, table: &mut [u32], index: usize)
        requires { HasCell table.old index }
        ensures { table.new ≡ stored table.old index self.0 self.1 }
    {
        table[2 * index] = self.0;
        table[2 * index + 1] = self.1;
    }

    // The cell with the greater of its reach and another.
    pub fn reaching(self, other: u32) -> Cell
        ensures { (result.0 ≡ self.0) × (result.1 ≡ max other self.1) }
    {
        Cell(self.0, self.1.max(other))
    }
}

// The number of a pair's cell, on n bytes. It is found in 32 bits: of 64 the compiler makes a longer walk.
pub fn cell_number(n: usize, variable: u32, position: u32) -> usize
    requires { (1 ≤ variable) × (variable ≤ 256) × (n ≤ 4096) × (position ≤ n) }
    ensures { result ≡ cell n (variable at position) }
{
    ((variable - 1) * (n as u32 + 1) + position) as usize
}

// A caller: a pair, and whether what it called is its second call.
#[derive(Clone, Copy)]
pub struct Caller {
    pub variable: u32,
    pub position: u32,
    pub second: bool,
}

impl Caller {
    // The caller as one number.
    pub fn pack(self) -> u32
        requires { (self.variable ≤ 256) × (self.position ≤ 4096) }
        ensures { result ≡ entry self.second (self.variable at self.position) }
    {
        let pair = 8192 * self.variable + self.position;
        2 * pair + u32::from(self.second)
    }

    // The caller of a number.
    pub fn unpack(word: u32) -> Caller
        ensures { (result.variable ≡ word / 16384) × (result.position ≡ word / 2 % 8192) × (result.second ≡ eqb (word % 2) 1) }
    {
        Caller {
            variable: word / 16384,
            position: word / 2 % 8192,
            second: word % 2 == 1,
        }
    }
}

// Blanks the first numbers of a slice, of a table two for each cell.
pub fn blank(numbers: &mut [u32], size: usize)
    requires { size ≤ length numbers.old }
    ensures { numbers.new ≡ replicate size 0 ++ drop size numbers.old }
{
    numbers[..size].fill(0);
}
