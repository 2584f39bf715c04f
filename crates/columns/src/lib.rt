// Decimal numbers in fixed columns, read by a cursor that goes by value.
#![tactic(auto)]

ghost use Rattle.std.specs.Prelude.{not, ◌==◌, ◌≡◌, ◌*◌, ◌^◌, ◌≤◌, ◌<◌, length, take};
ghost use Rattle.std.specs.List.{position};
ghost use Rattle.std.specs.Int.{from_le_bytes, w32};
ghost use Rattle.columns.specs.Column.{digits_after, fields, number, reads, told};
ghost use Rattle.columns.specs.Scan.{held, digit_of, first_digit_of};

// The position of a column, counted from 0.
#[derive(Drop)]
pub struct Cursor {
    pub at: usize,
}

// The digit that a byte shows. (It is subtracted as a number: then the compiler needs no second test.)
fn digit(b: u8) -> Option<u32>
    ensures { result ≡ digit_of b }
{
    match b {
        b'0'..=b'9' => Some(u32::from(b) - u32::from(b'0')),
        _ => None,
    }
}

// The digit of a byte that may come first.
fn first_digit(b: u8) -> Option<u32>
    ensures { result ≡ first_digit_of b }
{
    match b {
        b'1'..=b'9' => Some(u32::from(b) - u32::from(b'0')),
        _ => None,
    }
}

// The number of these digits.
fn read_digits(digits: &[u8]) -> Option<u32>
    requires { length digits.now ≤ 8 }
    ensures { held result ≡ digits_after 0 digits.now }
{
    let mut v: u32 = 0;
    for b in digits {
        v = 10 * v + digit(*b)?;
    }
    Some(v)
}

// Where the first column stands that is no blank.
fn begin(columns: &[u8]) -> Option<usize>
    ensures { result ≡ position (λ b. not (b == 32)) columns.now }
{
    columns.iter().position(|b| *b != b' ')
}

// The number in these columns: blanks, and the digits behind them.
fn read_columns(columns: &[u8]) -> Option<u32>
    requires { length columns.now ≤ 8 }
    ensures { held result ≡ number columns.now }
{
    let digits = &columns[begin(columns)?..];
    if digits[0] == b'0' {
        return (digits.len() == 1).then_some(0);
    }
    read_digits(digits)
}

// The first four of five columns as one number, the first lowest. (It is a function of its own: then the compiler loads the four at once.)
fn first_four(columns: &[u8; 5]) -> u32
    ensures { result ≡ from_le_bytes w32 (take 4 columns.now) }
{
    let [a, b, c, d, _] = *columns;
    u32::from_le_bytes([a, b, c, d])
}

// The number in five columns: by digits from the last on, until all that is left is blank. Blanks are found with one comparison. (A sheet has up to
// 1285 such fields, and a call for each of them would take nearly half of the time.)
#[inline]
fn five_columns(columns: &[u8; 5]) -> Option<u32>
    ensures { held result ≡ number columns.now }
{
    let [a, b, c, d, e] = *columns;
    let left = first_four(columns);
    let ones = digit(e)?;
    if left == 0x2020_2020 {
        return Some(ones);
    }
    if left % 0x100_0000 == 0x20_2020 {
        return Some(10 * first_digit(d)? + ones);
    }
    let tens = 10 * digit(d)? + ones;
    if left % 0x1_0000 == 0x2020 {
        return Some(100 * first_digit(c)? + tens);
    }
    let hundreds = 100 * digit(c)? + tens;
    if a == b' ' {
        return Some(1000 * first_digit(b)? + hundreds);
    }
    Some(10000 * first_digit(a)? + 1000 * digit(b)? + hundreds)
}

// The number in W columns. Five go a faster way.
fn read<const W: usize>(columns: &[u8; W]) -> Option<u32>
    requires { W ≤ 8 }
    ensures { held result ≡ number columns.now }
{
    match columns.as_array() {
        Some(five) => five_columns(five),
        None => read_columns(columns),
    }
}

impl Cursor {
    // The number of the field of W columns here, with the cursor behind it.
    pub fn field<const W: usize>(self, s: &[u8]) -> Option<(u32, Cursor)>
        requires { W ≤ 8 }
        ensures { told result ≡ reads W s.now self.at }
    {
        let columns = s.get(self.at..)?.first_chunk::<W>()?;
        Some((read(columns)?, Cursor { at: self.at + W }))
    }
}

// The numbers of N fields of W columns, each at the position after the one before. They are read from a part of N * W columns, so that the
// compiler knows them to be there.
pub fn fields<const N: usize, const W: usize>(s: &[u8], at: usize) -> Option<[u32; N]>
    requires any { 1 ≤ N }
    requires few { N < 2 ^ 60 }
    requires narrow { W ≤ 8 }
    ensures { held result ≡ fields N W s.now at }
{
    let line = s.get(at..)?.get(..N * W)?;
    let mut numbers = [0u32; N];
    let mut here = Cursor { at: 0 };
    for x in &mut numbers {
        (*x, here) = here.field::<W>(line)?;
    }
    Some(numbers)
}
