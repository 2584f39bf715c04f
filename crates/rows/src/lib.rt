// Decimal numbers in fixed columns, written: a field, and a row of fields.
#![tactic(auto)]

ghost use Rattle.std.specs.Prelude.{◌≡◌, ◌+◌, ◌*◌, length};
ghost use Rattle.columns.specs.Column.{column, row};
ghost use Rattle.rows.specs.Leading.{leading_byte};

// A column left of the last, where x is what is left of the number.
fn leading_byte(x: u32) -> u8
    ensures { result ≡ leading_byte x }
{
    if x == 0 {
        return b' ';
    }
    b'0' + (x % 10) as u8
}

// Writes the number x over all columns of out, from the last to the first.
pub fn write_field(out: &mut [u8], x: u32)
    ensures { out.new ≡ column (length out.old) x }
{
    let Some((last, front)) = out.split_last_mut() else {
        return;
    };
    *last = b'0' + (x % 10) as u8;
    let mut left = x / 10;
    for at in (0..front.len()).rev() {
        front[at] = leading_byte(left);
        left /= 10;
    }
}

// Writes a row: the numbers in fields of one width, and byte 10. From the last field on, so that what stands behind is a row already.
pub fn write_row(out: &mut [u8], width: usize, numbers: &[u32])
    requires { length out.old ≡ width * length numbers.now + 1 }
    ensures { out.new ≡ row width numbers.now }
{
    let mut at = out.len() - 1;
    out[at] = b'\n';
    for x in numbers.iter().rev() {
        at -= width;
        write_field(&mut out[at..at + width], *x);
    }
}
