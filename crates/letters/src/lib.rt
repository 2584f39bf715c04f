// The letters of a text of the societies' shorthand, numbered by first appearance.
#![tactic(auto)]

ghost use Rattle.std.specs.Prelude.{true, [], ◌≡◌, ◌≤◌};
ghost use Rattle.notation.specs.Capitals.{capitals};
ghost use Rattle.notation.specs.Text.{firsts, capital};
ghost use Rattle.letters.specs.Numbering.{Numbers, Blank, Adds, Passes};

// How far the numbering has come: the letters that have a number, and the bytes to pass over, those behind a quote.
#[derive(Drop)]
struct Numbering {
    count: u32,
    skip: u32,
}

// Gives a capital the next number, where it has none; how many letters have one then.
fn number_letter(letter: u8, count: u32, numbers: &mut [u32; 26]) -> u32
    requires { (capital letter ≡ true) × (count ≤ 26) }
    ensures { Adds letter numbers.old count numbers.new result }
{
    let index = (letter - b'A') as usize;
    if numbers[index] != 0 {
        return count;
    }
    numbers[index] = count + 1;
    count + 1
}

// One byte of the text.
fn number_byte(b: u8, from: Numbering, numbers: &mut [u32; 26]) -> Numbering
    requires { from.count ≤ 26 }
    ensures { Passes b from numbers.old result numbers.new }
{
    let Numbering { count, skip } = from;
    if 0 < skip {
        return Numbering {
            count,
            skip: skip - 1,
        };
    }
    if b == b'\'' {
        return Numbering { count, skip: 2 };
    }
    if b.is_ascii_uppercase() {
        return Numbering {
            count: number_letter(b, count, numbers),
            skip: 0,
        };
    }
    Numbering { count, skip: 0 }
}

// Numbers the capitals outside quotes by first appearance, in an array of zeros; how many there are.
pub fn number_letters(text: &[u8], numbers: &mut [u32; 26]) -> u32
    requires { Blank numbers.old }
    ensures { Numbers (firsts [] (capitals text.now)) numbers.new result }
{
    let mut from = Numbering { count: 0, skip: 0 };
    for b in text {
        from = number_byte(*b, from, numbers);
    }
    from.count
}
