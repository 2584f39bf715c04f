// What the readers of a text of the shorthand share.
ghost use Rattle.std.specs.Prelude.{ℕ, ◌≤◌, get_or};

// A text, the variable of each capital letter, and the variable that always succeeds; the one behind it always fails.
#[derive(Clone, Copy)]
pub struct Source<'a> {
    pub text: &'a [u8],
    pub numbers: &'a [u32; 26],
    pub always: u32,
    pub ghost always_few: { always ≤ 256 },
    pub ghost numbers_few: { (i : ℕ) → get_or numbers.now i 0 ≤ 256 },
}
