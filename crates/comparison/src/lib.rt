// An input compared with the same before one of its bytes was corrected.
#![tactic(auto)]

ghost use Rattle.std.specs.Prelude.{not, ◌≡◌, ◌<◌, length};
ghost use Rattle.std.specs.Str.{bytes_eq};
ghost use Rattle.kept.specs.Differs.{differs_elsewhere};

// Refusal 21: do the old and the corrected input differ in length, or at a position other than c? They are compared up to c, and from behind it on.
pub fn differs_elsewhere(old: &[u8], input: &[u8], c: usize) -> bool
    requires { c < length input.now }
    ensures { result ≡ differs_elsewhere c old.now input.now }
{
    if old.len() != input.len() {
        return true;
    }
    part_differs(&old[..c], &input[..c]) || part_differs(&old[c + 1..], &input[c + 1..])
}

// Do two parts of one length differ?
fn part_differs(old: &[u8], input: &[u8]) -> bool
    ensures { result ≡ not (bytes_eq old.now input.now) }
{
    old != input
}
