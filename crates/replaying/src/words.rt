// The list is a text of headings and words. A word is 16 hexadecimal digits in lower case and one byte that is not looked at.
ghost use Rattle.std.specs.Prelude.{◌≡◌, ◌<◌};
ghost use Rattle.replaying.specs.Digits.{digit_of, hex};

use interval::bits::double_of;

// Writes the next heading: a name in sixteen bytes, filled up with spaces.
pub fn print_heading() {
    let mut text = [0u8; 16];
    let n = io::read_full(0, &mut text);
    io::write_all(1, &text[..n]);
}

// The next word; at the end of the list what is missing counts as 0.
pub fn word() -> u64 {
    let mut text = [0u8; 17];
    io::read_full(0, &mut text);
    value(&text)
}

pub fn double() -> f64 {
    double_of(word())
}

// Any byte that is no digit counts as 0.
#[tactic(auto, using(std::proofs::lemmas::Bool::Decides::nat_tests), unfolding(crate::specs::Digits::digit_of))]
fn digit(b: u8) -> u64
    ensures value { result ≡ digit_of b }
    ensures upper_bound { result < 16 }
{
    match b {
        b'0'..=b'9' => u64::from(b - b'0'),
        b'a'..=b'f' => u64::from(b - b'a' + 10),
        _ => 0,
    }
}

fn value(t: &[u8; 17]) -> u64
    ensures { result ≡ hex 16 t.now }
{
    let mut v = 0;
    for i in 0..16 {
        v = 16 * v + digit(t[i]);
    }
    v
}
