// Texts in lent memory: one behind another, numbers in decimal, and the lines of a text.
#![tactic(auto)]

ghost use Rattle.std.specs.Prelude.{◌≡◌, ◌+◌, ◌≤◌, length, drop};
ghost use Rattle.texts.specs.Texts.{decimal, Appended};
ghost use Rattle.texts.specs.Lines.{lines_of, line_length};

// Writes a text behind the first n bytes of out, and answers where it ends.
pub fn append(out: &mut [u8], n: usize, text: &[u8]) -> usize
    requires { n + length text.now ≤ length out.old }
    ensures { Appended out.old n text.now out.new result }
{
    let end = n + text.len();
    out[n..end].copy_from_slice(text);
    end
}

// Writes a number in decimal behind the first n bytes of out, and answers where it ends.
pub fn append_decimal(out: &mut [u8], n: usize, x: u64) -> usize
    requires { n + 20 ≤ length out.old }
    ensures { Appended out.old n (decimal x) out.new result × (result ≤ n + 20) }
{
    let mut text = [0u8; 20];
    let mut rest = x;
    // The loop goes over what is left of the number: a `for` over the places would have an end that is never reached.
    let mut i = 19;
    while rest >= 10 {
        text[i] = (rest % 10) as u8 + b'0';
        rest /= 10;
        i -= 1;
    }
    text[i] = rest as u8 + b'0';
    append(out, n, &text[i..])
}

// Where the line that begins at a place ends.
pub fn line_end(s: &[u8], at: usize) -> usize
    requires { at ≤ length s.now }
    ensures { result ≡ at + line_length (drop at s.now) }
{
    match s[at..].iter().position(|byte| *byte == b'\n') {
        Some(i) => at + i + 1,
        None => s.len(),
    }
}

// How many lines a text has: its bytes 0A, and a last unended piece.
pub fn count_lines(s: &[u8]) -> usize
    ensures { result ≡ length (lines_of s.now) }
{
    let ended = s.iter().filter(|byte| **byte == b'\n').count();
    if s.last().is_some_and(|byte| *byte != b'\n') {
        return ended + 1;
    }
    ended
}
