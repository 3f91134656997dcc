// Words as digits of m bits in slices of bytes, the first digit most significant: cells are digits of 4 bits, bytes are digits of 8.
#![tactic(auto)]

ghost use Rattle.std.specs.Prelude.{◌≡◌, ◌++◌, ◌*◌, ◌^◌, ◌<◌, ◌≤◌, length, get_or, drop};
ghost use Rattle.words.specs.Digits.{word, digits, laid};

// The word whose digits of m bits stand in s.
pub fn read(s: &[u8], m: u32) -> u64
    requires { (m < 64) × (word m s.now < 2 ^ 64) }
    ensures { result ≡ word m s.now }
{
    let mut x: u64 = 0;
    for digit in s {
        x = (x << m) + *digit as u64;
    }
    x
}

// Fills out with the low digits of m bits of w.
pub fn write(out: &mut [u8], m: u32, w: u64)
    requires { m ≤ 8 }
    ensures { out.new ≡ digits m (length out.old) w }
{
    let mask = (1u64 << m) - 1;
    let mut x = w;
    for i in (0..out.len()).rev() {
        out[i] = (x & mask) as u8;
        x >>= m;
    }
}

// Writes each word into its own place of out, 8 bytes a word.
pub fn put(list: &[u64], out: &mut [u8])
    requires { length list.now * 8 ≤ length out.old }
    ensures { out.new ≡ laid (length list.now) (λ i. get_or list.now i 0) ++ drop (length list.now * 8) out.old }
{
    for (i, word) in list.iter().enumerate() {
        let at = i * 8;
        write(&mut out[at..at + 8], 8, *word);
    }
}
