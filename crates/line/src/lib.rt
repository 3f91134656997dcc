// Frame lines: reading, writing and opening.
#![tactic(auto)]

ghost use Rattle.std.specs.Prelude.{Ok, ◌≡◌, ◌++◌, ℕ, ◌+◌, ◌*◌, ◌^◌, ◌<◌, ◌≤◌, min, length, get_or, drop};
ghost use Rattle.refusals.specs.Refusals.{giving};
ghost use Rattle.refusals.specs.declared.Refusal.TheVariants.{Line};
ghost use Rattle.frame.specs.Frames.{sealed_size};
ghost use Rattle.line.specs.Line.{Reads, hex_digit, hex_digits, hex, line_of};
ghost use Rattle.line.specs.Reader.{hex_value, number_at, label_length, message_length, end_of, bytes_at, stands, fits, place};
ghost use Rattle.line.specs.Calls.{frame_of, writing, opening_as, opening_line};
ghost use Rattle.line.specs.Workings.{FieldsRead};

use cipher::Key;
use refusals::Refusal;

// The fields of a good line, and where its label and its sealed bytes begin.
#[derive(Clone, Copy, Debug, PartialEq, Eq)]
pub struct Fields {
    pub serial: u64,
    pub label_length: usize,
    pub message_length: usize,
    pub label_place: usize,
    pub sealed_place: usize,
}

// Refusal 7, and its place.
#[derive(Clone, Copy, Debug, PartialEq, Eq)]
pub struct NotLine {
    pub place: u32,
}

impl From<NotLine> for Refusal {
    ghost from_gives = { λ e r. r ≡ Line e.place };

    fn from(e: NotLine) -> Refusal {
        Refusal::Line { place: e.place }
    }
}

// The value of a digit, or 16 for a byte that is none.
// 16 and not an Option: `hex_value`, which the contract of `digit_at` cites, counts it so.
#[tactic(auto, using(crate::proofs::Tests::tests), unfolding(crate::specs::Reader::hex_value))]
fn hex_val(b: u8) -> u64
    ensures { result ≡ hex_value b }
{
    match b {
        b'0'..=b'9' => (b - b'0') as u64,
        b'a'..=b'f' => (b - b'a' + 10) as u64,
        _ => 16,
    }
}

// The value of the digit at place i: 0 past the end, and 16 for a byte that is no digit.
#[tactic(auto, using(crate::proofs::Shape::numbers))]
pub fn digit_at(s: &[u8], i: usize) -> u64
    ensures { result ≡ hex_value (get_or s.now i 48) }
{
    if i < s.len() { hex_val(s[i]) } else { 0 }
}

// The number of the n digits from place a on, one of 64 bits.
#[tactic(auto, using(crate::proofs::Shape::numbers))]
pub fn number_at(s: &[u8], a: usize, n: usize) -> u64
    requires { ((a ≤ 2 ^ 32) × (n ≤ 2 ^ 32)) × (number_at s.now a n < 2 ^ 64) }
    ensures { result ≡ number_at s.now a n }
{
    let mut v: u64 = 0;
    for i in 0..n {
        v = v * 16 + digit_at(s, a + i);
    }
    v
}

// The label length that a line says.
#[tactic(auto, using(crate::proofs::Shape::num_small))]
fn label_length(s: &[u8]) -> usize
    ensures { (result ≡ label_length s.now) × (result < 2 ^ 49) }
{
    number_at(s, 14, 2) as usize
}

// The message length that a line says.
#[tactic(auto, using(crate::proofs::Shape::num_small))]
fn message_length(s: &[u8]) -> usize
    ensures { (result ≡ message_length s.now) × (result < 2 ^ 49) }
{
    number_at(s, 16, 4) as usize
}

// Where the 0A stands.
fn end_of(s: &[u8]) -> usize
    ensures { (result ≡ end_of s.now) × (result < 2 ^ 52) }
{
    20 + 2 * (label_length(s) + frame::sealed_size(message_length(s)))
}

// May this byte stand at place i of a line whose 0A stands at place e?
#[tactic(auto, using(crate::proofs::Tests::tests), unfolding(crate::specs::Reader::stands))]
fn stands_at(i: usize, b: u8, e: usize) -> bool
    ensures { result ≡ stands i b e }
{
    match i {
        0 => b == b'0',
        1 => b == b'1',
        2 => b == b'0',
        _ if i < e => hex_val(b) < 16,
        _ => i == e && b == b'\n',
    }
}

// May byte i stand there, by the bytes up to it?
#[tactic(auto, using(crate::proofs::Tests::tests), unfolding(crate::specs::Reader::fits))]
fn fits_at(s: &[u8], i: usize) -> bool
    requires { i < length s.now }
    ensures { result ≡ fits s.now i }
{
    let t = &s[..i + 1];
    label_length(t) <= 32 && message_length(t) <= 1024 && stands_at(i, s[i], end_of(t))
}

// The first of the first twenty places whose byte may not stand there, or 20.
#[tactic(auto, using(crate::proofs::Ends::places))]
fn head_place(s: &[u8]) -> usize
    ensures { result ≡ min 20 (place s.now) }
{
    let n = s.len().min(20);
    for k in 0..n {
        if !fits_at(s, k) {
            return k;
        }
    }
    n
}

// The first place whose byte may not stand there, or how many bytes there are.
#[tactic(auto, using(crate::proofs::Ends::places))]
fn first_place(s: &[u8]) -> usize
    ensures { (result ≡ place s.now) × (result < 2150) }
{
    let k = head_place(s);
    if k < 20 {
        return k;
    }
    let e = end_of(s);
    for i in 20..s.len() {
        if !stands_at(i, s[i], e) {
            return i;
        }
    }
    s.len()
}

// The fields of a frame line and their places, or the place where it is none.
#[tactic(auto, using(crate::proofs::Shape::num_small))]
pub fn read(s: &[u8]) -> Result<Fields, NotLine>
    ensures { Reads s.now result }
{
    let k = first_place(s);
    if k < s.len() || k != end_of(s) + 1 {
        return Err(NotLine { place: k as u32 });
    }
    let l = label_length(s);
    Ok(Fields {
        serial: number_at(s, 3, 11),
        label_length: l,
        message_length: message_length(s),
        label_place: 20,
        sealed_place: 20 + 2 * l,
    })
}

// The byte of a digit, without a branch: a digit may be part of what was reckoned from a secret.
#[tactic(auto, using(crate::proofs::Tests::tests), unfolding(crate::specs::Line::hex_digit))]
fn digit_byte(d: u8) -> u8
    requires { d < 16 }
    ensures { result ≡ hex_digit d }
{
    d + b'0' + (d + 6) / 16 * 39
}

// Writes the last digits of a number over all of out.
#[tactic(auto, using(crate::proofs::Writing::digits_turn), unfolding(crate::specs::Line::hex_digits))]
fn put_digits(out: &mut [u8], n: u64)
    ensures { out.new ≡ hex_digits (length out.old) n }
{
    let mut x = n;
    for i in (0..out.len()).rev() {
        out[i] = digit_byte((x % 16) as u8);
        x /= 16;
    }
}

// Writes two digits for each byte over all of out.
#[tactic(auto, using(crate::proofs::Writing::hex_turn), unfolding(crate::specs::Line::hex))]
fn put_hex(bytes: &[u8], out: &mut [u8])
    requires { length out.old ≡ 2 * length bytes.now }
    ensures { out.new ≡ hex bytes.now }
{
    for (i, b) in bytes.iter().enumerate() {
        let at = 2 * i;
        put_digits(&mut out[at..at + 2], *b as u64);
    }
}

// Writes version, serial and lengths over all of out.
fn put_head(serial: u64, l: usize, n: usize, out: &mut [u8])
    requires { length out.old ≡ 20 }
    ensures { out.new ≡ hex_digits 2 1 ++ (hex_digits 12 serial ++ (hex_digits 2 l ++ hex_digits 4 n)) }
{
    put_digits(&mut out[0..2], 1);
    put_digits(&mut out[2..14], serial);
    put_digits(&mut out[14..16], l as u64);
    put_digits(&mut out[16..20], n as u64);
}

// Writes the line of a frame, with a message of n bytes, if there is room for it.
fn give_line(
    serial: u64,
    label: &[u8],
    n: usize,
    sealed: &[u8],
    out: &mut [u8],
) -> Result<u32, Refusal>
    requires { (length label.now ≤ 32) × (length sealed.now ≤ 1032) }
    ensures { (result, out.new) ≡ giving (line_of (frame_of serial label.now n sealed.now)) out.old }
{
    let at = 20 + 2 * label.len();
    let end = at + 2 * sealed.len();
    let size = end + 1;
    if out.len() < size {
        return Err(Refusal::Room);
    }
    put_head(serial, label.len(), n, &mut out[0..20]);
    put_hex(label, &mut out[20..at]);
    put_hex(sealed, &mut out[at..end]);
    out[end] = b'\n';
    Ok(size as u32)
}

// Seals a message under a key, a serial and a label, and writes the line of its frame.
pub fn write(
    key: Key<u64>,
    serial: u64,
    label: &[u8],
    message: &[u8],
    out: &mut [u8],
) -> Result<u32, Refusal>
    ensures { (result, out.new) ≡ writing key.w0 key.k0 serial label.now message.now out.old }
{
    // Fixed memory for the sealed bytes: no heap.
    let mut sealed = [0u8; 1032];
    let count = frame::seal(key, serial, label, message, &mut sealed)?;
    give_line(serial, label, message.len(), &sealed[..count as usize], out)
}

// Writes bytes of two digits each, from place a on, over all of out.
#[tactic(auto, using(crate::proofs::Bytes::turns), unfolding(words::specs::Lists::upto))]
fn bytes_at(s: &[u8], a: usize, out: &mut [u8])
    requires { ((a ≤ 2 ^ 16) × (length out.old ≤ 1032)) × ((i : ℕ) → i < length out.old → number_at s.now (a + 2 * i) 2 < 256) }
    ensures { out.new ≡ bytes_at s.now a (length out.old) }
{
    for (i, b) in out.iter_mut().enumerate() {
        *b = number_at(s, a + 2 * i, 2) as u8;
    }
}

impl Fields {
    // Opens the frame whose fields these are: label and sealed bytes are read from their places in s.
    fn open(self, key: Key<u64>, s: &[u8], out: &mut [u8]) -> Result<u32, Refusal>
        requires { FieldsRead s.now self }
        ensures { (result, out.new) ≡ opening_as key.w0 key.k0 s.now (Ok self) out.old }
    {
        // Fixed memory for label and sealed bytes: no heap.
        let mut label = [0u8; 32];
        let mut sealed = [0u8; 1032];
        let label = &mut label[..self.label_length];
        let sealed = &mut sealed[..frame::sealed_size(self.message_length)];
        bytes_at(s, self.label_place, label);
        bytes_at(s, self.sealed_place, sealed);
        frame::open(key, self.serial, self.message_length, label, sealed, out)
    }
}

// Opens a frame line under a key.
pub fn open(key: Key<u64>, s: &[u8], out: &mut [u8]) -> Result<u32, Refusal>
    ensures { (result, out.new) ≡ opening_line key.w0 key.k0 s.now out.old }
{
    let fields = read(s)?;
    fields.open(key, s, out)
}
