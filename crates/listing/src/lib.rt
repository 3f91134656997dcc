// The file checker's listing, reckoned from the chunks of its input.
#![tactic(auto)]

ghost use Rattle.std.specs.Prelude.{◌≡◌, ◌++◌, ◌+◌, ◌^◌, ◌<◌, ◌≤◌, length};
ghost use Rattle.line.specs.Reader.{serial_of};
ghost use Rattle.listing.specs.declared.KeyLine.TheVariants.{Known};
ghost use Rattle.texts.specs.Texts.{decimal, Appended};
ghost use Rattle.listing.specs.Listing.{is_key, refusal_text, report, answer_of, one, total};
ghost use Rattle.listing.specs.Chunks.{start, pushing, pushed, gathering, key_of, key_text, answering, keyed, Ends, ending, Feeds, finishing, closing, Kept, Remembers};

use cipher::Key;
use refusals::Refusal;

// How many bytes of a line are kept: one more than the longest good line has, so that they decide its reading.
const LINE_KEPT: usize = 2150;

// What is known of the key line.
#[derive(Clone, Copy)]
pub enum KeyLine {
    Unread,
    Known(Key<u64>),
    Bad,
}

// What is kept between two chunks, beside the first bytes of the line that has not ended and the serials of the lines that opened: the key, how many lines have ended, how many of them opened, and how many bytes are held.
// `Kept` stays a clause, and is no ghost field: `feed` may answer a state that has it no more, since `lines` may come to 2^63.
// Line and serials stay lent: `Feeds` says what stands in the caller's memory then.
#[derive(Clone, Copy)]
pub struct Lister {
    pub key: KeyLine,
    pub lines: u64,
    pub opened: u64,
    pub held: usize,
}

// How many bytes are held now, how many of the chunk were taken, and whether the last was a 0A.
// No Option of them: held and taken are there in both cases, as `gathering` (specs/Chunks.antt) has them.
#[derive(Clone, Copy)]
pub struct Gathered {
    pub held: usize,
    pub taken: usize,
    pub ended: bool,
}

// How many bytes of the chunk were taken, and how many there are to print.
#[derive(Clone, Copy)]
pub struct Fed {
    pub taken: usize,
    pub said: usize,
}

// The bytes and their count stay two parameters, in which `texts::append` takes them; that there is room for 128 is what `feed` asks of its caller.
// Writes a text and a number in decimal behind the first n bytes of out, and answers where they end.
fn append_field(out: &mut [u8], n: usize, text: &[u8], x: u64) -> usize
    requires { n + length text.now + 20 ≤ length out.old }
    ensures { Appended out.old n (text.now ++ decimal x) out.new result × (result ≤ n + length text.now + 20) }
{
    let a = texts::append(out, n, text);
    texts::append_decimal(out, a, x)
}

// Writes a refusal's number, and for 7 its place.
fn append_refusal(out: &mut [u8], n: usize, r: Refusal) -> usize
    requires { n + 44 ≤ length out.old }
    ensures { Appended out.old n (refusal_text r) out.new result × (result ≤ n + 44) }
{
    let a = texts::append_decimal(out, n, r.number() as u64);
    if let Refusal::Line { place } = r {
        return append_field(out, a, b" at ", place as u64);
    }
    a
}

// Writes the report of line x, which opened to a message of so many bytes.
fn put_opened(out: &mut [u8], x: u64, count: u32) -> usize
    requires { 128 ≤ length out.old }
    ensures { Appended out.old 0 (report x (Ok count)) out.new result }
{
    let a = texts::append_decimal(out, 0, x);
    let b = append_field(out, a, b" opened ", count as u64);
    texts::append(out, b, b"\n")
}

// Writes the report of line x, which was refused.
fn put_refused(out: &mut [u8], x: u64, r: Refusal) -> usize
    requires { 128 ≤ length out.old }
    ensures { Appended out.old 0 (report x (Err r)) out.new result }
{
    let a = texts::append_decimal(out, 0, x);
    let b = texts::append(out, a, b" refused ");
    let c = append_refusal(out, b, r);
    texts::append(out, c, b"\n")
}

// Writes the total.
fn put_total(out: &mut [u8], lines: u64, opened: u64) -> usize
    requires { (opened ≤ lines) × (128 ≤ length out.old) }
    ensures { Appended out.old 0 (total lines opened) out.new result }
{
    let a = append_field(out, 0, b"lines ", lines);
    let b = append_field(out, a, b" opened ", opened);
    let c = append_field(out, b, b" refused ", lines - opened);
    texts::append(out, c, b"\n")
}

// Whether a line is a key line.
fn is_key(l: &[u8]) -> bool
    ensures { result ≡ is_key l.now }
{
    if l.len() != 33 {
        return false;
    }
    if l[32] != 10 {
        return false;
    }
    for i in 0..32 {
        if line::digit_at(l, i) >= 16 {
            return false;
        }
    }
    true
}

// The key that a line has.
#[tactic(auto, using(crate::proofs::Keys::key_room, crate::proofs::Keys::key_bad, crate::proofs::Keys::key_known))]
fn read_key(l: &[u8]) -> KeyLine
    ensures { result ≡ key_of l.now }
{
    if !is_key(l) {
        return KeyLine::Bad;
    }
    KeyLine::Known(Key {
        w0: line::number_at(l, 0, 16),
        k0: line::number_at(l, 16, 16),
    })
}

// The serial that a line has.
#[tactic(auto, using(line::proofs::Shape::num_small))]
fn serial_of(l: &[u8]) -> u64
    ensures { result ≡ serial_of l.now }
{
    line::number_at(l, 3, 11)
}

// What opening a line by itself answers.
#[tactic(auto, unfolding(crate::specs::Listing::answer_of))]
fn answer_of(key: Key<u64>, l: &[u8]) -> Result<u32, Refusal>
    ensures { result ≡ answer_of key.w0 key.k0 l.now }
{
    let mut room = [0u8; 1024];
    line::open(key, l, &mut room)
}

// 1 for a line that opened.
fn one_of(a: Result<u32, Refusal>) -> u64
    ensures { (result ≡ one a) × (result ≤ 1) }
{
    a.is_ok() as u64
}

// What is answered for a line that by itself gets the answer own, where n serials are remembered. The serial of a line that opened is remembered.
fn unless_used(
    serials: &mut [u64],
    n: usize,
    l: &[u8],
    own: Result<u32, Refusal>,
) -> Result<u32, Refusal>
    requires { Remembers n serials.old }
    ensures { (result, serials.new) ≡ answering n (serial_of l.now) serials.old own }
{
    let count = own?;
    serials::remember(serials, n, serial_of(l))?;
    Ok(count)
}

// Writes the report of line x.
fn put_report(out: &mut [u8], x: u64, a: Result<u32, Refusal>) -> usize
    requires { 128 ≤ length out.old }
    ensures { Appended out.old 0 (report x a) out.new result }
{
    match a {
        Ok(count) => put_opened(out, x, count),
        Err(r) => put_refused(out, x, r),
    }
}

// Writes what is printed of the key line.
fn put_key(out: &mut [u8], key: KeyLine) -> usize
    requires { 128 ≤ length out.old }
    ensures { Appended out.old 0 (key_text key) out.new result }
{
    match key {
        KeyLine::Bad => texts::append(out, 0, b"key refused\n"),
        KeyLine::Unread | KeyLine::Known(_) => 0,
    }
}

// One byte more behind those that are held, where there is room.
#[tactic(auto, unfolding(crate::specs::Chunks::pushing, crate::specs::Chunks::pushed))]
fn push(line: &mut [u8], held: usize, b: u8) -> usize
    requires { (held ≤ 2150) × (2150 ≤ length line.old) }
    ensures { (result ≡ pushed held) × (line.new ≡ pushing line.old held b) × (result ≤ 2150) }
{
    if held < LINE_KEPT {
        line[held] = b;
        return held + 1;
    }
    held
}

// The bytes of a chunk up to its first 0A, behind those that are held.
fn gather(line: &mut [u8], held: usize, chunk: &[u8]) -> Gathered
    requires { (held ≤ 2150) × (2150 ≤ length line.old) }
    ensures { ((result, line.new) ≡ gathering line.old held 0 chunk.now) × (result.held ≤ 2150) }
{
    let mut h = held;
    for (i, &b) in chunk.iter().enumerate() {
        h = push(line, h, b);
        if b == 10 {
            return Gathered {
                held: h,
                taken: i + 1,
                ended: true,
            };
        }
    }
    Gathered {
        held: h,
        taken: chunk.len(),
        ended: false,
    }
}

impl Lister {
    // The state before the first byte.
    pub fn new() -> Lister
        ensures { result ≡ start }
    {
        Lister {
            key: KeyLine::Unread,
            lines: 0,
            opened: 0,
            held: 0,
        }
    }

    // A line under a known key has ended.
    #[tactic(auto, unfolding(crate::specs::Chunks::ending))]
    fn end_known(&mut self, key: Key<u64>, l: &[u8], serials: &mut [u64], out: &mut [u8]) -> usize
        requires { (Kept self.old × (self.old.key ≡ Known key) × Remembers self.old.opened serials.old) × (128 ≤ length out.old) }
        ensures { Ends (ending self.old serials.old l.now) out.old self.new serials.new out.new result }
    {
        let own = answer_of(key, l);
        let a = unless_used(serials, self.opened as usize, l, own);
        self.lines += 1;
        self.opened += one_of(a);
        self.held = 0;
        put_report(out, self.lines, a)
    }

    // The first line has ended.
    fn end_key(&mut self, l: &[u8], out: &mut [u8]) -> usize
        requires { 128 ≤ length out.old }
        ensures { (self.new ≡ keyed self.old (key_of l.now)) × Appended out.old 0 (key_text (key_of l.now)) out.new result }
    {
        self.key = read_key(l);
        self.held = 0;
        put_key(out, self.key)
    }

    // A line has ended.
    #[tactic(auto, unfolding(crate::specs::Chunks::ending))]
    fn end_line(&mut self, l: &[u8], serials: &mut [u64], out: &mut [u8]) -> usize
        requires { (Kept self.old × Remembers self.old.opened serials.old) × (128 ≤ length out.old) }
        ensures { Ends (ending self.old serials.old l.now) out.old self.new serials.new out.new result }
    {
        match self.key {
            KeyLine::Unread => self.end_key(l, out),
            KeyLine::Known(key) => self.end_known(key, l, serials, out),
            KeyLine::Bad => {
                self.held = 0;
                0
            }
        }
    }

    // Takes bytes from a chunk up to its first 0A, and writes what there is to print of the line that ended.
    #[tactic(auto, unfolding(crate::specs::Chunks::ending))]
    pub fn feed(
        &mut self,
        line: &mut [u8],
        serials: &mut [u64],
        chunk: &[u8],
        out: &mut [u8],
    ) -> Fed
        requires { (Kept self.old × Remembers self.old.opened serials.old) × ((2150 ≤ length line.old) × (128 ≤ length out.old)) }
        ensures { Feeds self.old serials.old (gathering line.old self.old.held 0 chunk.now) out.old result self.new line.new serials.new out.new }
    {
        let g = gather(line, self.held, chunk);
        self.held = g.held;
        let said = if g.ended {
            self.end_line(&line[..g.held], serials, out)
        } else {
            0
        };
        Fed {
            taken: g.taken,
            said,
        }
    }

    // A last piece without 0A is a line, if it is not empty.
    #[tactic(auto, unfolding(crate::specs::Chunks::finishing))]
    pub fn finish(&mut self, line: &[u8], serials: &mut [u64], out: &mut [u8]) -> usize
        requires { (Kept self.old × Remembers self.old.opened serials.old) × ((2150 ≤ length line.now) × (128 ≤ length out.old)) }
        ensures { Ends (finishing self.old serials.old line.now) out.old self.new serials.new out.new result }
    {
        if self.held == 0 {
            return 0;
        }
        self.end_line(&line[..self.held], serials, out)
    }

    // Writes what closes the listing.
    #[tactic(auto, unfolding(crate::specs::Chunks::closing))]
    pub fn close(&self, out: &mut [u8]) -> usize
        requires { Kept self.now × (128 ≤ length out.old) }
        ensures { Appended out.old 0 (closing self.now) out.new result }
    {
        match self.key {
            KeyLine::Unread => texts::append(out, 0, b"key refused\n"),
            KeyLine::Known(_) => put_total(out, self.lines, self.opened),
            KeyLine::Bad => 0,
        }
    }
}
