// Frames: sealing and opening, box 1 and r = 7.
#![tactic(auto)]

ghost use Rattle.std.specs.Prelude.{◌≡◌, ◌+◌, ◌*◌, ◌/◌, ◌^◌, ◌<◌, ◌≤◌, ◌++◌, IfOk, MatchResult, eqb, length, get_or, take, drop};
ghost use Rattle.words.specs.Digits.{laid};
ghost use Rattle.words.specs.Lists.{sum, upto};
ghost use Rattle.cipher.specs.Engine.{ScheduleBelow, key_schedule, turned};
ghost use Rattle.frame.specs.Blocks.{number, blocks, part, filling, block, tweak, opened_purpose, tag_purpose};
ghost use Rattle.frame.specs.Frames.{frame_engine, label_sum, tag_of, sealed_size, sealed_bytes, sealing, opened_block, fill_right, accepted, opening, Within};
ghost use Rattle.frame.specs.Workings.{enciphered_block, blocks_put, Refuses};
ghost use Rattle.cells64.specs.Qarma64.{qarma64};

use cells::Sbox;
use cipher::{Key, Schedule};
use cipher64::Qarma64;
use refusals::Refusal;

// The limits of a frame: bytes of a message, bytes of a label, and the highest serial.
const MESSAGE_MAX: usize = 1024;

const LABEL_MAX: usize = 32;

const SERIAL_MAX: u64 = 0xFFFFFFFFFFF;

// What the engine runs on, in the order of the purposes' numbers.
#[derive(Clone, Copy)]
enum Purpose {
    WholeMessage,
    FilledMessage,
    WholeLabel,
    FilledLabel,
    WholeTag,
    FilledTag,
}

// How many sealed bytes a message of n bytes has.
pub fn sealed_size(n: usize) -> usize
    requires { n < 2 ^ 60 }
    ensures { result ≡ sealed_size n }
{
    (n + 7) / 8 * 8 + 8
}

// The purpose of the tag of a message of n bytes.
fn tag_purpose(n: usize) -> Purpose
    ensures { number result ≡ tag_purpose n }
{
    if n % 8 == 0 {
        return Purpose::WholeTag;
    }
    Purpose::FilledTag
}

// The purpose of block i of a message of n bytes that is to be opened: there is no plain block yet.
fn opened_purpose(n: usize, i: usize) -> Purpose
    requires { i < 128 }
    ensures { number result ≡ opened_purpose n i }
{
    if n < i * 8 + 8 {
        return Purpose::FilledMessage;
    }
    Purpose::WholeMessage
}

// A tweak: purpose, serial, index.
fn tweak_of(purpose: Purpose, serial: u64, index: u64) -> u64
    requires { (serial < 2 ^ 44) × (index < 2 ^ 16) }
    ensures { result ≡ tweak (number purpose) serial index }
{
    purpose as u64 * 0x1000000000000000 + serial * 0x10000 + index
}

// What filling answers: the word, and how many bytes were added, 0 to 7.
#[derive(Clone, Copy)]
struct Filled {
    word: u64,
    added: usize,
}

// A part of 1 to 8 bytes as a word, filled if it is short, and how many bytes that added.
fn fill(part: &[u8]) -> Filled
    requires { (1 ≤ length part.now) × (length part.now ≤ 8) }
    ensures { (result ≡ filling part.now) × (result.added < 8) }
{
    let added = 8 - part.len();
    let x = words::read(part, 8);
    let w = if added == 0 {
        x
    } else {
        ((x << 8) + 0x80) << (8 * (added - 1))
    };
    Filled { word: w, added }
}

// The same for block i of some bytes.
fn fill_block(bytes: &[u8], i: usize) -> Filled
    requires { i < blocks (length bytes.now) }
    ensures { result ≡ filling (part bytes.now i) }
{
    let at = i * 8;
    if bytes.len() < at + 8 {
        return fill(&bytes[at..]);
    }
    fill(&bytes[at..at + 8])
}

// A block as a word, filled if it was short, and the word that it is enciphered to.
#[derive(Clone, Copy)]
struct Enciphered {
    from: u64,
    to: u64,
}

// Whether a serial, a label and a message of n bytes are inside the limits: refusal 2 or 3 where they are not.
fn within_limits(serial: u64, label: &[u8], n: usize) -> Result<(), Refusal>
    ensures { MatchResult result (λ _. Within serial label.now n) (λ r. Refuses serial label.now n r) }
{
    if MESSAGE_MAX < n {
        return Err(Refusal::Length);
    }
    if LABEL_MAX < label.len() {
        return Err(Refusal::Length);
    }
    if SERIAL_MAX < serial {
        return Err(Refusal::Serial);
    }
    Ok(())
}

// What one frame is sealed or opened with: a schedule, and a serial, a label and a message of n bytes inside the limits. It goes by value into
// its methods, so the schedule stands elsewhere: what is copied stays small.
#[derive(Clone, Copy)]
struct Sealer<'a> {
    schedule: &'a Schedule,
    serial: u64,
    label: &'a [u8],
    n: usize,
    ghost below: { ScheduleBelow 4 schedule.now },
    ghost within: { Within serial label.now n },
}

impl Sealer<'_> {
    // The engine with box 1 and r = 7, on a block under the tweak of a purpose and an index.
    fn engine(self, purpose: Purpose, index: usize, block: u64) -> u64
        requires { index < 2 ^ 16 }
        ensures { result ≡ frame_engine self.entry.schedule.now (tweak (number purpose) self.entry.serial index) block }
    {
        let t = tweak_of(purpose, self.serial, index as u64);
        let cells = cipher::engine_on_cells::<Qarma64>(
            *self.schedule,
            Sbox::Sigma1,
            7,
            cells64::of(t),
            cells64::of(block),
        );
        cells64::word(cells)
    }

    // Block i of some bytes enciphered. Here it is filled, and its purpose chosen: from how many bytes that added, and from nothing else.
    fn seal_block(self, whole: Purpose, filled: Purpose, bytes: &[u8], i: usize) -> Enciphered
        requires { ((number filled ≡ number whole + 1) × (length bytes.now ≤ 1024)) × (i < blocks (length bytes.now)) }
        ensures { result ≡ enciphered_block self.entry.schedule.now (number whole) self.entry.serial bytes.now i }
    {
        let block = fill_block(bytes, i);
        let purpose = if block.added == 0 { whole } else { filled };
        let w = self.engine(purpose, i, block.word);
        Enciphered {
            from: block.word,
            to: w,
        }
    }

    // The sum of the enciphered blocks of the label.
    fn sum_label(self) -> u64
        ensures { result ≡ label_sum self.entry.schedule.now self.entry.serial self.entry.label.now }
    {
        let mut total = 0;
        for i in 0..(self.label.len() + 7) / 8 {
            let block = self.seal_block(Purpose::WholeLabel, Purpose::FilledLabel, self.label, i);
            total ^= block.to;
        }
        total
    }

    // The tag, from the sum of the message's blocks.
    fn tag(self, message_sum: u64) -> u64
        ensures { result ≡ tag_of self.entry.schedule.now self.entry.serial self.entry.label.now self.entry.n message_sum }
    {
        let index = (self.n + 7) / 8;
        self.engine(tag_purpose(self.n), index, message_sum) ^ self.sum_label()
    }

    // Writes each enciphered block of the message into its own place of out, and answers the sum of the blocks.
    fn put_blocks(self, message: &[u8], out: &mut [u8]) -> u64
        requires { (length message.now ≡ self.n) × (blocks (length message.now) * 8 ≤ length out.old) }
        ensures { (result, out.new) ≡ blocks_put self.entry.schedule.now self.entry.serial message.now out.old }
    {
        let mut total = 0;
        for i in 0..(message.len() + 7) / 8 {
            let at = i * 8;
            let block = self.seal_block(Purpose::WholeMessage, Purpose::FilledMessage, message, i);
            words::write(&mut out[at..at + 8], 8, block.to);
            total ^= block.from;
        }
        total
    }

    // Writes the sealed bytes of the message into the first bytes of out.
    fn put_sealed(self, message: &[u8], out: &mut [u8])
        requires { (length message.now ≡ self.n) × (sealed_size (length message.now) ≤ length out.old) }
        ensures { out.new ≡ sealed_bytes self.entry.schedule.now self.entry.serial self.entry.label.now message.now ++ drop (sealed_size (length message.now)) out.old }
    {
        let total = self.put_blocks(message, out);
        let behind = (message.len() + 7) / 8 * 8;
        words::write(&mut out[behind..behind + 8], 8, self.tag(total));
    }

    // Block i of the sealed bytes, deciphered by a turned schedule.
    fn open_block(self, sealed: &[u8], i: usize) -> u64
        requires { (i < blocks self.n) × (i * 8 + 8 ≤ length sealed.now) }
        ensures { result ≡ opened_block self.entry.schedule.now self.entry.serial self.entry.n sealed.now i }
    {
        let at = i * 8;
        let block = words::read(&sealed[at..at + 8], 8);
        self.engine(opened_purpose(self.n, i), i, block)
    }

    // Every block of the sealed bytes, deciphered.
    fn open_blocks(self, sealed: &[u8], plain: &mut [u64])
        requires { (blocks self.n * 8 ≤ length sealed.now) × (blocks self.n ≤ length plain.old) }
        ensures { take (blocks self.entry.n) plain.new ≡ upto (blocks self.entry.n) (opened_block self.entry.schedule.now self.entry.serial self.entry.n sealed.now) }
    {
        for i in 0..(self.n + 7) / 8 {
            plain[i] = self.open_block(sealed, i);
        }
    }

    // Whether the tag agrees, and the fill: plain has the deciphered blocks. Both are reckoned, and one comparison decides.
    fn agrees(self, sealed: &[u8], plain: &[u64]) -> bool
        requires size { length sealed.now ≡ sealed_size self.n }
        requires room { blocks self.n ≤ length plain.now }
        requires opened { take (blocks self.n) plain.now ≡ upto (blocks self.n) (opened_block (turned qarma64 self.schedule.now) self.serial self.n sealed.now) }
        ensures { result ≡ accepted self.entry.schedule.now self.entry.serial self.entry.label.now self.entry.n sealed.now }
    {
        let b = (self.n + 7) / 8;
        let at = b * 8;
        let t = self.tag(sum_words(&plain[..b]));
        let tag_difference = t ^ words::read(&sealed[at..at + 8], 8);
        fill_difference(self.n, plain) | tag_difference == 0
    }
}

// The sum of some words.
fn sum_words(list: &[u64]) -> u64
    ensures { result ≡ sum (length list.now) (λ i. get_or list.now i 0) }
{
    let mut total = 0;
    for w in list {
        total ^= *w;
    }
    total
}

// Writes the first n bytes of some words into the first bytes of out.
fn put_message(n: usize, plain: &[u64], out: &mut [u8])
    requires { (blocks n ≤ length plain.now) × (n ≤ length out.old) }
    ensures { out.new ≡ take n (laid (blocks n) (λ i. get_or plain.now i 0)) ++ drop n out.old }
{
    let whole = n / 8;
    let at = whole * 8;
    words::put(&plain[..whole], out);
    if at == n {
        return;
    }
    let w = plain[whole] >> (64 - (n - at) * 8);
    words::write(&mut out[at..n], 8, w);
}

// The bits in which the fill of the last of the blocks of a message of n bytes is wrong: none where it is right, or where there is no fill.
fn fill_difference(n: usize, plain: &[u64]) -> u64
    requires { blocks n ≤ length plain.now }
    ensures { eqb result 0 ≡ fill_right n (get_or plain.now (n / 8) 0) }
{
    let r = n % 8;
    if r == 0 {
        return 0;
    }
    plain[n / 8] % (1u64 << (64 - r * 8)) ^ 1u64 << (63 - r * 8)
}

// Seals a message under a key, a serial and a label.
pub fn seal(
    key: Key<u64>,
    serial: u64,
    label: &[u8],
    message: &[u8],
    out: &mut [u8],
) -> Result<u32, Refusal>
    ensures { (result, out.new) ≡ sealing key.w0 key.k0 serial label.now message.now out.old }
{
    within_limits(serial, label, message.len())?;
    let size = sealed_size(message.len());
    if out.len() < size {
        return Err(Refusal::Room);
    }
    let schedule = cipher::key_schedule::<Qarma64>(key);
    let sealer = Sealer {
        schedule: &schedule,
        serial,
        label,
        n: message.len(),
    };
    sealer.put_sealed(message, out);
    Ok(size as u32)
}

// Opens the sealed bytes of a message of n bytes under a key, a serial and a label.
pub fn open(
    key: Key<u64>,
    serial: u64,
    n: usize,
    label: &[u8],
    sealed: &[u8],
    out: &mut [u8],
) -> Result<u32, Refusal>
    ensures { (result, out.new) ≡ opening key.w0 key.k0 serial n label.now sealed.now out.old }
{
    within_limits(serial, label, n)?;
    if sealed.len() != sealed_size(n) {
        return Err(Refusal::SealedSize);
    }
    if out.len() < n {
        return Err(Refusal::Room);
    }
    let schedule = cipher::key_schedule::<Qarma64>(key);
    let turned = cipher::turn::<Qarma64>(schedule);
    let opener = Sealer {
        schedule: &turned,
        serial,
        label,
        n,
    };
    // Fixed memory for the most blocks that a message has; as many as this one has are used.
    let mut plain = [0u64; 128];
    opener.open_blocks(sealed, &mut plain);
    let sealer = Sealer {
        schedule: &schedule,
        serial,
        label,
        n,
    };
    if !sealer.agrees(sealed, &plain) {
        return Err(Refusal::Disagrees);
    }
    put_message(n, &plain, out);
    Ok(n as u32)
}
