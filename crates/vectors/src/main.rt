// Runs the vectors of appendix A.1 of document 000, enciphered and deciphered, and the examples of document 01 about rounds, sealing and opening.
// Those of appendix A.2, of QARMA-128, cannot be run: our copy of the document has lost their key and tweak. QARMA-128 is run on values of our own,
// and gives what the second program gives for them.
#![tactic(auto)]

use cells128::Pair;
use cipher::{Key, Width};
use cipher64::Qarma64;
use cipher128::Qarma128;
use refusals::Refusal;
use std::io;

const P: u64 = 0xfb623599da6e8127;

const T: u64 = 0x477d469dec0b8762;

const W0: u64 = 0x84be85ce9804e94b;

const K0: u64 = 0xec2802d4e0a488e9;

// The key of appendix A.1.
const KEY: Key<u64> = Key { w0: W0, k0: K0 };

// The place of no sealed byte.
const UNCHANGED: usize = 1039;

// What a width is run on, and how its blocks are written.
trait Shown: Width {
    fn name() -> &'static str;

    fn key() -> Key<Self::Word>;

    fn tweak() -> Self::Word;

    fn plain() -> Self::Word;

    fn print(rt: &impl Print, w: Self::Word) -> io::Result<()>;
}

// The values of appendix A.1.
impl Shown for Qarma64 {
    fn name() -> &'static str {
        ""
    }

    fn key() -> Key<u64> {
        KEY
    }

    fn tweak() -> u64 {
        T
    }

    fn plain() -> u64 {
        P
    }

    fn print(rt: &impl Print, w: u64) -> io::Result<()> {
        print!(rt; "{w:016x}")
    }
}

// No vector of the paper: each value is made of two of appendix A.1.
impl Shown for Qarma128 {
    fn name() -> &'static str {
        "QARMA-128 "
    }

    fn key() -> Key<Pair> {
        Key {
            w0: pair(W0, K0),
            k0: pair(K0, W0),
        }
    }

    fn tweak() -> Pair {
        pair(T, P)
    }

    fn plain() -> Pair {
        pair(P, T)
    }

    fn print(rt: &impl Print, w: Pair) -> io::Result<()> {
        print!(rt; "{:016x}{:016x}", w.high, w.low)
    }
}

// A value of 128 bits.
fn pair(high: u64, low: u64) -> Pair {
    Pair { high, low }
}

// A block, or the number of its refusal.
fn print_block<W: Shown>(rt: &impl Print, b: &Result<W::Word, Refusal>) -> io::Result<()> {
    match b {
        Ok(w) => W::print(rt, *w),
        Err(r) => print!(rt; "refused {}", r.number()),
    }
}

// The block that was enciphered, deciphered.
fn back<W: Shown>(
    number: u64,
    rounds: u64,
    b: Result<W::Word, Refusal>,
) -> Result<W::Word, Refusal> {
    cipher::decipher::<W>(number, rounds, W::key(), W::tweak(), b?)
}

// One line: the settings, C, and P deciphered from it.
fn print_vector<W: Shown>(rt: &impl Print, number: u64, rounds: u64) -> io::Result<()> {
    print!(rt; "{}box {number} r {rounds} C = ", W::name())?;
    let c = cipher::encipher::<W>(number, rounds, W::key(), W::tweak(), W::plain());
    print_block::<W>(rt, &c)?;
    print!(rt; " P = ")?;
    print_block::<W>(rt, &back::<W>(number, rounds, c))?;
    println!(rt)
}

// Where the vectors of appendix A.2 go, for each box and r = 9, 10 and 11, once there is a copy that has their key and tweak.
fn skip_vectors128(rt: &impl Print) -> io::Result<()> {
    println!(rt; "QARMA-128 appendix A.2: skipped, our copy has lost its key and tweak")
}

// What a call answers: what it did and the bytes it wrote, or the number of its refusal.
fn print_answer(rt: &impl Print, did: &str, a: Result<u32, Refusal>) -> io::Result<()> {
    match a {
        Ok(count) => print!(rt; "{did} {count}"),
        Err(r) => print!(rt; "refused {}", r.number()),
    }
}

// What sealing answers for a serial, a label, a message and an output of so many bytes.
fn print_sealing(
    rt: &impl Print,
    serial: u64,
    label: usize,
    message: usize,
    room: usize,
) -> io::Result<()> {
    let a = [0xA5u8; 33];
    let m = [0x5Au8; 1025];
    let mut out = [0u8; 1040];
    if 33 < label {
        return Ok(());
    }
    if 1025 < message {
        return Ok(());
    }
    if 1040 < room {
        return Ok(());
    }
    print_answer(
        rt,
        "sealed",
        frame::seal(KEY, serial, &a[..label], &m[..message], &mut out[..room]),
    )?;
    println!(rt)
}

// Fills a message with bytes that differ.
fn count_up(m: &mut [u8]) {
    for i in 0..m.len() {
        m[i] = (i % 251) as u8 ^ 0x5A;
    }
}

// How many bytes were written.
fn written(a: Result<u32, Refusal>) -> usize {
    match a {
        Ok(count) => count as usize,
        Err(_) => 0,
    }
}

// Whether the first n bytes of out are the message's, and every byte past them is as it was lent.
fn memory_right(n: usize, m: &[u8], lent: &[u8], out: &[u8]) -> bool {
    if m.len() < n {
        return false;
    }
    if lent.len() < n {
        return false;
    }
    if out.len() < n {
        return false;
    }
    &out[..n] == &m[..n] && &out[n..] == &lent[n..]
}

// What opening answers at a stated length, and whether it leaves in out what it must: lent has what out was lent with.
fn print_opened(
    rt: &impl Print,
    serial: u64,
    stated: usize,
    label: &[u8],
    sealed: &[u8],
    m: &[u8],
    lent: &[u8],
    out: &mut [u8],
) -> io::Result<()> {
    let answer = frame::open(KEY, serial, stated, label, sealed, out);
    print_answer(rt, "opened", answer)?;
    if memory_right(written(answer), m, lent, out) {
        println!(rt; ", memory right")
    } else {
        println!(rt; ", memory wrong")
    }
}

// The same for the sealed bytes of a message of so many bytes with serial 1 and a label of 5 bytes: one of them is changed, and so many are handed on.
fn print_opening(
    rt: &impl Print,
    message: usize,
    changed: usize,
    serial: u64,
    stated: usize,
    label: usize,
    size: usize,
    room: usize,
) -> io::Result<()> {
    let a = [0xA5u8; 33];
    let mut m = [0u8; 1040];
    let mut sealed = [0u8; 1040];
    let lent = [0xC3u8; 1040];
    let mut out = [0xC3u8; 1040];
    if 33 < label {
        return Ok(());
    }
    if 1024 < message {
        return Ok(());
    }
    if 1040 <= changed {
        return Ok(());
    }
    if 1040 < size {
        return Ok(());
    }
    if 1040 < room {
        return Ok(());
    }
    count_up(&mut m);
    let _ = frame::seal(KEY, 1, &a[..5], &m[..message], &mut sealed);
    sealed[changed] ^= 1;
    print_opened(
        rt,
        serial,
        stated,
        &a[..label],
        &sealed[..size],
        &m,
        &lent[..room],
        &mut out[..room],
    )
}

// What was sealed opens, at the lengths that end a block and at others.
fn print_opens(rt: &impl Print) -> io::Result<()> {
    print_opening(rt, 0, UNCHANGED, 1, 0, 5, 8, 0)?;
    print_opening(rt, 1, UNCHANGED, 1, 1, 5, 16, 1)?;
    print_opening(rt, 20, UNCHANGED, 1, 20, 5, 32, 1040)?;
    print_opening(rt, 24, UNCHANGED, 1, 24, 5, 32, 24)?;
    print_opening(rt, 1024, UNCHANGED, 1, 1024, 5, 1032, 1024)
}

// What is refused, and in which order.
fn print_refusals(rt: &impl Print) -> io::Result<()> {
    print_opening(rt, 20, UNCHANGED, 1, 1025, 5, 32, 1040)?;
    print_opening(rt, 20, UNCHANGED, 0x100000000000, 1025, 5, 32, 1040)?;
    print_opening(rt, 20, UNCHANGED, 1, 20, 33, 32, 20)?;
    print_opening(rt, 20, UNCHANGED, 0x100000000000, 20, 5, 32, 20)?;
    print_opening(rt, 20, UNCHANGED, 0x100000000000, 20, 5, 31, 20)?;
    print_opening(rt, 20, UNCHANGED, 1, 20, 5, 31, 20)?;
    print_opening(rt, 20, UNCHANGED, 1, 20, 5, 33, 20)?;
    print_opening(rt, 20, UNCHANGED, 1, 20, 5, 31, 19)?;
    print_opening(rt, 20, UNCHANGED, 1, 20, 5, 32, 19)?;
    print_opening(rt, 20, 0, 1, 20, 5, 32, 19)
}

// What the tag or the fill disagrees with: a changed byte, another length, another serial, another label. At lengths 19 and 21 the tag agrees, and the fill alone does not.
fn print_disagreements(rt: &impl Print) -> io::Result<()> {
    print_opening(rt, 20, 0, 1, 20, 5, 32, 20)?;
    print_opening(rt, 20, 23, 1, 20, 5, 32, 20)?;
    print_opening(rt, 20, 31, 1, 20, 5, 32, 20)?;
    print_opening(rt, 20, UNCHANGED, 1, 19, 5, 32, 20)?;
    print_opening(rt, 20, UNCHANGED, 1, 21, 5, 32, 21)?;
    print_opening(rt, 20, UNCHANGED, 1, 24, 5, 32, 24)?;
    print_opening(rt, 24, UNCHANGED, 1, 23, 5, 32, 24)?;
    print_opening(rt, 20, UNCHANGED, 2, 20, 5, 32, 20)?;
    print_opening(rt, 20, UNCHANGED, 1, 20, 4, 32, 20)
}

fn main(rt: HostRuntime) -> io::Result<()> {
    for rounds in 5..8 {
        for number in 0..3 {
            print_vector::<Qarma64>(&rt, number, rounds)?;
        }
    }
    for rounds in 2..10 {
        print_vector::<Qarma64>(&rt, 1, rounds)?;
    }
    print_vector::<Qarma64>(&rt, 3, 7)?;
    skip_vectors128(&rt)?;
    for rounds in 2..13 {
        print_vector::<Qarma128>(&rt, 1, rounds)?;
    }
    print_vector::<Qarma128>(&rt, 0, 11)?;
    print_vector::<Qarma128>(&rt, 2, 11)?;
    print_vector::<Qarma128>(&rt, 3, 11)?;
    print_sealing(&rt, 1, 0, 0, 8)?;
    print_sealing(&rt, 1, 0, 0, 7)?;
    print_sealing(&rt, 1, 0, 1, 16)?;
    print_sealing(&rt, 1, 0, 1, 15)?;
    print_sealing(&rt, 1, 32, 1024, 1040)?;
    print_sealing(&rt, 1, 32, 1025, 1040)?;
    print_sealing(&rt, 0x100000000000, 32, 1025, 1040)?;
    print_sealing(&rt, 0x100000000000, 32, 1024, 1040)?;
    print_sealing(&rt, 1, 33, 1024, 1040)?;
    print_opens(&rt)?;
    print_refusals(&rt)?;
    print_disagreements(&rt)
}
