// The file checker: prints the listing of standard input.
#![tactic(auto)]

ghost use Rattle.std.specs.Prelude.{◌+◌, ◌^◌, ◌<◌, ◌≤◌, ◌≡◌, length, IfOk};
ghost use Rattle.listing.specs.Chunks.{Kept, Remembers};
ghost use Rattle.checker.specs.Facts.{remembers_prop};

use listing::Lister;
use std::fmt;
use std::io::Read;

// No text that the listing hands out at once is longer.
const TEXT_MAX: usize = 128;

// How many serials the listing remembers.
const SERIALS_MAX: usize = 4096;

// What failed, so that nothing more was done.
#[derive(Clone, Copy, Debug, PartialEq, Eq)]
enum Failed {
    Reading,
    Writing,
    Counting,
}

impl fmt::Display for Failed {
    fn fmt<W: fmt::Write>(&self, f: &mut fmt::Formatter<W>) -> fmt::Result {
        f.write_str(match self {
            Failed::Reading => "reading",
            Failed::Writing => "writing",
            Failed::Counting => "counting",
        })
    }
}

// What the listing keeps, and the output, whose first bytes wait to be written.
#[derive(Drop)]
struct Checker {
    lister: Lister,
    line: [u8; 2150],
    serials: [u64; SERIALS_MAX],
    out: [u8; 65536],
    waiting: usize,
    ghost kept: { Kept lister },
    ghost remembers: { Remembers lister.opened serials } by { remembers_prop lister.opened serials },
    ghost within: { waiting ≤ 65536 },
}

impl Checker {
    // Nothing has been read.
    fn new() -> Checker
        ensures { result.lister.lines ≡ 0 }
    {
        Checker {
            lister: Lister::new(),
            line: [0; 2150],
            serials: [0; SERIALS_MAX],
            out: [0; 65536],
            waiting: 0,
        }
    }

    // Writes out what waits.
    fn flush(&mut self, rt: &impl Print) -> Result<(), Failed>
        ensures { (self.new.lister ≡ self.old.lister) × (self.new.waiting ≤ self.old.waiting) × IfOk result (λ _. self.new.waiting ≡ 0) }
    {
        rt.write_all(&self.out[..self.waiting])
            .map_err(|_| Failed::Writing)?;
        self.waiting = 0;
        Ok(())
    }

    // Makes room for one more text: what waits is written out first where there is none.
    fn make_room(&mut self, rt: &impl Print) -> Result<(), Failed>
        ensures { (self.new.lister ≡ self.old.lister) × IfOk result (λ _. self.new.waiting + 128 ≤ 65536) }
    {
        if self.out.len() - self.waiting < TEXT_MAX {
            self.flush(rt)?;
        }
        Ok(())
    }

    // Feeds the listing with the bytes of a chunk up to its first 0A, and answers how many these are. What there is to print goes behind what waits.
    fn feed_line(&mut self, rt: &impl Print, chunk: &[u8]) -> Result<usize, Failed>
        requires { (self.old.lister.lines + 1 < 2 ^ 63) × (0 < length chunk.now) }
        ensures { (self.new.lister.lines ≤ self.old.lister.lines + 1) × IfOk result (λ n. (0 < n) × (n ≤ length chunk.now)) }
    {
        self.make_room(rt)?;
        let fed = self.lister.feed(
            &mut self.line,
            &mut self.serials,
            chunk,
            &mut self.out[self.waiting..],
        );
        self.waiting += fed.said;
        Ok(fed.taken)
    }

    // Feeds the listing with a whole chunk.
    fn feed_all(&mut self, rt: &impl Print, chunk: &[u8]) -> Result<(), Failed>
        requires { (self.old.lister.lines + 65536 < 2 ^ 63) × (length chunk.now ≤ 65536) }
        ensures { self.new.lister.lines ≤ self.old.lister.lines + 65536 }
    {
        let mut rest = chunk;
        while !rest.is_empty() {
            let taken = self.feed_line(rt, rest)?;
            rest = &rest[taken..];
        }
        Ok(())
    }

    // Reads the input to its end. A proved loop has to end, so the reads are counted, up to 2^46: no run uses them up, and as many chunks have fewer than 2^63 lines.
    fn read_all(
        &mut self,
        rt: &impl Print,
        input: &mut impl Read,
        buf: &mut [u8],
    ) -> Result<(), Failed>
        requires { (self.old.lister.lines ≡ 0) × (length buf.old ≤ 65536) }
        ensures { self.new.lister.lines + 1 < 2 ^ 63 }
    {
        for _ in 0..0x400000000000u64 {
            let n = input.read(buf).map_err(|_| Failed::Reading)?;
            if n == 0 {
                return Ok(());
            }
            self.feed_all(rt, &buf[..n])?;
        }
        Err(Failed::Counting)
    }

    // Writes out what waits, the end of the last line and what closes the listing.
    fn close(&mut self, rt: &impl Print) -> Result<(), Failed>
        requires { self.old.lister.lines + 1 < 2 ^ 63 }
    {
        self.flush(rt)?;
        self.waiting = self
            .lister
            .finish(&self.line, &mut self.serials, &mut self.out);
        self.flush(rt)?;
        self.waiting = self.lister.close(&mut self.out);
        self.flush(rt)
    }
}

// Prints the listing of an input.
fn list(rt: &impl Print, input: &mut impl Read) -> Result<(), Failed> {
    let mut checker = Checker::new();
    let mut buf = [0u8; 65536];
    checker.read_all(rt, input, &mut buf)?;
    checker.close(rt)
}

// What failed is said on standard error, and the exit status does not say it.
fn main(rt: HostRuntime) {
    let mut input = rt.stdin();
    if let Err(what) = list(&rt, &mut input) {
        let _ = eprintln!(rt; "checker: {what} failed");
    }
}
