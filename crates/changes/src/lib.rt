// What changed between two files of frame lines, by serial.
#![tactic(auto)]

ghost use Rattle.std.specs.Prelude.{Err, ◌≡◌, true, [], ◌∷◌, ◌++◌, map, ◌+◌, ◌*◌, ◌^◌, ◌<◌, ◌≤◌, length, get_or, take, drop, nat_lt, IfSome, MatchOption};
ghost use Rattle.std.specs.List.{IsAllAdjacentAnswer};
ghost use Rattle.words.specs.Lists.{among};
ghost use Rattle.refusals.specs.Refusals.{giving};
ghost use Rattle.texts.specs.Lines.{lines_of};
ghost use Rattle.texts.specs.Texts.{decimal, Appended};
ghost use Rattle.changes.specs.Report.{differ_at, bits_of, both_text, serial_digits, saying, pair};
ghost use Rattle.changes.specs.Compare.{Good, Bad, line_as, checked, refused_as, unless, of_neither, reporting, comparing, returned_as};
ghost use Rattle.changes.specs.Workings.{serial_in, line_in, HandleIn, HandlesRead, FirstRepeat, Ordered, next_serial, Walkable, reported, LinesLoaded, FileLoaded, GoodHandles};
ghost use Rattle.refusals.specs.declared.Refusal.TheVariants.{RepeatedSerial};

use line::NotLine;
use refusals::Refusal;

// Limits of a file: lines, and bytes.
const LINES_MAX: usize = 1024;

const FILE_MAX: usize = 65536;

// What is wrong with a file by itself: a refusal and the line's number, from 1, or 0 with refusal 11, as `Compared` answers it.
#[derive(Clone, Copy, Debug, PartialEq, Eq)]
struct Fault {
    line: u16,
    refusal: Refusal,
}

// What comparing answers: with refusals 7, 8 and 11 the file, 1 or 2; with 7 and 8 the line's number, from 1; and 0 where there is none.
// No Result of an enum: `returned` promises (`returned_as`) a number for any file and line beside any answer, and a narrower type would ask more.
#[derive(Clone, Copy, Debug, PartialEq, Eq)]
pub struct Compared {
    pub answer: Result<u32, Refusal>,
    pub file: u8,
    pub line: u16,
}

impl Compared {
    // The answer where a file is refused.
    fn refused(file: u8, fault: Fault) -> Compared
        ensures { result ≡ refused_as file fault }
    {
        Compared {
            answer: Err(fault.refusal),
            file,
            line: fault.line,
        }
    }
}

// The handle of each line of a file, its serial times 65,536 and where it begins, over all of handles, or the first line that is not good.
// A handle is one number and no struct of two: `sorting::sort` sorts a `[u64]`, and by the number the serials rise.
fn read_handles(s: &[u8], handles: &mut [u64]) -> Result<(), Fault>
    requires { (length s.now ≤ 65536) × ((length handles.old ≡ length (lines_of s.now)) × (length handles.old ≤ 1024)) }
    ensures { HandlesRead s.now handles.new result }
{
    let mut at = 0;
    for n in 0..handles.len() {
        let end = texts::line_end(s, at);
        let fields = line::read(&s[at..end]).map_err(|e| refuse(n, e))?;
        handles[n] = fields.serial * 65536 + at as u64;
        at = end;
    }
    Ok(())
}

// Refusal 7 of the line behind the first n.
fn refuse(n: usize, e: NotLine) -> Fault
    requires { n ≤ 1024 }
    ensures { Err result ≡ line_as n (Err e) Good }
{
    Fault {
        line: (n + 1) as u16,
        refusal: Refusal::from(e),
    }
}

// Do the serials of handles rise? How many handles there are stays a clause, here and below: a slice has no field for a fact, and a struct around it
// would be taken apart at each call.
fn rises(a: &[u64]) -> bool
    requires { length a.now ≤ 1024 }
    ensures { IsAllAdjacentAnswer (λ x y b. b ≡ nat_lt (serial_in x) (serial_in y)) a.now result }
{
    a.is_sorted_by(|x, y| *x / 65536 < *y / 65536)
}

// Did the serial of handle j come before?
fn came_before(a: &[u64], j: usize) -> bool
    requires { (j < length a.now) × (length a.now ≤ 1024) }
    ensures { result ≡ among (serial_in (get_or a.now j 0)) (map serial_in (take j a.now)) }
{
    let s = a[j] / 65536;
    a[..j].iter().any(|x| s == *x / 65536)
}

// The number of the first handle, from 1, whose serial came before.
fn first_repeat(a: &[u64]) -> Option<usize>
    requires { length a.now ≤ 1024 }
    ensures { FirstRepeat a.now result }
{
    for j in 0..a.len() {
        if came_before(a, j) {
            return Some(j + 1);
        }
    }
    None
}

// Sorts handles, with as much memory beside them for their order in the file, and answers the number of the first, from 1, whose serial came before.
fn order_in(handles: &mut [u64], unsorted: &mut [u64]) -> Option<usize>
    requires { (length handles.old ≡ length unsorted.old) × (length handles.old ≤ 1024) }
    ensures { Ordered handles.old result handles.new }
{
    sorting::copy(handles, unsorted);
    sorting::sort(handles);
    if rises(handles) {
        return None;
    }
    first_repeat(unsorted)
}

// Sorts handles, and answers the number of the first, from 1, whose serial came before.
fn order(handles: &mut [u64]) -> Option<usize>
    requires { length handles.old ≤ 1024 }
    ensures { Ordered handles.old result handles.new }
{
    let n = handles.len();
    let mut unsorted = [0u64; 1024];
    order_in(handles, &mut unsorted[..n])
}

// The place of the first byte at which two lines of one length differ, or their length.
fn differ_at(a: &[u8], b: &[u8]) -> usize
    requires { length a.now ≡ length b.now }
    ensures { (result ≡ differ_at a.now b.now) × (result ≤ length a.now) }
{
    a.iter()
        .zip(b)
        .position(|(x, y)| *x != *y)
        .unwrap_or(a.len())
}

// How many bits differ between two lines of one length: the ones in the exclusive or of each pair of bytes.
fn bits_of(a: &[u8], b: &[u8]) -> u64
    requires { (length a.now ≡ length b.now) × (length a.now ≤ 65536) }
    ensures { result ≡ bits_of a.now b.now }
{
    let mut n: u64 = 0;
    for (x, y) in a.iter().zip(b) {
        n += u8::count_ones(*x ^ *y) as u64;
    }
    n
}

// Writes a word and a line's serial behind the first n bytes of out, and answers where they end. So do those below.
// The bytes and their count stay two parameters, in which `texts::append` takes them and `Appended` speaks of them.
fn put_start(word: &[u8], l: &[u8], out: &mut [u8], n: usize) -> usize
    requires { ((length word.now ≤ 7) × (14 ≤ length l.now)) × ((n + 20 ≤ length out.old) × (length out.old ≤ 65536)) }
    ensures { Appended out.old n (word.now ++ serial_digits l.now) out.new result × (result ≤ n + 19) }
{
    let a = texts::append(out, n, word);
    texts::append(out, a, &l[2..14])
}

// Writes a report line without numbers.
fn put_one(word: &[u8], l: &[u8], out: &mut [u8], n: usize) -> usize
    requires { ((length word.now ≤ 7) × (14 ≤ length l.now)) × ((n + 20 ≤ length out.old) × (length out.old ≤ 65536)) }
    ensures { Appended out.old n (saying word.now l.now []) out.new result × (result ≤ n + 20) }
{
    let a = put_start(word, l, out, n);
    texts::append(out, a, b"\n")
}

// Writes a place and a count, each behind a blank.
fn put_numbers(out: &mut [u8], n: usize, place: u64, bits: u64) -> usize
    requires { (n + 43 ≤ length out.old) × (length out.old ≤ 65536) }
    ensures { Appended out.old n (32 ∷ (decimal place ++ (32 ∷ decimal bits))) out.new result × (result ≤ n + 42) }
{
    let a = texts::append(out, n, b" ");
    let b = texts::append_decimal(out, a, place);
    let c = texts::append(out, b, b" ");
    texts::append_decimal(out, c, bits)
}

// Writes the report line of a pair of one length that differs.
fn put_both(l: &[u8], place: u64, bits: u64, out: &mut [u8], n: usize) -> usize
    requires { (14 ≤ length l.now) × ((n + 64 ≤ length out.old) × (length out.old ≤ 65536)) }
    ensures { Appended out.old n (saying both_text l.now (32 ∷ (decimal place ++ (32 ∷ decimal bits)))) out.new result × (result ≤ n + 64) }
{
    let a = put_start(b"both ", l, out, n);
    let b = put_numbers(out, a, place, bits);
    texts::append(out, b, b"\n")
}

// Writes what there is to say of a pair.
fn put_pair(x: &[u8], y: &[u8], out: &mut [u8], n: usize) -> usize
    requires { ((14 ≤ length x.now) × (length x.now ≤ 65536)) × ((n + 64 ≤ length out.old) × (length out.old ≤ 65536)) }
    ensures { Appended out.old n (pair x.now y.now) out.new result × (result ≤ n + 64) }
{
    if x.len() != y.len() {
        return put_one(b"both ", x, out, n);
    }
    let k = differ_at(x, y);
    if k == x.len() {
        return n;
    }
    put_both(x, k as u64, bits_of(x, y), out, n)
}

// The line of a handle.
fn line_in(s: &[u8], x: u64) -> &[u8]
    requires { HandleIn s.now x }
    ensures { result.now ≡ line_in s.now x }
{
    let at = (x % 65536) as usize;
    let end = texts::line_end(s, at);
    &s[at..end]
}

// Writes the report line of a handle's line, without numbers.
fn put_handle(word: &[u8], s: &[u8], x: u64, out: &mut [u8], n: usize) -> usize
    requires { ((length word.now ≤ 7) × HandleIn s.now x) × ((n + 32 ≤ length out.old) × (length out.old ≤ 65536)) }
    ensures { Appended out.old n (saying word.now (line_in s.now x) []) out.new result × (result ≤ n + 32) }
{
    put_one(word, line_in(s, x), out, n)
}

// Writes what there is to say of a handle of each file.
fn put_handles(first: &[u8], x: u64, second: &[u8], y: u64, out: &mut [u8], n: usize) -> usize
    requires { ((HandleIn first.now x × HandleIn second.now y) × (length first.now ≤ 65536)) × ((n + 64 ≤ length out.old) × (length out.old ≤ 65536)) }
    ensures { Appended out.old n (pair (line_in first.now x) (line_in second.now y)) out.new result × (result ≤ n + 64) }
{
    put_pair(line_in(first, x), line_in(second, y), out, n)
}

// The serial of handle i, and above every serial where there is none.
fn serial_at(a: &[u64], i: usize) -> u64
    requires { length a.now ≤ 1024 }
    ensures { result ≡ next_serial (drop i a.now) }
{
    match a.get(i) {
        Some(x) => *x / 65536,
        None => 0x100000000000,
    }
}

// Writes the report from the sorted handles of two files, and answers how many bytes it has.
fn walk(first: &[u8], a: &[u64], second: &[u8], b: &[u64], out: &mut [u8]) -> usize
    requires { (Walkable first.now a.now × Walkable second.now b.now) × (length out.old ≡ 65536) }
    ensures { Appended out.old 0 (reported first.now second.now a.now b.now) out.new result × (result ≤ 65536) }
{
    // Two indices by hand: which of them goes on is seen only at each step, where a `for` or a `zip` moves both or one.
    let mut i = 0;
    let mut j = 0;
    let mut n = 0;
    while i + j < a.len() + b.len() {
        let p = serial_at(a, i);
        let q = serial_at(b, j);
        if p < q {
            n = put_handle(b"first ", first, a[i], out, n);
            i += 1;
            continue;
        }
        if q < p {
            n = put_handle(b"second ", second, b[j], out, n);
            j += 1;
            continue;
        }
        n = put_handles(first, a[i], second, b[j], out, n);
        i += 1;
        j += 1;
    }
    n
}

// Refusal 8 of a line's number, if there is one.
fn repeat_as(n: Option<usize>) -> Result<(), Fault>
    requires { IfSome n (λ k. k ≤ 1024) }
    ensures { MatchOption n (result ≡ Good) (λ k. result ≡ Bad k RepeatedSerial) }
{
    match n {
        None => Ok(()),
        Some(n) => Err(Fault {
            line: n as u16,
            refusal: Refusal::RepeatedSerial,
        }),
    }
}

// Checks the lines of a file, and fills handles with their handles, sorted.
fn load_lines(s: &[u8], handles: &mut [u64]) -> Result<(), Fault>
    requires { (length s.now ≤ 65536) × ((length handles.old ≡ length (lines_of s.now)) × (length handles.old ≤ 1024)) }
    ensures { LinesLoaded s.now handles.new result }
{
    read_handles(s, handles)?;
    repeat_as(order(handles))
}

// Checks a file, fills the first places of handles with the handles of its lines, sorted, and answers how many they are.
fn load(s: &[u8], handles: &mut [u64]) -> Result<usize, Fault>
    requires { length handles.old ≡ 1024 }
    ensures { FileLoaded s.now handles.new result }
{
    let too_large = Fault {
        line: 0,
        refusal: Refusal::TooLarge,
    };
    if s.len() > FILE_MAX {
        return Err(too_large);
    }
    let n = texts::count_lines(s);
    if n > LINES_MAX {
        return Err(too_large);
    }
    load_lines(s, &mut handles[..n])?;
    Ok(n)
}

// Writes a report if there is room for it.
fn give(text: &[u8], out: &mut [u8]) -> Result<u32, Refusal>
    requires { length text.now ≤ 65536 }
    ensures { (result, out.new) ≡ giving text.now out.old }
{
    if out.len() < text.len() {
        return Err(Refusal::Room);
    }
    let n = texts::append(out, 0, text);
    Ok(n as u32)
}

// Compares two good files, with room for the longest report.
fn compare_in(
    first: &[u8],
    a: &[u64],
    second: &[u8],
    b: &[u64],
    text: &mut [u8],
    out: &mut [u8],
) -> Compared
    requires { (GoodHandles first.now a.now × GoodHandles second.now b.now) × (length text.old ≡ 65536) }
    ensures { (result, out.new) ≡ reporting first.now second.now out.old }
{
    let n = walk(first, a, second, b, text);
    Compared {
        answer: give(&text[..n], out),
        file: 0,
        line: 0,
    }
}

// Compares two good files.
fn compare_good(first: &[u8], a: &[u64], second: &[u8], b: &[u64], out: &mut [u8]) -> Compared
    requires { GoodHandles first.now a.now × GoodHandles second.now b.now }
    ensures { (result, out.new) ≡ reporting first.now second.now out.old }
{
    let mut text = [0u8; 65536];
    compare_in(first, a, second, b, &mut text, out)
}

// Compares a good file with another.
fn compare_second(first: &[u8], a: &[u64], second: &[u8], out: &mut [u8]) -> Compared
    requires { GoodHandles first.now a.now }
    ensures { (result, out.new) ≡ unless 2 (checked second.now) out.old (reporting first.now second.now out.old) }
{
    let mut b = [0u64; 1024];
    match load(second, &mut b) {
        Ok(count) => compare_good(first, a, second, &b[..count], out),
        Err(fault) => Compared::refused(2, fault),
    }
}

// What changed between two files of lines, by rising serial.
pub fn compare(first: &[u8], second: &[u8], out: &mut [u8]) -> Compared
    ensures { (result, out.new) ≡ comparing first.now second.now out.old }
{
    let mut a = [0u64; 1024];
    match load(first, &mut a) {
        Ok(count) => compare_second(first, &a[..count], second, out),
        Err(fault) => Compared::refused(1, fault),
    }
}

// What comparing answered, as the number that a C call returns.
pub fn returned(c: Compared) -> u64
    ensures { result ≡ returned_as c }
{
    let a = c.answer;
    let whose = c.file as u64 * 0x1000000000000 + c.line as u64 * 0x100000000;
    match a {
        Ok(count) => count as u64 + whose,
        Err(r) => { r.number() as u64 * 0x100000000000000 + r.place() as u64 + whose }
    }
}
