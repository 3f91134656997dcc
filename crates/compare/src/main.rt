// The comparison of two files: prints what changed between them.
#![tactic(auto)]

ghost use Rattle.std.specs.Prelude.{◌≤◌, length, IfOk, IfSome};

use refusals::Refusal;
use std::io::Read;
use std::rt::Files;
use std::{env, fs, io};

// The system takes no longer name, with the byte behind it.
const NAME_MAX: usize = 4096;

// Says what there is to say of a file or of the program, on standard error. The exit status does not say it.
fn say(rt: &impl Eprint, name: &str, what: &str) {
    let _ = eprintln!(rt; "{name}: {what}");
}

// Says why the system refused what was asked of it, in the system's words: Display has the error's number behind them.
fn fail(rt: &(impl Eprint + AllocGlobal), name: &str, error: io::Error) {
    let Ok(text) = error.to_string(rt.alloc()) else {
        let _ = eprintln!(rt; "{name}: {error}");
        return;
    };
    match text.split_once(" (os error ") {
        Some((words, _)) => say(rt, name, words),
        None => say(rt, name, text.as_str()),
    }
}

// Says why a file is refused, or that there is no room for the report, which does not come to pass: `report_small` says that there is.
fn refuse(rt: &impl Eprint, name: &str, line: u16, r: Refusal) {
    let _ = match r {
        Refusal::TooLarge => eprintln!(rt; "{name}: more than 1,024 lines or 65,536 bytes"),
        Refusal::Line { place } => {
            eprintln!(rt;
                "{name}: line {line} is not a frame line: the byte at place {place} (from 0) is wrong or missing"
            )
        }
        Refusal::RepeatedSerial => {
            eprintln!(rt; "{name}: line {line} has a serial that an earlier line has")
        }
        _ => eprintln!(rt; "compare: no room for the report"),
    };
}

// Reads a file to its end, or as much of it as there is room for, and answers the bytes that it read.
fn read_all<'a>(file: &mut impl Read, buf: &'a mut [u8]) -> io::Result<&'a [u8]>
    ensures { IfOk result (λ s. length s.now ≤ length buf.old) }
{
    // No `read_to_end`: the room ends it, and a read brings as many bytes as it will, so that no range counts the steps.
    let mut done = 0;
    while done < buf.len() {
        let n = file.read(&mut buf[done..])?;
        if n == 0 {
            break;
        }
        done += n;
    }
    Ok(&buf[..done])
}

// Reads the file with this name.
fn read_file<'a, R: Files>(rt: &R, name: &str, buf: &'a mut [u8]) -> io::Result<&'a [u8]>
    ensures { IfOk result (λ s. length s.now ≤ length buf.old) }
{
    let mut file = fs::open(rt, name)?;
    read_all(&mut file, buf)
}

// Reads the file that an argument names, or says why it cannot be read.
fn read_argument<'a, R: Files + Eprint + AllocGlobal>(
    rt: &R,
    name: &str,
    buf: &'a mut [u8],
) -> Option<&'a [u8]>
    ensures { IfSome result (λ s. length s.now ≤ length buf.old) }
{
    if name.len() > NAME_MAX {
        say(rt, "compare", "File name too long");
        return None;
    }
    match read_file(rt, name, buf) {
        Ok(bytes) => Some(bytes),
        Err(error) => {
            fail(rt, name, error);
            None
        }
    }
}

// Prints the report of two files, or says which is refused and why.
fn report(
    rt: &(impl Print + Eprint),
    first_name: &str,
    first: &[u8],
    second_name: &str,
    second: &[u8],
) {
    let mut out = [0u8; 65536];
    let c = changes::compare(first, second, &mut out);
    match c.answer {
        Ok(count) => {
            if rt.write_all(&out[..count as usize]).is_err() {
                say(rt, "compare", "writing failed");
            }
        }
        Err(r) => {
            let name = if c.file == 1 { first_name } else { second_name };
            refuse(rt, name, c.line, r);
        }
    }
}

// Compares the files with these names.
fn compare<R: Files + Print + Eprint + AllocGlobal>(rt: &R, first_name: &str, second_name: &str) {
    // One byte more than a file may have, so that a longer one is refused.
    let mut first_room = [0u8; 65537];
    let mut second_room = [0u8; 65537];
    let Some(first) = read_argument(rt, first_name, &mut first_room) else {
        return;
    };
    let Some(second) = read_argument(rt, second_name, &mut second_room) else {
        return;
    };
    report(rt, first_name, first, second_name, second);
}

fn main(rt: HostRuntime) {
    let mut words = match env::args(&rt) {
        Ok(words) => words,
        Err(error) => {
            fail(&rt, "compare", error);
            return;
        }
    };
    let _program = words.next();
    match (words.next(), words.next(), words.next()) {
        (Some(first), Some(second), None) => compare(&rt, first.as_str(), second.as_str()),
        _ => {
            let _ = eprintln!(rt; "usage: compare FIRST SECOND");
        }
    }
}
