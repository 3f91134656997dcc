// The calls of the C interface: numbers and byte slices in, one number out.
#![tactic(auto)]

ghost use Rattle.std.specs.Prelude.{◌≡◌, ◌≤◌, ℕ, List, length};
ghost use Rattle.cipher64.specs.Words.{key_words, turned_words, engine_call, encipher_call, decipher_call};
ghost use Rattle.cipher128.specs.Words.{key_words as key_words_128, turned_words as turned_words_128, engine_call as engine_call_128, encipher_call as encipher_call_128, decipher_call as decipher_call_128};
ghost use Rattle.frame.specs.Frames.{sealing, opening};
ghost use Rattle.line.specs.Calls.{writing, opening_line};
ghost use Rattle.kkurimyeot.specs.Calls.{one, two, words_given, answer_given, block_given, four_words, pair, four, block_given128, four_words128, returning, reading_given, GivesReading};

use cells128::Pair;
use cipher::{Key, Words};
use cipher64::Qarma64;
use cipher128::Qarma128;
use line::{Fields, NotLine};
use refusals::Refusal;

// Words to the first bytes of out, or refusal 5.
fn give(list: &[u64], out: &mut [u8]) -> Result<u32, Refusal>
    requires { length list.now ≤ 8 }
    ensures { (result, out.new) ≡ words_given list.now out.old }
{
    let size = list.len() * 8;
    if out.len() < size {
        return Err(Refusal::Room);
    }
    words::put(list, out);
    Ok(size as u32)
}

// What goes through C as words of 64 bits.
trait Given {
    ghost numbers: { Self → List ℕ };

    // Its words to the first bytes of out, or refusal 5.
    fn give(self, out: &mut [u8]) -> Result<u32, Refusal>
        ensures { (result, out.new) ≡ words_given (numbers self) out.old };
}

impl Given for u64 {
    ghost numbers = { one };

    fn give(self, out: &mut [u8]) -> Result<u32, Refusal> {
        give(&[self], out)
    }
}

// The high number first.
impl Given for Pair {
    ghost numbers = { two };

    fn give(self, out: &mut [u8]) -> Result<u32, Refusal> {
        give(&[self.high, self.low], out)
    }
}

impl Given for Words<u64> {
    ghost numbers = { four_words };

    fn give(self, out: &mut [u8]) -> Result<u32, Refusal> {
        give(&[self.w0, self.w1, self.k0, self.k1], out)
    }
}

impl Given for Words<Pair> {
    ghost numbers = { four_words128 };

    fn give(self, out: &mut [u8]) -> Result<u32, Refusal> {
        let eight = [
            self.w0.high,
            self.w0.low,
            self.w1.high,
            self.w1.low,
            self.k0.high,
            self.k0.low,
            self.k1.high,
            self.k1.low,
        ];
        give(&eight, out)
    }
}

// The four words of a schedule, through C.
fn give_words<T: Given>(words: T, out: &mut [u8]) -> u64
    ensures { (result, out.new) ≡ returning (words_given (T.numbers words) out.old) }
{
    refusals::returned(words.give(out))
}

// What a block call answers, through C.
fn give_block<T: Given>(answer: Result<T, Refusal>, out: &mut [u8]) -> u64
    ensures { (result, out.new) ≡ returning (answer_given T.numbers answer out.old) }
{
    match answer {
        Ok(w) => refusals::returned(w.give(out)),
        Err(r) => refusals::returned(Err(r)),
    }
}

// The schedule of a key: w0, w1, k0, k1.
#[unsafe(no_mangle)]
pub extern "C" fn kk_schedule(w0: u64, k0: u64, out: &mut [u8]) -> u64
    ensures { (result, out.new) ≡ returning (words_given (four_words (key_words w0 k0)) out.old) }
{
    give_words(cipher::key_words::<Qarma64>(Key { w0, k0 }), out)
}

// A schedule turned: w0, w1, k0, k1.
#[unsafe(no_mangle)]
pub extern "C" fn kk_turn(w0: u64, w1: u64, k0: u64, k1: u64, out: &mut [u8]) -> u64
    ensures { (result, out.new) ≡ returning (words_given (four_words (turned_words record { w0 = w0; w1 = w1; k0 = k0; k1 = k1 })) out.old) }
{
    give_words(cipher::turn_words::<Qarma64>(Words { w0, w1, k0, k1 }), out)
}

// The engine on a block under a tweak and four free words.
#[unsafe(no_mangle)]
pub extern "C" fn kk_engine(
    number: u64,
    rounds: u64,
    w0: u64,
    w1: u64,
    k0: u64,
    k1: u64,
    tweak: u64,
    block: u64,
    out: &mut [u8],
) -> u64
    ensures { (result, out.new) ≡ returning (block_given (engine_call number rounds record { w0 = w0; w1 = w1; k0 = k0; k1 = k1 } tweak block) out.old) }
{
    give_block(
        cipher::engine::<Qarma64>(number, rounds, Words { w0, w1, k0, k1 }, tweak, block),
        out,
    )
}

// A block enciphered under a tweak and a key.
#[unsafe(no_mangle)]
pub extern "C" fn kk_encipher(
    number: u64,
    rounds: u64,
    w0: u64,
    k0: u64,
    tweak: u64,
    block: u64,
    out: &mut [u8],
) -> u64
    ensures { (result, out.new) ≡ returning (block_given (encipher_call number rounds w0 k0 tweak block) out.old) }
{
    give_block(
        cipher::encipher::<Qarma64>(number, rounds, Key { w0, k0 }, tweak, block),
        out,
    )
}

// A block deciphered: the engine under the turned schedule of the key, and nothing else.
#[unsafe(no_mangle)]
pub extern "C" fn kk_decipher(
    number: u64,
    rounds: u64,
    w0: u64,
    k0: u64,
    tweak: u64,
    block: u64,
    out: &mut [u8],
) -> u64
    ensures { (result, out.new) ≡ returning (block_given (decipher_call number rounds w0 k0 tweak block) out.old) }
{
    give_block(
        cipher::decipher::<Qarma64>(number, rounds, Key { w0, k0 }, tweak, block),
        out,
    )
}

// A value of 128 bits, from its two numbers. Below, h at the end of a name is for the high one, l for the low one.
fn pair(high: u64, low: u64) -> Pair
    ensures { result ≡ pair high low }
{
    Pair { high, low }
}

// A key of the 128-bit cipher, from its numbers.
fn key(w0h: u64, w0l: u64, k0h: u64, k0l: u64) -> Key<Pair>
    ensures { result ≡ record { w0 = pair w0h w0l; k0 = pair k0h k0l } }
{
    Key {
        w0: pair(w0h, w0l),
        k0: pair(k0h, k0l),
    }
}

// Four words of 128 bits, from their numbers.
fn four(
    w0h: u64,
    w0l: u64,
    w1h: u64,
    w1l: u64,
    k0h: u64,
    k0l: u64,
    k1h: u64,
    k1l: u64,
) -> Words<Pair>
    ensures { result ≡ four w0h w0l w1h w1l k0h k0l k1h k1l }
{
    Words {
        w0: pair(w0h, w0l),
        w1: pair(w1h, w1l),
        k0: pair(k0h, k0l),
        k1: pair(k1h, k1l),
    }
}

// The schedule of a key of the 128-bit cipher: w0, w1, k0, k1. Each call stands once for each width: the C interface.
#[unsafe(no_mangle)]
pub extern "C" fn kk128_schedule(w0h: u64, w0l: u64, k0h: u64, k0l: u64, out: &mut [u8]) -> u64
    ensures { (result, out.new) ≡ returning (words_given (four_words128 (key_words_128 (pair w0h w0l) (pair k0h k0l))) out.old) }
{
    give_words(cipher::key_words::<Qarma128>(key(w0h, w0l, k0h, k0l)), out)
}

// A schedule of the 128-bit cipher turned: w0, w1, k0, k1.
#[unsafe(no_mangle)]
pub extern "C" fn kk128_turn(
    w0h: u64,
    w0l: u64,
    w1h: u64,
    w1l: u64,
    k0h: u64,
    k0l: u64,
    k1h: u64,
    k1l: u64,
    out: &mut [u8],
) -> u64
    ensures { (result, out.new) ≡ returning (words_given (four_words128 (turned_words_128 (four w0h w0l w1h w1l k0h k0l k1h k1l))) out.old) }
{
    let words = four(w0h, w0l, w1h, w1l, k0h, k0l, k1h, k1l);
    give_words(cipher::turn_words::<Qarma128>(words), out)
}

// The 128-bit engine on a block under a tweak and four free words.
#[unsafe(no_mangle)]
pub extern "C" fn kk128_engine(
    number: u64,
    rounds: u64,
    w0h: u64,
    w0l: u64,
    w1h: u64,
    w1l: u64,
    k0h: u64,
    k0l: u64,
    k1h: u64,
    k1l: u64,
    tweakh: u64,
    tweakl: u64,
    blockh: u64,
    blockl: u64,
    out: &mut [u8],
) -> u64
    ensures { (result, out.new) ≡ returning (block_given128 (engine_call_128 number rounds (four w0h w0l w1h w1l k0h k0l k1h k1l) (pair tweakh tweakl) (pair blockh blockl)) out.old) }
{
    let words = four(w0h, w0l, w1h, w1l, k0h, k0l, k1h, k1l);
    let tweak = pair(tweakh, tweakl);
    let block = pair(blockh, blockl);
    give_block(
        cipher::engine::<Qarma128>(number, rounds, words, tweak, block),
        out,
    )
}

// A block of 128 bits enciphered under a tweak and a key.
#[unsafe(no_mangle)]
pub extern "C" fn kk128_encipher(
    number: u64,
    rounds: u64,
    w0h: u64,
    w0l: u64,
    k0h: u64,
    k0l: u64,
    tweakh: u64,
    tweakl: u64,
    blockh: u64,
    blockl: u64,
    out: &mut [u8],
) -> u64
    ensures { (result, out.new) ≡ returning (block_given128 (encipher_call_128 number rounds (pair w0h w0l) (pair k0h k0l) (pair tweakh tweakl) (pair blockh blockl)) out.old) }
{
    let key = key(w0h, w0l, k0h, k0l);
    let tweak = pair(tweakh, tweakl);
    let block = pair(blockh, blockl);
    give_block(
        cipher::encipher::<Qarma128>(number, rounds, key, tweak, block),
        out,
    )
}

// A block of 128 bits deciphered: the engine under the turned schedule of the key, and nothing else.
#[unsafe(no_mangle)]
pub extern "C" fn kk128_decipher(
    number: u64,
    rounds: u64,
    w0h: u64,
    w0l: u64,
    k0h: u64,
    k0l: u64,
    tweakh: u64,
    tweakl: u64,
    blockh: u64,
    blockl: u64,
    out: &mut [u8],
) -> u64
    ensures { (result, out.new) ≡ returning (block_given128 (decipher_call_128 number rounds (pair w0h w0l) (pair k0h k0l) (pair tweakh tweakl) (pair blockh blockl)) out.old) }
{
    let key = key(w0h, w0l, k0h, k0l);
    let tweak = pair(tweakh, tweakl);
    let block = pair(blockh, blockl);
    give_block(
        cipher::decipher::<Qarma128>(number, rounds, key, tweak, block),
        out,
    )
}

// The sealed bytes of a message under a key, a serial and a label.
#[unsafe(no_mangle)]
pub extern "C" fn kk_seal(
    w0: u64,
    k0: u64,
    serial: u64,
    label: &[u8],
    message: &[u8],
    out: &mut [u8],
) -> u64
    ensures { (result, out.new) ≡ returning (sealing w0 k0 serial label.now message.now out.old) }
{
    refusals::returned(frame::seal(Key { w0, k0 }, serial, label, message, out))
}

// The message of the stated length that the sealed bytes hold, under a key, a serial and a label.
#[unsafe(no_mangle)]
pub extern "C" fn kk_open(
    w0: u64,
    k0: u64,
    serial: u64,
    message_length: u64,
    label: &[u8],
    sealed: &[u8],
    out: &mut [u8],
) -> u64
    ensures { (result, out.new) ≡ returning (opening w0 k0 serial message_length label.now sealed.now out.old) }
{
    let key = Key { w0, k0 };
    refusals::returned(frame::open(key, serial, message_length as usize, label, sealed, out))
}

// A reading of a line, through C.
fn give_reading(r: Result<Fields, NotLine>, out: &mut [u8]) -> u64
    ensures { (result, out.new) ≡ returning (reading_given r out.old) }
{
    match r {
        Ok(f) => {
            let five = [
                f.serial,
                f.label_length as u64,
                f.message_length as u64,
                f.label_place as u64,
                f.sealed_place as u64,
            ];
            refusals::returned(give(&five, out))
        }
        Err(e) => refusals::returned(Err(Refusal::from(e))),
    }
}

// The fields of a frame line and their places: serial, label length, message length, the label's place, the sealed bytes' place.
#[unsafe(no_mangle)]
pub extern "C" fn kk_read_line(line: &[u8], out: &mut [u8]) -> u64
    ensures { GivesReading line.now out.old (result, out.new) }
{
    give_reading(line::read(line), out)
}

// The frame line of a message under a key, a serial and a label.
#[unsafe(no_mangle)]
pub extern "C" fn kk_write_line(
    w0: u64,
    k0: u64,
    serial: u64,
    label: &[u8],
    message: &[u8],
    out: &mut [u8],
) -> u64
    ensures { (result, out.new) ≡ returning (writing w0 k0 serial label.now message.now out.old) }
{
    refusals::returned(line::write(Key { w0, k0 }, serial, label, message, out))
}

// The message that a frame line holds, under a key.
#[unsafe(no_mangle)]
pub extern "C" fn kk_open_line(w0: u64, k0: u64, line: &[u8], out: &mut [u8]) -> u64
    ensures { (result, out.new) ≡ returning (opening_line w0 k0 line.now out.old) }
{
    refusals::returned(line::open(Key { w0, k0 }, line, out))
}
