// What QARMA-64 does to sixteen cells of 4 bits: boxes, mix and tweak step; and a word of 64 bits as cells.
#![tactic(auto)]

ghost use Rattle.std.specs.Prelude.{◌≡◌, [], ◌∷◌, ◌<◌};
ghost use Rattle.words.specs.Lists.{◌!◌};
ghost use Rattle.cells.specs.Cells.{Below, cell, cut, joined, looked, entry, mixed, bit_stepped, bit_unstepped, stepped, unstepped};
ghost use Rattle.cells.proofs.Upto.{each2_lt};
ghost use lib.Dec.{lit<};
ghost use Rattle.cells.specs.Workings.{bit_moved, moved_row};
ghost use Rattle.cells.specs.Boxes.{sbox_number};
ghost use Rattle.cells64.specs.Qarma64.{qarma64, entries};
ghost use Rattle.cells64.specs.Workings.{nibbles, box_or};

use cells::Way::{Back, Kept, Stepped};
use cells::{Cells, Matrix, Row, Sbox, Way};

// The matrix of the mix.
struct Matrix64;

impl Matrix for Matrix64 {
    ghost BITS = { 4 };

    const BITS: u8 = 4;

    ghost ENTRIES = { entries };

    const ENTRIES: [[u8; 4]; 4] = [[0, 1, 2, 1], [1, 0, 1, 2], [2, 1, 0, 1], [1, 2, 1, 0]];

    ghost within = { record { bits = lit< tt; all = each2_lt 4 4 4 (entry entries) tt } };
}

// The boxes as words: the output for input v is cell v from the least significant. Boxes 0 and 1 are their own inverses.
const BOX_0: u64 = 0x51CD7346B8F9A2E0;

const BOX_1: u64 = 0x421BC089537F6EDA;

const BOX_2: u64 = 0xA12D5473E90CF86B;

const UNBOX_2: u64 = 0x37C40F6291BA8DE5;

// The word of box 0 or 1, for both directions, or the word given for box 2.
#[tactic(auto, unfolding(crate::specs::Workings::nibbles, words::specs::Lists::upto))]
fn box_word(sbox: Sbox, word_2: u64) -> u64
    ensures { nibbles result ≡ box_or (sbox_number sbox) (nibbles word_2) }
{
    match sbox {
        Sbox::Sigma0 => BOX_0,
        Sbox::Sigma1 => BOX_1,
        Sbox::Sigma2 => word_2,
    }
}

// A cell as a number of 64 bits, to shift by.
fn wide(x: u8) -> u64
    ensures { result ≡ x }
{
    x as u64
}

// The same as a number of 32 bits.
fn wide_32(x: u8) -> u32
    ensures { result ≡ x }
{
    x as u32
}

// Whether a box is looked up in halves. No contract says, so `look_up` is proved for both answers; `tools/archive` has it answer yes for
// processors that shift 32 bits at a time.
fn in_halves() -> bool {
    false
}

// The output of a box for one cell, by shifts of 32 bits: from one half of the box or from the other.
fn look_up_in_halves(table: u64, x: u8) -> u8
    requires { x < 16 }
    ensures { result ≡ nibbles table ! x }
{
    let s = 4 * wide_32(x % 8);
    let low = ((table % 0x100000000) as u32 >> s) % 16;
    let high = ((table / 0x100000000 % 0x100000000) as u32 >> s) % 16;
    (low ^ (low ^ high) & 15 * wide_32(x / 8)) as u8
}

// The output of a box for one cell.
fn look_up(table: u64, x: u8) -> u8
    requires { x < 16 }
    ensures { result ≡ nibbles table ! x }
{
    if in_halves() {
        return look_up_in_halves(table, x);
    }
    (table >> (4 * wide(x)) & 15) as u8
}

// Not one step for both widths, with width and tap as const parameters: `((x ^ x >> TAP) % 2 << (M - 1)) + x / 2`, which needs limits
// of both, is no plainer than the two formulas.
// The bits (b3 b2 b1 b0) of a cell become (b0+b1, b3, b2, b1).
fn bit_step(x: u8) -> u8
    ensures { result ≡ bit_stepped 4 1 x }
{
    (x ^ x / 2) % 2 * 8 + x / 2
}

// The bit step undone.
fn bit_unstep(x: u8) -> u8
    ensures { result ≡ bit_unstepped 4 1 x }
{
    x % 8 * 2 + (x / 8 ^ x) % 2
}

// A cell kept, its bits stepped, or stepped back.
fn move_bits(how: Way, x: u8) -> u8
    ensures { result ≡ bit_moved 4 1 how x }
{
    match how {
        Way::Kept => x,
        Way::Stepped => bit_step(x),
        Way::Back => bit_unstep(x),
    }
}

// The same for the four cells of a row.
fn move_row(how: [Way; 4], row: Row) -> Row
    ensures { result ≡ moved_row 4 1 how row }
{
    let mut out = [0u8; 4];
    for y in 0..4 {
        out[y] = move_bits(how[y], row[y]);
    }
    out
}

// The cells of a word, cell 0 the most significant.
pub fn of(w: u64) -> Cells
    ensures { result ≡ cut 4 w }
{
    let mut at = [0u8; 16];
    words::write(&mut at, 4, w);
    Cells { at }
}

// The word of the cells.
pub fn word(a: Cells) -> u64
    requires { Below 4 a }
    ensures { result ≡ joined 4 a }
{
    let at = a.at;
    words::read(&at, 4)
}

// Each cell looked up in box 0 or 1, or in the word given for box 2.
fn look(a: Cells, sbox: Sbox, word_2: u64) -> Cells
    requires { Below 4 a }
    ensures { result ≡ looked (box_or (sbox_number sbox) (nibbles word_2)) a }
{
    let table = box_word(sbox, word_2);
    let mut out = [0u8; 16];
    for i in 0..16 {
        out[i] = look_up(table, a.at[i]);
    }
    Cells { at: out }
}

// The box on each cell.
#[tactic(auto, unfolding(crate::specs::Workings::nibbles, words::specs::Lists::upto))]
pub fn boxed(a: Cells, sbox: Sbox) -> Cells
    requires { Below 4 a }
    ensures { result ≡ looked (qarma64.box (sbox_number sbox)) a }
{
    look(a, sbox, BOX_2)
}

// The inverse box on each cell.
#[tactic(auto, unfolding(crate::specs::Workings::nibbles, words::specs::Lists::upto))]
pub fn unboxed(a: Cells, sbox: Sbox) -> Cells
    requires { Below 4 a }
    ensures { result ≡ looked (qarma64.unbox (sbox_number sbox)) a }
{
    look(a, sbox, UNBOX_2)
}

// The mix, column by column. It is its own inverse.
pub fn mix(a: Cells) -> Cells
    ensures { result ≡ mixed qarma64 a }
{
    a.mix::<Matrix64>()
}

// The tweak step.
pub fn step(a: Cells) -> Cells
    ensures { result ≡ stepped qarma64 a }
{
    cells::of_rows([
        move_row([Stepped, Stepped, Kept, Stepped], a.take(6, 5, 14, 15)),
        move_row([Stepped, Kept, Kept, Kept], a.take(0, 1, 2, 3)),
        move_row([Stepped, Kept, Kept, Stepped], a.take(7, 12, 13, 4)),
        move_row([Kept, Stepped, Kept, Kept], a.take(8, 9, 10, 11)),
    ])
}

// The tweak stepped back.
pub fn unstep(a: Cells) -> Cells
    ensures { result ≡ unstepped qarma64 a }
{
    cells::of_rows([
        move_row([Back, Kept, Kept, Kept], a.take(4, 5, 6, 7)),
        move_row([Back, Back, Back, Back], a.take(11, 1, 0, 8)),
        move_row([Kept, Back, Kept, Kept], a.take(12, 13, 14, 15)),
        move_row([Kept, Kept, Kept, Back], a.take(9, 10, 2, 3)),
    ])
}
