// What QARMA-128 does to sixteen cells of 8 bits: boxes, mix and tweak step; and a word of 128 bits as cells.
#![tactic(auto)]

ghost use Rattle.std.specs.Prelude.{◌≡◌, List, [], ◌∷◌, ℕ, ◌/◌, ◌<◌};
ghost use Rattle.words.specs.Digits.{◌⊕◌};
ghost use Rattle.words.specs.Lists.{◌!◌};
ghost use Rattle.cells.specs.Cells.{Below, cell, cut, joined, looked, entry, mixed, bit_stepped, bit_unstepped, stepped, unstepped};
ghost use Rattle.cells.proofs.Upto.{each2_lt};
ghost use lib.Dec.{lit<};
ghost use Rattle.cells.specs.Workings.{bit_moved};
ghost use Rattle.cells.specs.Boxes.{box0, box1, box2, unbox2, sbox_number};
ghost use Rattle.cells128.specs.Qarma128.{qarma128, wired, unwired, entries};
ghost use Rattle.cells128.specs.Halves.{whole, halves};
ghost use Rattle.cells128.specs.Workings.{rewired, joined_pairs, gates0, gates1, gates2, ungates2, Masks, AllMasks, way, moved_cells};

use cells::{Cells, Matrix, Sbox};

// The matrix of the mix.
struct Matrix128;

impl Matrix for Matrix128 {
    ghost BITS = { 8 };

    const BITS: u8 = 8;

    ghost ENTRIES = { entries };

    const ENTRIES: [[u8; 4]; 4] = [[0, 1, 4, 5], [5, 0, 1, 4], [4, 5, 0, 1], [1, 4, 5, 0]];

    ghost within = { record { bits = lit< tt; all = each2_lt 4 4 8 (entry entries) tt } };
}

// A word of 128 bits: two numbers, the high one first.
#[derive(Clone, Copy)]
pub struct Pair {
    pub high: u64,
    pub low: u64,
}

// The cells of a word, cell 0 the most significant.
pub fn of(w: Pair) -> Cells
    ensures { result ≡ cut 8 (whole w) }
{
    let mut at = [0u8; 16];
    words::write(&mut at[0..8], 8, w.high);
    words::write(&mut at[8..16], 8, w.low);
    Cells { at }
}

// The word of the cells.
pub fn word(a: Cells) -> Pair
    requires { Below 8 a }
    ensures { result ≡ halves (joined 8 a) }
{
    let at = a.at;
    Pair {
        high: words::read(&at[0..8], 8),
        low: words::read(&at[8..16], 8),
    }
}

// Bits 1 and 4 of a cell change places, and bits 3 and 6. Then the same bit of both halves stands side by side, in the order 3, 1, 2, 0 of the bits of a
// half, and the other way round. By three masks, since of fewer operations with xor the compiler makes a multiplication.
fn rewire(x: u8) -> u8
    ensures { result ≡ rewired x }
{
    (x & 0xA5) | (x & 0x0A) << 3 | (x >> 3 & 0x0A)
}

// The lowest pairs of bits of four numbers beside each other, a's lowest.
fn join(a: u8, b: u8, c: u8, d: u8) -> u8
    ensures { result ≡ joined_pairs a b c d }
{
    (a & 3) | (b & 3) << 2 | (c & 3) << 4 | d << 6
}

// The gates of box 0: its output bits from its input bits, the lowest first.
fn gates_0(a: u8, b: u8, c: u8, d: u8) -> [u8; 4]
    ensures { result ≡ gates0 a b c d }
{
    let e = a ^ d;
    let f = a & (d ^ 0xFF);
    let g = b & d;
    let h = a ^ b;
    let i = c & (g ^ 0xFF);
    let j = h & (e ^ 0xFF);
    let k = f | i;
    let l = d ^ j;
    let m = i & (j ^ 0xFF);
    let n = h ^ l;
    let o = l & (c ^ 0xFF);
    let p = g | m;
    let q = f | o;
    [p, q, n, k]
}

// The gates of box 1: its output bits from its input bits, the lowest first, some of them complemented.
fn gates_1(a: u8, b: u8, c: u8, d: u8) -> [u8; 4]
    ensures { result ≡ gates1 a b c d }
{
    let e = b ^ c;
    let f = c | d;
    let g = a ^ d;
    let h = a ^ f;
    let i = b ^ f;
    let j = e & h;
    let k = g | i;
    let l = c ^ j;
    let m = d ^ k;
    let n = j | m;
    let o = l & k;
    let p = i ^ n;
    let q = h ^ o;
    [q, p, m, l]
}

// The gates of box 2: its output bits from its input bits, the lowest first, some of them complemented.
fn gates_2(a: u8, b: u8, c: u8, d: u8) -> [u8; 4]
    ensures { result ≡ gates2 a b c d }
{
    let e = a ^ b;
    let f = b & (d ^ 0xFF);
    let g = d & (c ^ 0xFF);
    let h = b & (a ^ 0xFF);
    let i = e | g;
    let j = c ^ h;
    let k = i & (f ^ 0xFF);
    let l = j & (f ^ 0xFF);
    let m = d ^ i;
    let n = a ^ l;
    let o = b ^ k;
    let p = d | n;
    let q = n & m;
    let r = o ^ p;
    let s = j ^ q;
    [s, r, n, k]
}

// The gates of the inverse of box 2: its output bits from its input bits, the lowest first, some of them complemented.
fn ungates_2(a: u8, b: u8, c: u8, d: u8) -> [u8; 4]
    ensures { result ≡ ungates2 a b c d }
{
    let e = a ^ c;
    let f = a & (c ^ 0xFF);
    let g = b ^ d;
    let h = d | e;
    let i = c & g;
    let j = a ^ g;
    let k = h & (b ^ 0xFF);
    let l = a | i;
    let m = d | i;
    let n = e | j;
    let o = f | k;
    let p = k ^ l;
    let q = m ^ n;
    let r = c | q;
    let s = g ^ r;
    [o, s, p, q]
}

// A box on a cell, by its gates. The last number complements the bits that the gates leave so.
fn boxed_by<F: Fn(u8, u8, u8, u8) -> [u8; 4]>(gates: F, complement: u8, x: u8) -> u8
    requires { F.IsAlwaysCallable gates }
    ensures { (g : List ℕ) × F.post gates (rewired x) (rewired x / 16) (rewired x / 4) (rewired x / 64) g × (result ≡ joined_pairs (g ! 0) (g ! 1) (g ! 2) (g ! 3) ⊕ complement) }
{
    let y = rewire(x);
    let g = gates(y, y >> 4, y >> 2, y >> 6);
    join(g[0], g[1], g[2], g[3]) ^ complement
}

// The inverse of a box on a cell, likewise.
fn unboxed_by<F: Fn(u8, u8, u8, u8) -> [u8; 4]>(gates: F, complement: u8, x: u8) -> u8
    requires { F.IsAlwaysCallable gates }
    ensures { (g : List ℕ) × F.post gates x (x / 4) (x / 16) (x / 64) g × (result ≡ rewired (joined_pairs (g ! 0) (g ! 2) (g ! 1) (g ! 3)) ⊕ complement) }
{
    let g = gates(x, x >> 2, x >> 4, x >> 6);
    rewire(join(g[0], g[2], g[1], g[3])) ^ complement
}

// Box 0 on a cell.
fn box_0(x: u8) -> u8
    ensures { result ≡ wired box0 ! x }
{
    boxed_by(gates_0, 0, x)
}

// The inverse of box 0 on a cell.
fn unbox_0(x: u8) -> u8
    ensures { result ≡ unwired box0 ! x }
{
    unboxed_by(gates_0, 0, x)
}

// Box 1 on a cell.
fn box_1(x: u8) -> u8
    ensures { result ≡ wired box1 ! x }
{
    boxed_by(gates_1, 0xCC, x)
}

// The inverse of box 1 on a cell.
fn unbox_1(x: u8) -> u8
    ensures { result ≡ unwired box1 ! x }
{
    unboxed_by(gates_1, 0xAA, x)
}

// Box 2 on a cell.
fn box_2(x: u8) -> u8
    ensures { result ≡ wired box2 ! x }
{
    boxed_by(gates_2, 0xCF, x)
}

// The inverse of box 2 on a cell.
fn unbox_2(x: u8) -> u8
    ensures { result ≡ unwired unbox2 ! x }
{
    unboxed_by(ungates_2, 0x55, x)
}

// The number of a box. The loops over the cells choose by it, and not by the box: then the compiler takes the choice out of them, and a
// block takes half the instructions.
fn number_of(sbox: Sbox) -> u64
    ensures { (result ≡ sbox_number sbox) × (result < 3) }
{
    match sbox {
        Sbox::Sigma0 => 0,
        Sbox::Sigma1 => 1,
        Sbox::Sigma2 => 2,
    }
}

// The output of a box for one cell.
fn box_cell(number: u64, x: u8) -> u8
    requires { number < 3 }
    ensures { result ≡ qarma128.box number ! x }
{
    match number {
        0 => box_0(x),
        1 => box_1(x),
        _ => box_2(x),
    }
}

// The output of an inverse box for one cell.
fn unbox_cell(number: u64, x: u8) -> u8
    requires { number < 3 }
    ensures { result ≡ qarma128.unbox number ! x }
{
    match number {
        0 => unbox_0(x),
        1 => unbox_1(x),
        _ => unbox_2(x),
    }
}

// The box on each cell. A loop of its own, as in `unboxed`: one for both, over a closure, could promise only what the closure may answer for
// each cell, which is no plainer.
pub fn boxed(a: Cells, sbox: Sbox) -> Cells
    ensures { result ≡ looked (qarma128.box (sbox_number sbox)) a }
{
    let number = number_of(sbox);
    let mut out = [0u8; 16];
    for i in 0..16 {
        out[i] = box_cell(number, a.at[i]);
    }
    Cells { at: out }
}

// The inverse box on each cell.
pub fn unboxed(a: Cells, sbox: Sbox) -> Cells
    ensures { result ≡ looked (qarma128.unbox (sbox_number sbox)) a }
{
    let number = number_of(sbox);
    let mut out = [0u8; 16];
    for i in 0..16 {
        out[i] = unbox_cell(number, a.at[i]);
    }
    Cells { at: out }
}

// The mix, column by column. It is its own inverse.
pub fn mix(a: Cells) -> Cells
    ensures { result ≡ mixed qarma128 a }
{
    a.mix::<Matrix128>()
}

// The bits (b7 b6 .. b0) of a cell become (b0+b2, b7, .., b1). `cells64` says why it is not one function for both widths.
fn bit_step(x: u8) -> u8
    ensures { result ≡ bit_stepped 8 2 x }
{
    (x ^ x / 4) % 2 * 128 + x / 2
}

// The bit step undone.
fn bit_unstep(x: u8) -> u8
    ensures { result ≡ bit_unstepped 8 2 x }
{
    x % 128 * 2 + (x / 128 ^ x / 2) % 2
}

// By masks and not by `Way`: with a `match` for each cell a tweak step takes 219 instructions on x86-64, and not 46.
// A cell with its bits stepped where `stepped` is 255, stepped back where `unstepped` is 255, and kept where both are 0.
fn move_bits(stepped: u8, unstepped: u8, x: u8) -> u8
    requires { Masks stepped unstepped }
    ensures { result ≡ bit_moved 8 2 (way stepped unstepped) x }
{
    let forth = (x ^ bit_step(x)) & stepped;
    let back = (x ^ bit_unstep(x)) & unstepped;
    x ^ forth ^ back
}

// The same for each cell. Both directions are in one loop: the compiler keeps it then, and works on all cells at once (docs/DECISIONS.md).
fn move_cells(stepped: [u8; 16], unstepped: [u8; 16], a: Cells) -> Cells
    requires { AllMasks stepped unstepped }
    ensures { result ≡ moved_cells stepped unstepped a }
{
    let mut out = [0u8; 16];
    for i in 0..16 {
        out[i] = move_bits(stepped[i], unstepped[i], a.at[i]);
    }
    Cells { at: out }
}

// The tweak step: first the bits of the seven cells, where they stand before the places change, and then the places.
pub fn step(a: Cells) -> Cells
    ensures { result ≡ stepped qarma128 a }
{
    let moved = move_cells(
        [255, 0, 0, 0, 255, 255, 255, 255, 0, 255, 0, 0, 0, 0, 0, 255],
        [0u8; 16],
        a,
    );
    let c = moved.at;
    Cells {
        at: [
            c[6], c[5], c[14], c[15], c[0], c[1], c[2], c[3], c[7], c[12], c[13], c[4], c[8], c[9],
            c[10], c[11],
        ],
    }
}

// The tweak stepped back: first the bits, and then the places.
pub fn unstep(a: Cells) -> Cells
    ensures { result ≡ unstepped qarma128 a }
{
    let moved = move_cells(
        [0u8; 16],
        [255, 255, 0, 255, 255, 0, 0, 0, 255, 0, 0, 255, 0, 255, 0, 0],
        a,
    );
    let c = moved.at;
    Cells {
        at: [
            c[4], c[5], c[6], c[7], c[11], c[1], c[0], c[8], c[12], c[13], c[14], c[15], c[9],
            c[10], c[2], c[3],
        ],
    }
}
