// Sixteen cells, and what is done to them whatever their width is: sum, shuffle, mix, rows and columns.
#![tactic(auto)]

ghost use Rattle.std.specs.Prelude.{◌≡◌, List, [], ◌∷◌, ℕ, ◌<◌, ◌≤◌};
ghost use Rattle.words.specs.Lists.{◌!◌};
ghost use Rattle.cells.specs.Cells.{cell, added, shuffled, unshuffled, rotated, row_sum, mixed_column, mixed_by};
ghost use Rattle.cells.specs.Workings.{of_rows, transposed, Rotations};

// The three boxes, in the order of their numbers.
#[derive(Clone, Copy, PartialEq, Eq)]
pub enum Sbox {
    Sigma0,
    Sigma1,
    Sigma2,
}

// Four cells: a row of the square, or a column.
pub type Row = [u8; 4];

// What the tweak step or the tweak stepped back does to a cell: it keeps it, steps its bits, or steps them back.
#[derive(Clone, Copy)]
pub enum Way {
    Kept,
    Stepped,
    Back,
}

// The cells of four rows.
pub fn of_rows(r: [Row; 4]) -> Cells
    ensures { result ≡ of_rows r }
{
    let mut out = [0u8; 16];
    // By i, here and below: it stands for a place in what is read and in what is written, and a chain of both would say the same in more words.
    for i in 0..16 {
        out[i] = r[i / 4][i % 4];
    }
    Cells { at: out }
}

// A block, a tweak or a schedule word: sixteen cells, row by row in a square of 4 by 4.
// That each is below 2^m stays a clause (`Below m`): sum, mix, tweak step and turning promise what they do for any cells.
#[derive(Clone, Copy)]
pub struct Cells {
    pub at: [u8; 16],
}

impl Cells {
    // The sum, cell by cell.
    pub fn add(self, other: Cells) -> Cells
        ensures { result ≡ added self other }
    {
        let mut out = [0u8; 16];
        for i in 0..16 {
            out[i] = self.at[i] ^ other.at[i];
        }
        Cells { at: out }
    }

    // Four cells, by their numbers.
    pub fn take(self, i: usize, j: usize, k: usize, l: usize) -> Row
        requires { ((i < 16) × (j < 16)) × ((k < 16) × (l < 16)) }
        ensures { result ≡ cell self i ∷ cell self j ∷ cell self k ∷ cell self l ∷ [] }
    {
        let a = self.at;
        [a[i], a[j], a[k], a[l]]
    }

    // The cell shuffle.
    pub fn shuffle(self) -> Cells
        ensures { result ≡ shuffled self }
    {
        of_rows([
            self.take(0, 11, 6, 13),
            self.take(10, 1, 12, 7),
            self.take(5, 14, 3, 8),
            self.take(15, 4, 9, 2),
        ])
    }

    // The cell shuffle undone.
    pub fn unshuffle(self) -> Cells
        ensures { result ≡ unshuffled self }
    {
        of_rows([
            self.take(0, 5, 15, 10),
            self.take(13, 8, 2, 7),
            self.take(11, 14, 4, 1),
            self.take(6, 3, 9, 12),
        ])
    }

    // The square with its columns as rows.
    pub fn transpose(self) -> Cells
        ensures { result ≡ transposed self }
    {
        of_rows([
            self.take(0, 4, 8, 12),
            self.take(1, 5, 9, 13),
            self.take(2, 6, 10, 14),
            self.take(3, 7, 11, 15),
        ])
    }

    // The mix, column by column.
    pub fn mix<W: Matrix>(self) -> Cells
        ensures { result ≡ mixed_by W.BITS W.ENTRIES self }
    {
        of_rows([
            mix_column::<W>(self.take(0, 4, 8, 12)),
            mix_column::<W>(self.take(1, 5, 9, 13)),
            mix_column::<W>(self.take(2, 6, 10, 14)),
            mix_column::<W>(self.take(3, 7, 11, 15)),
        ])
        .transpose()
    }
}

// What a mix is by: the bits of a cell, and row x of the entries (x, j), by which cell j is rotated left; 0 stands for "-", which adds
// nothing.
pub trait Matrix {
    ghost BITS: { ℕ };

    const BITS: u8;

    ghost ENTRIES: { List (List ℕ) };

    const ENTRIES: [[u8; 4]; 4];

    // A rotation is by less than the bits of a cell, and those are at most 8.
    ghost within: { Rotations BITS ENTRIES };
}

// A cell of m bits rotated left by k, and 0 for "-".
fn rotate(m: u8, k: u8, x: u8) -> u8
    requires { (k < m) × (m < 9) }
    ensures { result ≡ rotated m k x }
{
    if k == 0 {
        return 0;
    }
    ((x << k) & (255 >> (8 - m))) ^ (x >> (m - k))
}

// Row x of the entries over one column.
fn mix_cell<W: Matrix>(x: usize, column: Row) -> u8
    requires { x < 4 }
    ensures { result ≡ row_sum W.BITS W.ENTRIES (λ j. column ! j) x }
{
    let mut sum = 0;
    for j in 0..4 {
        sum ^= rotate(W::BITS, W::ENTRIES[x][j], column[j]);
    }
    sum
}

// The mix of one column.
fn mix_column<W: Matrix>(column: Row) -> Row
    ensures { result ≡ mixed_column W.BITS W.ENTRIES column }
{
    let mut out = [0u8; 4];
    for x in 0..4 {
        out[x] = mix_cell::<W>(x, column);
    }
    out
}
