// QARMA-64: the width of 4 bits a cell, on words of 64 bits.
#![tactic(auto)]

ghost use Rattle.std.specs.Prelude.{refl};
ghost use Rattle.cells64.proofs.Lawful64.{lawful64};
ghost use Rattle.cipher64.specs.Words.{form64};

use cells::{Cells, Sbox};
use cipher::Width;

// The constants c0 to c7, in cells.
static CONSTANTS: [[u8; 16]; 8] = [
    [0, 0, 0, 0, 0, 0, 0, 0, 0, 0, 0, 0, 0, 0, 0, 0],
    [1, 3, 1, 9, 8, 10, 2, 14, 0, 3, 7, 0, 7, 3, 4, 4],
    [10, 4, 0, 9, 3, 8, 2, 2, 2, 9, 9, 15, 3, 1, 13, 0],
    [0, 8, 2, 14, 15, 10, 9, 8, 14, 12, 4, 14, 6, 12, 8, 9],
    [4, 5, 2, 8, 2, 1, 14, 6, 3, 8, 13, 0, 1, 3, 7, 7],
    [11, 14, 5, 4, 6, 6, 12, 15, 3, 4, 14, 9, 0, 12, 6, 12],
    [3, 15, 8, 4, 13, 5, 11, 5, 11, 5, 4, 7, 0, 9, 1, 7],
    [9, 2, 1, 6, 13, 5, 13, 9, 8, 9, 7, 9, 15, 11, 1, 11],
];

// The most rounds.
const ROUNDS: u64 = 8;

// Alpha, in cells.
const ALPHA: [u8; 16] = [12, 0, 10, 12, 2, 9, 11, 7, 12, 9, 7, 12, 5, 0, 13, 13];

// The cipher of this width.
pub struct Qarma64;

impl Width for Qarma64 {
    type Word = u64;

    ghost form = { form64 };

    fn of(w: u64) -> Cells {
        cells64::of(w)
    }

    fn word(a: Cells) -> u64 {
        cells64::word(a)
    }

    fn boxed(a: Cells, sbox: Sbox) -> Cells {
        cells64::boxed(a, sbox)
    }

    fn unboxed(a: Cells, sbox: Sbox) -> Cells {
        cells64::unboxed(a, sbox)
    }

    fn mix(a: Cells) -> Cells {
        cells64::mix(a)
    }

    fn step(a: Cells) -> Cells {
        cells64::step(a)
    }

    fn unstep(a: Cells) -> Cells {
        cells64::unstep(a)
    }

    fn alpha() -> Cells {
        Cells { at: ALPHA }
    }

    fn constant(i: usize) -> Cells {
        Cells { at: CONSTANTS[i] }
    }

    fn w1_from(w0: u64) -> u64 {
        ((w0 << 63) | (w0 >> 1)) ^ (w0 >> 63)
    }

    fn rounds() -> u64 {
        ROUNDS
    }

    ghost lawful = { lawful64 };

    ghost number_word = { λ n. refl };
}
