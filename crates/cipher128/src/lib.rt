// QARMA-128: the width of 8 bits a cell, on words of two numbers of 64 bits.
#![tactic(auto)]

ghost use Rattle.std.specs.Prelude.{◌≡◌, ◌≤◌};
ghost use Rattle.cells.specs.Boxes.{sbox_number};
ghost use Rattle.cells128.specs.Qarma128.{qarma128};
ghost use Rattle.cells128.proofs.Halves.{whole_halves};
ghost use Rattle.cells128.proofs.Lawful128.{lawful128};
ghost use Rattle.cipher.specs.Engine.{engine};
ghost use Rattle.cipher128.specs.Words.{form128};

use cells::{Cells, Sbox};
use cells128::Pair;
use cipher::{Schedule, Width};

// The constants c0 to c10, each a square of cells.
static CONSTANTS: [[[u8; 4]; 4]; 11] = [
    [
        [0x00, 0x00, 0x00, 0x00],
        [0x00, 0x00, 0x00, 0x00],
        [0x00, 0x00, 0x00, 0x00],
        [0x00, 0x00, 0x00, 0x00],
    ],
    [
        [0xA4, 0x09, 0x38, 0x22],
        [0x29, 0x9F, 0x31, 0xD0],
        [0x08, 0x2E, 0xFA, 0x98],
        [0xEC, 0x4E, 0x6C, 0x89],
    ],
    [
        [0x45, 0x28, 0x21, 0xE6],
        [0x38, 0xD0, 0x13, 0x77],
        [0xBE, 0x54, 0x66, 0xCF],
        [0x34, 0xE9, 0x0C, 0x6C],
    ],
    [
        [0xC0, 0xAC, 0x29, 0xB7],
        [0xC9, 0x7C, 0x50, 0xDD],
        [0x3F, 0x84, 0xD5, 0xB5],
        [0xB5, 0x47, 0x09, 0x17],
    ],
    [
        [0x92, 0x16, 0xD5, 0xD9],
        [0x89, 0x79, 0xFB, 0x1B],
        [0xD1, 0x31, 0x0B, 0xA6],
        [0x98, 0xDF, 0xB5, 0xAC],
    ],
    [
        [0x2F, 0xFD, 0x72, 0xDB],
        [0xD0, 0x1A, 0xDF, 0xB7],
        [0xB8, 0xE1, 0xAF, 0xED],
        [0x6A, 0x26, 0x7E, 0x96],
    ],
    [
        [0xBA, 0x7C, 0x90, 0x45],
        [0xF1, 0x2C, 0x7F, 0x99],
        [0x24, 0xA1, 0x99, 0x47],
        [0xB3, 0x91, 0x6C, 0xF7],
    ],
    [
        [0x08, 0x01, 0xF2, 0xE2],
        [0x85, 0x8E, 0xFC, 0x16],
        [0x63, 0x69, 0x20, 0xD8],
        [0x71, 0x57, 0x4E, 0x69],
    ],
    [
        [0xA4, 0x58, 0xFE, 0xA3],
        [0xF4, 0x93, 0x3D, 0x7E],
        [0x0D, 0x95, 0x74, 0x8F],
        [0x72, 0x8E, 0xB6, 0x58],
    ],
    [
        [0x71, 0x8B, 0xCD, 0x58],
        [0x82, 0x15, 0x4A, 0xEE],
        [0x7B, 0x54, 0xA4, 0x1D],
        [0xC2, 0x5A, 0x59, 0xB5],
    ],
    [
        [0x9C, 0x30, 0xD5, 0x39],
        [0x2A, 0xF2, 0x60, 0x13],
        [0xC5, 0xD1, 0xB0, 0x23],
        [0x28, 0x60, 0x85, 0xF0],
    ],
];

// The most rounds.
const ROUNDS: u64 = 11;

// Alpha, a square of cells.
const ALPHA: [[u8; 4]; 4] = [
    [0x24, 0x3F, 0x6A, 0x88],
    [0x85, 0xA3, 0x08, 0xD3],
    [0x13, 0x19, 0x8A, 0x2E],
    [0x03, 0x70, 0x73, 0x44],
];

// The cipher of this width.
pub struct Qarma128;

impl Width for Qarma128 {
    type Word = Pair;

    ghost form = { form128 };

    fn of(w: Pair) -> Cells {
        cells128::of(w)
    }

    fn word(a: Cells) -> Pair {
        cells128::word(a)
    }

    fn boxed(a: Cells, sbox: Sbox) -> Cells {
        cells128::boxed(a, sbox)
    }

    fn unboxed(a: Cells, sbox: Sbox) -> Cells {
        cells128::unboxed(a, sbox)
    }

    fn mix(a: Cells) -> Cells {
        cells128::mix(a)
    }

    fn step(a: Cells) -> Cells {
        cells128::step(a)
    }

    fn unstep(a: Cells) -> Cells {
        cells128::unstep(a)
    }

    fn alpha() -> Cells {
        cells::of_rows(ALPHA)
    }

    fn constant(i: usize) -> Cells {
        cells::of_rows(CONSTANTS[i])
    }

    // A bit that leaves one half enters the other.
    fn w1_from(w0: Pair) -> Pair {
        Pair {
            high: (w0.low << 63) | (w0.high >> 1),
            low: ((w0.high << 63) | (w0.low >> 1)) ^ (w0.high >> 63),
        }
    }

    fn rounds() -> u64 {
        ROUNDS
    }

    ghost lawful = { lawful128 };

    ghost number_word = { whole_halves };
}

// The engine on a block under a tweak. Every cell is one of 8 bits, so no bound is asked.
pub fn engine_on_cells(s: Schedule, sbox: Sbox, rounds: usize, tweak: Cells, block: Cells) -> Cells
    requires { (3 ≤ rounds) × (rounds ≤ 11) }
    ensures { result ≡ engine qarma128 (sbox_number sbox) rounds s tweak block }
{
    cipher::engine_on_cells::<Qarma128>(s, sbox, rounds, tweak, block)
}
