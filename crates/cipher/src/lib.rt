// QARMA in either width: schedule, rounds, the seven steps, turning, and the calls on words. One engine runs both ways.
#![tactic(auto)]

ghost use Rattle.std.specs.Prelude.{◌≡◌, ◌<◌, ◌≤◌, ◌*◌, ℕ};
ghost use Rattle.cells.specs.Boxes.{sbox_number};
ghost use Rattle.cells.specs.Cells.{Below, cut, joined, looked, mixed, added, stepped, unstepped};
ghost use Rattle.cells.proofs.Lawful.{Lawful};
ghost use Rattle.cipher.specs.Engine.{ScheduleBelow, StateBelow, w1_from, forward, short_forward, backward, short_backward, forward_word, backward_word, forward_steps, middle, backward_steps, engine, turned};
ghost use Rattle.cipher.specs.Numbers.{Form, cut_words, cut_key, joined_words, key_words, turned_words, block_call, engine_call, encipher_call, decipher_call};

use cells::{Cells, Sbox};
use refusals::Refusal;

// A key: the outer word w0 and the core word k0.
#[derive(Clone, Copy)]
pub struct Key<T> {
    pub w0: T,
    pub k0: T,
}

// A schedule's four words, as they pass in and out.
#[derive(Clone, Copy)]
pub struct Words<T> {
    pub w0: T,
    pub w1: T,
    pub k0: T,
    pub k1: T,
}

// A schedule: outer words w0 and w1, core word k0, centre word k1. That its cells are below 2^m stays a clause, as for `Cells`.
#[derive(Clone, Copy)]
pub struct Schedule {
    pub w0: Cells,
    pub w1: Cells,
    pub k0: Cells,
    pub k1: Cells,
}

// The block and the tweak between two rounds.
#[derive(Clone, Copy)]
pub struct State {
    pub block: Cells,
    pub tweak: Cells,
}

impl Schedule {
    // The schedule turned, given its new core and centre words: the outer words change places. Each width gives k0 + alpha and the mix of k1.
    pub fn turn(self, core: Cells, centre: Cells) -> Schedule
        ensures { result ≡ record { w0 = self.w1; w1 = self.w0; k0 = core; k1 = centre } }
    {
        Schedule {
            w0: self.w1,
            w1: self.w0,
            k0: core,
            k1: centre,
        }
    }

    // The word of a forward round: k0 + tweak + ci.
    pub fn forward_word(self, constant: Cells, tweak: Cells) -> Cells
        ensures { result ≡ forward_word self constant tweak }
    {
        self.k0.add(tweak).add(constant)
    }

    // The word of a backward round: k0 + alpha + tweak + ci.
    pub fn backward_word(self, alpha: Cells, constant: Cells, tweak: Cells) -> Cells
        ensures { result ≡ added (added (added self.k0 alpha) tweak) constant }
    {
        self.k0.add(alpha).add(tweak).add(constant)
    }
}

// What the two widths of the cipher differ in.
pub trait Width {
    // A block, a tweak or a schedule word, as it passes in and out.
    type Word: Copy;

    ghost form: { Form Self.Word };

    // The cells of a word, cell 0 the most significant.
    fn of(w: Self::Word) -> Cells
        ensures { result ≡ cut form.cipher.bits (form.number w) };

    // The word of the cells.
    fn word(a: Cells) -> Self::Word
        requires { Below form.cipher.bits a }
        ensures { result ≡ form.word (joined form.cipher.bits a) };

    // The box on each cell.
    fn boxed(a: Cells, sbox: Sbox) -> Cells
        requires { Below form.cipher.bits a }
        ensures { result ≡ looked (form.cipher.box (sbox_number sbox)) a };

    // The inverse box on each cell.
    fn unboxed(a: Cells, sbox: Sbox) -> Cells
        requires { Below form.cipher.bits a }
        ensures { result ≡ looked (form.cipher.unbox (sbox_number sbox)) a };

    // The mix. It is its own inverse.
    fn mix(a: Cells) -> Cells
        ensures { result ≡ mixed form.cipher a };

    // The tweak step.
    fn step(a: Cells) -> Cells
        ensures { result ≡ stepped form.cipher a };

    // The tweak stepped back.
    fn unstep(a: Cells) -> Cells
        ensures { result ≡ unstepped form.cipher a };

    // Alpha.
    fn alpha() -> Cells
        ensures { result ≡ form.cipher.alpha };

    // The constant ci of a round.
    fn constant(i: usize) -> Cells
        requires { i < form.cipher.rounds }
        ensures { result ≡ form.cipher.constant i };

    // The outer word w1 of a key.
    fn w1_from(w0: Self::Word) -> Self::Word
        ensures { result ≡ form.word (w1_from (16 * form.cipher.bits) (form.number w0)) };

    // The most rounds.
    fn rounds() -> u64
        ensures { result ≡ form.cipher.rounds };

    ghost lawful: { Lawful form.cipher };

    ghost number_word: { (n : ℕ) → form.number (form.word n) ≡ n };
}

// A forward round with a word.
fn forward_round<W: Width>(sbox: Sbox, x: Cells, word: Cells) -> Cells
    requires { Below W.form.cipher.bits x × Below W.form.cipher.bits word }
    ensures { result ≡ forward W.form.cipher (sbox_number sbox) x word }
{
    W::boxed(W::mix(x.add(word).shuffle()), sbox)
}

// The short form of a forward round.
fn short_forward_round<W: Width>(sbox: Sbox, x: Cells, word: Cells) -> Cells
    requires { Below W.form.cipher.bits x × Below W.form.cipher.bits word }
    ensures { result ≡ short_forward W.form.cipher (sbox_number sbox) x word }
{
    W::boxed(x.add(word), sbox)
}

// A backward round with a word.
fn backward_round<W: Width>(sbox: Sbox, x: Cells, word: Cells) -> Cells
    requires { Below W.form.cipher.bits x }
    ensures { result ≡ backward W.form.cipher (sbox_number sbox) x word }
{
    W::mix(W::unboxed(x, sbox)).unshuffle().add(word)
}

// The short form of a backward round.
fn short_backward_round<W: Width>(sbox: Sbox, x: Cells, word: Cells) -> Cells
    requires { Below W.form.cipher.bits x }
    ensures { result ≡ short_backward W.form.cipher (sbox_number sbox) x word }
{
    W::unboxed(x, sbox).add(word)
}

// The schedule of four words.
pub fn schedule_of<W: Width>(words: Words<W::Word>) -> Schedule
    ensures { result ≡ cut_words W.form words }
{
    Schedule {
        w0: W::of(words.w0),
        w1: W::of(words.w1),
        k0: W::of(words.k0),
        k1: W::of(words.k1),
    }
}

// The schedule of a key.
pub fn key_schedule<W: Width>(key: Key<W::Word>) -> Schedule
    ensures { result ≡ cut_key W.form key }
{
    Schedule {
        w0: W::of(key.w0),
        w1: W::of(W::w1_from(key.w0)),
        k0: W::of(key.k0),
        k1: W::of(key.k0),
    }
}

// The four words of a schedule.
pub fn words_of<W: Width>(s: Schedule) -> Words<W::Word>
    requires { ScheduleBelow W.form.cipher.bits s }
    ensures { result ≡ joined_words W.form s }
{
    Words {
        w0: W::word(s.w0),
        w1: W::word(s.w1),
        k0: W::word(s.k0),
        k1: W::word(s.k1),
    }
}

// The schedule turned. The engine under it undoes the engine under the first.
pub fn turn<W: Width>(s: Schedule) -> Schedule
    ensures { result ≡ turned W.form.cipher s }
{
    s.turn(s.k0.add(W::alpha()), W::mix(s.k1))
}

// Step 2 for an i above 0: the forward round, then the tweak step.
fn forward_step<W: Width>(s: Schedule, sbox: Sbox, constant: Cells, state: State) -> State
    requires { ScheduleBelow W.form.cipher.bits s × (Below W.form.cipher.bits constant × StateBelow W.form.cipher.bits state) }
    ensures { (result.block ≡ forward W.form.cipher (sbox_number sbox) state.block (forward_word s constant state.tweak)) × (result.tweak ≡ stepped W.form.cipher state.tweak) }
{
    let word = s.forward_word(constant, state.tweak);
    State {
        block: forward_round::<W>(sbox, state.block, word),
        tweak: W::step(state.tweak),
    }
}

// Steps 3 to 5: a forward full round, the centre, a backward full round. They are written out, so that each round function has one
// caller and the compiler puts it in line.
fn middle<W: Width>(s: Schedule, sbox: Sbox, state: State) -> State
    requires { ScheduleBelow W.form.cipher.bits s × StateBelow W.form.cipher.bits state }
    ensures { result ≡ middle W.form.cipher (sbox_number sbox) s state }
{
    let State { block, tweak } = state;
    let x = W::boxed(W::mix(block.add(s.w1.add(tweak)).shuffle()), sbox);
    let y = W::mix(x.shuffle()).add(s.k1).unshuffle();
    State {
        block: W::mix(W::unboxed(y, sbox)).unshuffle().add(s.w0.add(tweak)),
        tweak,
    }
}

// Step 6 for an i above 0: the tweak is stepped back, then the backward round.
fn backward_step<W: Width>(s: Schedule, sbox: Sbox, constant: Cells, state: State) -> State
    requires { StateBelow W.form.cipher.bits state }
    ensures { (result.block ≡ backward W.form.cipher (sbox_number sbox) state.block (backward_word W.form.cipher s constant (unstepped W.form.cipher state.tweak))) × (result.tweak ≡ unstepped W.form.cipher state.tweak) }
{
    let tweak = W::unstep(state.tweak);
    let word = s.backward_word(W::alpha(), constant, tweak);
    State {
        block: backward_round::<W>(sbox, state.block, word),
        tweak,
    }
}

// Step 1, and step 2 for i = 0.
fn first<W: Width>(s: Schedule, sbox: Sbox, tweak: Cells, block: Cells) -> State
    requires { (0 < W.form.cipher.rounds) × (ScheduleBelow W.form.cipher.bits s × (Below W.form.cipher.bits tweak × Below W.form.cipher.bits block)) }
    ensures { result ≡ forward_steps W.form.cipher (sbox_number sbox) s 1 record { block = added block s.w0; tweak = tweak } }
{
    let word = s.forward_word(W::constant(0), tweak);
    State {
        block: short_forward_round::<W>(sbox, block.add(s.w0), word),
        tweak: W::step(tweak),
    }
}

// Step 6 for i = 0, and step 7.
fn last<W: Width>(s: Schedule, sbox: Sbox, state: State) -> Cells
    requires { (0 < W.form.cipher.rounds) × StateBelow W.form.cipher.bits state }
    ensures { result ≡ added (backward_steps W.form.cipher (sbox_number sbox) s 1 state).block s.w1 }
{
    let word = s.backward_word(W::alpha(), W::constant(0), W::unstep(state.tweak));
    short_backward_round::<W>(sbox, state.block, word).add(s.w1)
}

// The engine on a block under a tweak.
pub fn engine_on_cells<W: Width>(
    s: Schedule,
    sbox: Sbox,
    rounds: usize,
    tweak: Cells,
    block: Cells,
) -> Cells
    requires { ((3 ≤ rounds) × (rounds ≤ W.form.cipher.rounds)) × (ScheduleBelow W.form.cipher.bits s × (Below W.form.cipher.bits tweak × Below W.form.cipher.bits block)) }
    ensures { result ≡ engine W.form.cipher (sbox_number sbox) rounds s tweak block }
{
    let mut state = first::<W>(s, sbox, tweak, block);
    for i in 1..rounds {
        state = forward_step::<W>(s, sbox, W::constant(i), state);
    }
    state = middle::<W>(s, sbox, state);
    for i in (1..rounds).rev() {
        state = backward_step::<W>(s, sbox, W::constant(i), state);
    }
    last::<W>(s, sbox, state)
}

// The engine's answer under a schedule, or refusal 1.
fn block_call<W: Width>(
    number: u64,
    rounds: u64,
    schedule: Schedule,
    tweak: W::Word,
    block: W::Word,
) -> Result<W::Word, Refusal>
    requires { ScheduleBelow W.form.cipher.bits schedule }
    ensures { result ≡ block_call W.form number rounds schedule tweak block }
{
    // The one place where a number becomes a box: a `TryFrom` would be the same `match` with an error to hand on.
    let sbox = match number {
        0 => Sbox::Sigma0,
        1 => Sbox::Sigma1,
        2 => Sbox::Sigma2,
        _ => return Err(Refusal::Settings),
    };
    if rounds < 3 {
        return Err(Refusal::Settings);
    }
    if W::rounds() < rounds {
        return Err(Refusal::Settings);
    }
    let cells = engine_on_cells::<W>(schedule, sbox, rounds as usize, W::of(tweak), W::of(block));
    Ok(W::word(cells))
}

// The four words of a key's schedule.
pub fn key_words<W: Width>(key: Key<W::Word>) -> Words<W::Word>
    ensures { result ≡ key_words W.form key }
{
    words_of::<W>(key_schedule::<W>(key))
}

// Four words turned.
pub fn turn_words<W: Width>(words: Words<W::Word>) -> Words<W::Word>
    ensures { result ≡ turned_words W.form words }
{
    words_of::<W>(turn::<W>(schedule_of::<W>(words)))
}

// The engine on a block under a tweak and four free words.
pub fn engine<W: Width>(
    number: u64,
    rounds: u64,
    words: Words<W::Word>,
    tweak: W::Word,
    block: W::Word,
) -> Result<W::Word, Refusal>
    ensures { result ≡ engine_call W.form number rounds words tweak block }
{
    block_call::<W>(number, rounds, schedule_of::<W>(words), tweak, block)
}

// A block enciphered: the engine under the schedule of a key.
pub fn encipher<W: Width>(
    number: u64,
    rounds: u64,
    key: Key<W::Word>,
    tweak: W::Word,
    block: W::Word,
) -> Result<W::Word, Refusal>
    ensures { result ≡ encipher_call W.form number rounds key tweak block }
{
    block_call::<W>(number, rounds, key_schedule::<W>(key), tweak, block)
}

// A block deciphered: the engine under the turned schedule of a key, and nothing else.
pub fn decipher<W: Width>(
    number: u64,
    rounds: u64,
    key: Key<W::Word>,
    tweak: W::Word,
    block: W::Word,
) -> Result<W::Word, Refusal>
    ensures { result ≡ decipher_call W.form number rounds key tweak block }
{
    let turned = turn::<W>(key_schedule::<W>(key));
    block_call::<W>(number, rounds, turned, tweak, block)
}
