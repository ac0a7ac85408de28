// The letter after the time (document 02, E5): which rule ended an operation.
// inner: call `coordinator::take_reply`
#![tactic(auto)]

ghost use Rattle.std.specs.Prelude.{not, ◌&&◌, ◌≡◌, ◌≤◌, eqb};
ghost use Rattle.byte_lists.specs.Each.{some};
ghost use Rattle.coord_letters.specs.Letters.{read_letter, said_other, abort_letter};
ghost use Rattle.message.specs.Kinds.{full_log};
ghost use Rattle.settings.specs.Ranges.{max_bricks};

use coord_record::{Op, Tally};

// stays: bytes and no enum, as the bench prints them and `Notice::letter` holds them: `Letters` and the theorems over runs read numbers.
pub const NO_LETTER: u8 = 0;

// Read in one round.
pub const F: u8 = b'F';

// A read recovered at the first time tried.
pub const H: u8 = b'H';

// A read recovered at a lower time.
pub const L: u8 = b'L';

// Written, stripe or block.
pub const S: u8 = b'S';

// An Order or Order-and-read was told no.
pub const O: u8 = b'O';

// Every no to a Write or Modify came from a full log alone.
pub const G: u8 = b'G';

// Any other no there.
pub const W: u8 = b'W';

// All said yes, but no block found, time 0 on too few, rounds spent, or blocks that disagree.
pub const X: u8 = b'X';

// Cut.
pub const C: u8 = b'C';

// The letter of a read that gave an answer.
#[tactic(auto, unfolding(crate::specs::Letters::read_letter))]
pub fn read_letter(op: Op) -> u8
    ensures { result ≡ read_letter op }
{
    if op.phase == message::READ {
        F
    } else if op.round == message::THIRD_ROUND {
        H
    } else {
        L
    }
}

// Whether a brick is counted and said no by another comparison than that of a full log.
fn other_no(counted: u8, granted: u8, said: u8) -> bool
    ensures { result ≡ (eqb counted 1 && not (eqb granted 1)) && not (eqb said full_log) }
{
    counted == 1 && granted != 1 && said != message::FULL_LOG
}

// Whether a counted no below n was not that of a full log.
fn any_other_no(t: &Tally, n: usize) -> bool
    requires { n ≤ max_bricks }
    ensures { result ≡ some (said_other t.now.counted t.now.granted t.now.said) n }
{
    (0..n).any(|b| other_no(t.counted[b], t.granted[b], t.said[b]))
}

// The letter of an abort.
#[tactic(auto, unfolding(crate::specs::Letters::abort_letter))]
pub fn abort_letter(n: usize, op: Op, t: Tally) -> u8
    requires { n ≤ max_bricks }
    ensures { result ≡ abort_letter n op t }
{
    if !coord_tally::any_no(t.counted, t.granted, n) {
        X
    } else if !message::stores_entry(op.phase) {
        O
    } else if any_other_no(&t, n) {
        W
    } else {
        G
    }
}
