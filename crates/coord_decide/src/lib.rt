// The rounds of a coordinator (document 01, "What a coordinator does"): which replies count, and what the q-th decides.
// inner: call `coordinator::take_reply`
#![tactic(auto)]

ghost use Rattle.std.specs.Prelude.{◌≡◌, ◌≤◌, ◌<◌};
ghost use Rattle.coord_decide.specs.Deciding.{answers, tallied, apart, decided_read, decided_block_order, decided_at, decided_recovery, decided};
ghost use Rattle.coord_record.specs.Records.{target_count};
ghost use Rattle.byte_lists.specs.Each.{some};
ghost use Rattle.coord_tally.specs.Counting.{highest, said_no};
ghost use Rattle.settings.specs.Ranges.{max_bricks};

use coord_record::{Op, Tally};
use coord_tally::{any_missing, any_no, any_other, count_at, highest_of};
use message::{ORDER, ORDER_BLOCK, ORDER_READ, READ, Reply};

// What the q-th reply of a round decides.
#[derive(Clone, Copy)]
pub enum Decision {
    // ended aborted
    Abort,
    // a read of one round: decode from the targets and answer
    Give,
    // an Order-and-read round with this max
    Look(u64),
    // the Write round of a write
    Store,
    // the Modify round of a block write, with this old time
    Modify(u64),
    // decode from bricks that gave this time, then the Write round
    Recover(u64),
    // the Write or Modify round is finished: answer, and Trim
    Finish,
}

// The tally with a reply counted.
#[tactic(auto, unfolding(crate::specs::Deciding::tallied, settings::specs::Count::one_if))]
pub fn tally_with(t: Tally, reply: Reply) -> Tally
    requires { reply.brick < max_bricks }
    ensures { result ≡ tallied t reply }
{
    let mut next = t;
    let b = reply.brick;
    next.counted[b] = 1;
    next.granted[b] = u8::from(reply.yes);
    next.held[b] = u8::from(reply.held);
    next.found[b] = reply.found;
    next.said[b] = reply.comparison;
    next
}

// Whether a reply is of the running operation, its stripe and round, of a brick not counted, with a block by the round's rules.
#[tactic(auto, unfolding(crate::specs::Deciding::answers, message::specs::Flags::member))]
pub fn reply_answers(n: usize, m: usize, op: Op, t: Tally, reply: Reply) -> bool
    requires first_le_n { op.first ≤ n }
    requires brick_lt_max_bricks { reply.brick < max_bricks }
    ensures { result ≡ answers n m op t reply }
{
    let targets = coord_record::target_count(m, op.kind);
    let target = coord_record::is_target(n, targets, op.first, reply.brick);
    reply.kind == op.phase
        && reply.stripe == op.stripe
        && reply.time == op.time
        && reply.round == op.round
        && t.counted[reply.brick] != 1
        && coord_record::block_right(op.phase, target, reply.yes, reply.held, reply.found)
}

// "Recovery: Order-and-read with max 2^44": the first recovery round has no upper end.
const FIRST_MAX: u64 = settings::NO_UPPER_END;

// A round that q replies ended: n bricks, m data blocks, the operation, the replies counted.
#[derive(Clone, Copy)]
struct Round {
    n: usize,
    m: usize,
    op: Op,
    tally: Tally,
    ghost few: { n ≤ max_bricks },
    ghost first_low: { op.first < n },
}

impl Round {
    // The newest time of the counted replies.
    fn newest(&self) -> u64
        ensures { result ≡ highest self.now.tally.counted self.now.tally.found self.now.n }
    {
        highest_of(self.tally.counted, self.tally.found, self.n)
    }

    // Whether a counted reply said no.
    fn said_no(&self) -> bool
        ensures { result ≡ some (said_no self.now.tally.counted self.now.tally.granted) self.now.n }
    {
        any_no(self.tally.counted, self.tally.granted, self.n)
    }

    // Whether the counted replies differ in their newest times, or one of the targets is not among them.
    #[tactic(auto, unfolding(crate::specs::Deciding::apart))]
    fn times_apart(&self) -> bool
        ensures { result ≡ apart self.now.n (target_count self.now.m self.now.op.kind) self.now.op self.now.tally }
    {
        let n = self.n;
        let op = self.op;
        let tally = &self.tally;
        let targets = coord_record::target_count(self.m, op.kind);
        any_other(tally.counted, tally.found, self.newest(), n)
            || any_missing(n, targets, op.first, tally.counted)
    }

    // What the q-th reply of a Read round decides: a no does not abort it, the read recovers.
    #[tactic(auto, unfolding(crate::specs::Deciding::decided_read, settings::specs::Times::no_upper_end))]
    fn decide_read(&self) -> Decision
        ensures { result ≡ decided_read self.now.n self.now.m self.now.op self.now.tally }
    {
        if self.said_no() || self.times_apart() {
            return Decision::Look(FIRST_MAX);
        }
        Decision::Give
    }

    // What the q-th reply of a block write's first round decides, where none said no.
    #[tactic(auto, unfolding(crate::specs::Deciding::decided_block_order, settings::specs::Times::no_upper_end))]
    fn decide_block_order(&self) -> Decision
        ensures { result ≡ decided_block_order self.now.n self.now.m self.now.op self.now.tally }
    {
        if self.times_apart() {
            return Decision::Look(FIRST_MAX);
        }
        Decision::Modify(self.newest())
    }

    // What the q-th reply of an Order-and-read round decides, where a block is held and this is the highest time found.
    #[tactic(auto, unfolding(crate::specs::Deciding::decided_at, crate::specs::Deciding::unless_spent))]
    fn decide_at(&self, time: u64) -> Decision
        ensures { result ≡ decided_at self.now.n self.now.m self.now.op.round self.now.tally time }
    {
        if message::LAST_ROUND <= self.op.round {
            return Decision::Abort;
        }
        if self.m <= count_at(self.tally.held, self.tally.found, time, self.n) {
            return Decision::Recover(time);
        }
        if time == 0 {
            return Decision::Abort;
        }
        Decision::Look(time)
    }

    // What the q-th reply of an Order-and-read round decides, where none said no.
    #[tactic(auto, unfolding(crate::specs::Deciding::decided_recovery))]
    fn decide_recovery(&self) -> Decision
        ensures { result ≡ decided_recovery self.now.n self.now.m self.now.op self.now.tally }
    {
        let held = self.tally.held;
        match message::members_of(held, self.n) {
            0 => Decision::Abort,
            _ => self.decide_at(highest_of(held, self.tally.found, self.n)),
        }
    }

    // What the q-th reply decides.
    #[tactic(auto, unfolding(crate::specs::Deciding::decided))]
    fn decide(&self) -> Decision
        ensures { result ≡ decided self.now.n self.now.m self.now.op self.now.tally }
    {
        match self.op.phase {
            READ => self.decide_read(),
            _ if self.said_no() => Decision::Abort,
            ORDER => Decision::Store,
            ORDER_BLOCK => self.decide_block_order(),
            ORDER_READ => self.decide_recovery(),
            _ => Decision::Finish,
        }
    }
}

// What the q-th reply of a round decides.
pub fn decide(n: usize, m: usize, op: Op, tally: Tally) -> Decision
    requires n_le_max_bricks { n ≤ max_bricks }
    requires first_lt_n { op.first < n }
    ensures { result ≡ decided n m op tally }
{
    let round = Round { n, m, op, tally };
    round.decide()
}
