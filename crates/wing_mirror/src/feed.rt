// Feed: bytes through the decoder, each answer kept in the table.
ghost use Rattle.std.specs.Prelude.{◌≡◌, true, ◌≤◌, length, MatchResult};
ghost use Rattle.wing_wire.specs.State.{sound_state, state_of, body_limit};
ghost use Rattle.wing_mirror.specs.Record.{full};
ghost use Rattle.wing_mirror.specs.Table.{table as table_of, usable};
ghost use Rattle.wing_mirror.specs.Mirror.{fed_all, taken_feed, refused_feed, feed_effect, lent_effect, mirror_feed, lent_feed};

use crate::answer::{FeedReply, LentFeedReply};
use crate::counts::zero_counts;
use crate::keep::{Tally, keep_answer};
use crate::table::is_usable;
use wing_node::refusal::Refusal;
use wing_wire::state::{Control, State, is_sound_lent};
use wing_wire::stream::{advance, is_more, release};

// A feed that is taken: until 'more', each answer is kept and its bytes are given up.
fn feed_on(
    mut c: Control,
    store: &mut [u8],
    table: &mut [u8],
    count: usize,
    bytes: &[u8],
) -> LentFeedReply
    requires { (sound_state (state_of c store.old) ≡ true) × (length store.old ≡ body_limit) × (usable full (table_of table.old count) ≡ true) × (length bytes.now ≤ 65536) }
    ensures { lent_effect result store.new table.new ≡ taken_feed (fed_all full (state_of c store.old) (table_of table.old count) bytes.now) }
{
    let mut t = Tally {
        count,
        counts: zero_counts(),
    };
    let mut i = 0;
    loop {
        let r = advance(c, store, &bytes[i..]);
        c = r.control;
        i += r.taken;
        let a = r.answer;
        if is_more(a) {
            return LentFeedReply {
                answer: Ok(t.counts),
                control: c,
                count: t.count,
            };
        }
        keep_answer(table, &mut t, c.node, a, store);
        release(store, a);
    }
}

// Why a feed is refused, if it is. A store of another size than a state's is 8.
#[tactic(auto, unfolding(crate::specs::Mirror::lent_feed, crate::specs::Mirror::mirror_feed))]
fn feed_fault(
    c: Control,
    store: &[u8],
    table: &[u8],
    count: usize,
    bytes: &[u8],
) -> Result<(), Refusal>
    ensures { MatchResult result (λ taken. (lent_feed full (state_of c store.now) (table_of table.now count) bytes.now ≡ taken_feed (fed_all full (state_of c store.now) (table_of table.now count) bytes.now)) × (sound_state (state_of c store.now) ≡ true) × (length store.now ≡ body_limit) × (usable full (table_of table.now count) ≡ true) × (length bytes.now ≤ 65536)) (λ why. lent_feed full (state_of c store.now) (table_of table.now count) bytes.now ≡ refused_feed why (state_of c store.now) (table_of table.now count)) }
{
    if store.len() != State::BODY_LIMIT || !is_sound_lent(c, store) {
        return Err(Refusal::StateUnsound);
    }
    if !is_usable(table, count) {
        return Err(Refusal::TableUnsound);
    }
    if bytes.len() > 65536 {
        return Err(Refusal::NumberOver);
    }
    Ok(())
}

// A feed whose state's store is lent, so that nothing of it is copied. 01: a refused feed changes and counts nothing. 8, 7, 14.
pub fn feed_lent(
    c: Control,
    store: &mut [u8],
    table: &mut [u8],
    count: usize,
    bytes: &[u8],
) -> LentFeedReply
    ensures { lent_effect result store.new table.new ≡ lent_feed full (state_of c store.old) (table_of table.old count) bytes.now }
{
    match feed_fault(c, store, table, count, bytes) {
        Ok(()) => feed_on(c, store, table, count, bytes),
        Err(why) => LentFeedReply {
            answer: Err(why),
            control: c,
            count,
        },
    }
}

// 01: a feed takes up to 65,536 bytes and runs next until 'more': each value is stored at its node or has no place, each body goes
// through the parser, and the six counts tell how many. 8, 7, 14.
pub fn feed(state: State, table: &mut [u8], count: usize, bytes: &[u8]) -> FeedReply
    ensures { feed_effect result table.new ≡ mirror_feed full state (table_of table.old count) bytes.now }
{
    let mut store = state.store;
    let r = feed_lent(state.control, &mut store, table, count, bytes);
    FeedReply {
        answer: r.answer,
        state: State {
            control: r.control,
            store,
        },
        count: r.count,
    }
}
