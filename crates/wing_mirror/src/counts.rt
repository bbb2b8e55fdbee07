// The six counts of a feed.
ghost use Rattle.std.specs.Prelude.{◌≡◌, ◌<◌};
ghost use Rattle.wing_node.specs.Definition.{definition_of};
ghost use Rattle.wing_node.specs.Refusal.{refusal_number};
ghost use Rattle.wing_mirror.specs.Counts.{zero_counts, tick as tick_of, total, refusal_mark, body_mark};

use crate::answer::Counts;
use wing_node::definition::from_bytes;
use wing_node::refusal::Refusal;

// Which of the six is meant, if any.
#[derive(Clone, Copy)]
pub enum Mark {
    Stored,
    Unplaced,
    StringRefused,
    DefinitionRead,
    DefinitionRefused,
    Ended,
    Uncounted,
}

pub(crate) fn zero_counts() -> Counts
    ensures { result ≡ zero_counts }
{
    Counts {
        stored: 0,
        unplaced: 0,
        strings_refused: 0,
        definitions_read: 0,
        definitions_refused: 0,
        ends: 0,
    }
}

// One more of them.
#[tactic(auto, unfolding(crate::specs::Counts::one, crate::specs::Counts::mark_number))]
pub(crate) fn tick(c: &mut Counts, m: Mark)
    requires { total c.old < 4294967295 }
    ensures { c.new ≡ tick_of m c.old }
{
    match m {
        Mark::Stored => c.stored += 1,
        Mark::Unplaced => c.unplaced += 1,
        Mark::StringRefused => c.strings_refused += 1,
        Mark::DefinitionRead => c.definitions_read += 1,
        Mark::DefinitionRefused => c.definitions_refused += 1,
        Mark::Ended => c.ends += 1,
        Mark::Uncounted => {}
    }
}

// 01: refusal 1 is a string's, 2 to 5 are a definition's.
#[tactic(auto, unfolding(crate::specs::Counts::refusal_mark))]
pub(crate) fn refusal_mark(why: Refusal) -> Mark
    ensures { result ≡ refusal_mark (refusal_number why) }
{
    match why.number() {
        1 => Mark::StringRefused,
        2..=5 => Mark::DefinitionRefused,
        _ => Mark::Uncounted,
    }
}

// 01: each body goes through the parser.
#[tactic(auto, unfolding(crate::specs::Counts::body_mark))]
pub(crate) fn body_mark(body: &[u8]) -> Mark
    ensures { result ≡ body_mark (definition_of body.now) }
{
    match from_bytes(body) {
        Ok(_) => Mark::DefinitionRead,
        Err(why) => refusal_mark(why),
    }
}
