// What a load answers.
use wing_node::refusal::Refusal;
use wing_wire::state::State;

// Why a text is sent back, and the number of the line that it is about: the header is line 1, and 7, 14 and 6 are about none, 0.
#[derive(Clone, Copy)]
pub struct BadLine {
    pub why: Refusal,
    pub line: usize,
}

// How many records the table has now.
pub type Loaded = Result<usize, BadLine>;

// The answer with a fresh decoder state, to go on with if the table was loaded; beside a refusal the mirror's own is as it was.
// The state stands beside the Result, as what a load says of it on a refusal too may not change.
#[derive(Clone, Copy)]
pub struct LoadReply {
    pub answer: Loaded,
    pub state: State,
}
