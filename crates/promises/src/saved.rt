// The calls that make a decoder state bytes and bytes a state, each with what is promised of it as its contract. There is nothing here but
// the call.
ghost use Rattle.promises.specs.Saved.{SaveCall, LoadCall, LoadEarlierCall};

use wing_node::refusal::Refusal;
use wing_wire::state::State;

pub fn save(out: &mut [u8], s: State) -> Result<usize, Refusal>
    ensures { SaveCall s out.old result out.new }
{
    wing_saved::save(out, s)
}

pub fn load(bytes: &[u8]) -> Result<State, Refusal>
    ensures { LoadCall bytes.now result }
{
    wing_saved::load(bytes)
}

pub fn load_earlier(bytes: &[u8]) -> Result<State, Refusal>
    ensures { LoadEarlierCall bytes.now result }
{
    wing_saved::earlier::load_earlier(bytes)
}
