// The command that a set through the mirror writes.
ghost use Rattle.std.specs.Prelude.{◌≡◌, true};
ghost use Rattle.wing_node.specs.Value.{node_value};
ghost use Rattle.wing_wire.specs.Write.{write_effect, write_of};
ghost use Rattle.wing_wire.specs.Command.{set_bytes};
ghost use Rattle.wing_mirror.specs.Entry.{storable};

use wing_node::refusal::Refusal;
use wing_node::value::Value;
use wing_wire::set;

// The command of a value; a string's bytes stand beside its length.
pub(crate) fn send(out: &mut [u8], id: i32, value: Value, string: &[u8]) -> Result<usize, Refusal>
    requires { storable (node_value value string.now) ≡ true }
    ensures { write_effect result out.new ≡ write_of (set_bytes id (node_value value string.now)) out.old }
{
    match value {
        Value::Integer(x) => set::set_int(out, id, x),
        Value::Float(bits) => set::set_float(out, id, bits),
        Value::String(n) => {
            let len = (n as usize).min(string.len());
            set::set_string(out, id, &string[..len])
        }
    }
}
