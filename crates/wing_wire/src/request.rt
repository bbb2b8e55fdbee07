// Requests for a node's definition and data.
ghost use Rattle.std.specs.Prelude.{◌≡◌};
ghost use Rattle.wing_wire.specs.Write.{Laid, write_effect, write_of};
ghost use Rattle.wing_wire.specs.Command.{request_bytes};

use crate::laying::{lay, lay_id, write_by};
use wing_node::refusal::Refusal;

// 01: da and the request for id 0, else d7, id and the request.
fn lay_request(out: &mut [u8], what: u8, id: i32) -> usize
    ensures { Laid (request_bytes what id) 0 out.old out.new result }
{
    if id == 0 {
        let at = lay(out, 0, 0xda);
        return lay(out, at, what);
    }
    let at = lay_id(out, 0xd7, id);
    lay(out, at, what)
}

fn write_request(out: &mut [u8], what: u8, id: i32) -> Result<usize, Refusal>
    ensures { write_effect result out.new ≡ write_of (request_bytes what id) out.old }
{
    write_by::<10, _>(out, |buffer| lay_request(buffer, what, id))
}

// 01: definition request: da dd for id 0, else d7 id dd. 9.
pub fn request_node_definition(out: &mut [u8], id: i32) -> Result<usize, Refusal>
    ensures { write_effect result out.new ≡ write_of (request_bytes 0xdd id) out.old }
{
    write_request(out, 0xdd, id)
}

// 01: data request: dc for dd. 9.
pub fn request_node_data(out: &mut [u8], id: i32) -> Result<usize, Refusal>
    ensures { write_effect result out.new ≡ write_of (request_bytes 0xdc id) out.old }
{
    write_request(out, 0xdc, id)
}
