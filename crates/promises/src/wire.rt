// The calls of the wire, each with what is promised of it as its contract. There is nothing here but the call.
ghost use Rattle.wing_node.specs.Value.{integer as integer_of, float as float_of, string as string_of};
ghost use Rattle.wing_wire.specs.State.{state_of};
ghost use Rattle.wing_wire.specs.Command.{set_bytes, id_bytes, suffix_bytes, request_bytes};
ghost use Rattle.wing_wire.specs.Lent.{whole_reply};
ghost use Rattle.wing_wire.specs.Meter.{keep_alives};
ghost use Rattle.promises.specs.Wire.{NextCall, CarryCall, AdvanceCall, DecodeCall, command_lines, string_lines, CommandCall, SetOrder, MeterCall, PacketCall};

use wing_node::refusal::Refusal;
use wing_wire::earlier;
use wing_wire::escape::NextUnit;
use wing_wire::lent::Parted;
use wing_wire::meter::{Meter, MetersRead, Requested};
use wing_wire::reader::Reply;
use wing_wire::state::{Control, Escape, State};
use wing_wire::stream::Advanced;

pub fn next(s: State, bytes: &[u8]) -> Reply
    ensures { NextCall s bytes.now result }
{
    wing_wire::reader::next(s, bytes)
}

// The lent form, through a local that is lent to it.
pub fn next_over(s: State, bytes: &[u8]) -> Parted
    ensures { NextCall s bytes.now (whole_reply result.reply result.state) }
{
    wing_wire::lent::next_over(s, bytes)
}

pub fn advance(c: Control, store: &mut [u8], bytes: &[u8]) -> Advanced
    ensures { AdvanceCall (state_of c store.old) bytes.now result store.new }
{
    wing_wire::stream::advance(c, store, bytes)
}

// An old decoder state (02).
pub fn carry_over(s: earlier::State) -> Result<State, Refusal>
    ensures { CarryCall s result }
{
    earlier::carry_over(s)
}

pub fn decode_next(e: Escape, bytes: &[u8], at: usize) -> NextUnit
    ensures { DecodeCall e bytes.now at result }
{
    wing_wire::escape::decode_next(e, bytes, at)
}

pub fn set_int(out: &mut [u8], id: i32, value: i32) -> Result<usize, Refusal>
    ensures { SetOrder (command_lines (set_bytes id (integer_of value)) out.old) id (integer_of value) out.old result out.new }
{
    wing_wire::set::set_int(out, id, value)
}

pub fn set_float(out: &mut [u8], id: i32, bits: u32) -> Result<usize, Refusal>
    ensures { SetOrder (command_lines (set_bytes id (float_of bits)) out.old) id (float_of bits) out.old result out.new }
{
    wing_wire::set::set_float(out, id, bits)
}

pub fn set_string(out: &mut [u8], id: i32, value: &[u8]) -> Result<usize, Refusal>
    ensures { SetOrder (string_lines id value.now out.old) id (string_of value.now) out.old result out.new }
{
    wing_wire::set::set_string(out, id, value)
}

pub fn format_id(out: &mut [u8], id: i32, prefix: u8, suffix: Option<u8>) -> Result<usize, Refusal>
    ensures { CommandCall (id_bytes prefix id (suffix_bytes suffix)) out.old result out.new }
{
    wing_wire::set::format_id(out, id, prefix, suffix)
}

pub fn request_node_definition(out: &mut [u8], id: i32) -> Result<usize, Refusal>
    ensures { CommandCall (request_bytes 0xdd id) out.old result out.new }
{
    wing_wire::request::request_node_definition(out, id)
}

pub fn request_node_data(out: &mut [u8], id: i32) -> Result<usize, Refusal>
    ensures { CommandCall (request_bytes 0xdc id) out.old result out.new }
{
    wing_wire::request::request_node_data(out, id)
}

pub fn request_meter(
    out: &mut [u8],
    meters: [Meter; 64],
    count: usize,
    port: u16,
    last_id: u16,
) -> Result<Requested, Refusal>
    ensures { MeterCall port last_id meters count out.old result out.new }
{
    wing_wire::meter::request_meter(out, meters, count, port, last_id)
}

pub fn keep_alive_meters(out: &mut [u8], last_id: u16, port: u16) -> Result<usize, Refusal>
    ensures { CommandCall (keep_alives port last_id) out.old result out.new }
{
    wing_wire::meter::keep_alive_meters(out, last_id, port)
}

pub fn read_meters(packet: &[u8], out: &mut [i16]) -> Result<MetersRead, Refusal>
    ensures { PacketCall packet.now out.old result out.new }
{
    wing_wire::meter::read_meters(packet, out)
}
