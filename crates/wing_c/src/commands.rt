// Commands without a mirror: set orders, requests, meters; and the UTF-8 check with the good.
ghost use Rattle.std.specs.Prelude.{◌≡◌, ◌/◌, length};
ghost use Rattle.wing_node.specs.Utf8.{good, utf8, Longest};
ghost use Rattle.wing_node.specs.Value.{integer, float};
ghost use Rattle.wing_wire.specs.Write.{write_of};
ghost use Rattle.wing_wire.specs.Command.{set_bytes, set_string, request_bytes};
ghost use Rattle.wing_wire.specs.Meter.{request_meter, keep_alives, packet_of};
ghost use Rattle.wing_c.specs.Written.{command, command_of, request as request_as, request_of, packet as packet_as, packet_from};
ghost use Rattle.wing_c.specs.Meters.{meter_of, meters_of, meter_at, HoldsMeters};

use crate::answers;
use crate::answers::{WingMeters, WingRequested, WingWritten};
use wing_node::utf8::{good_len, is_utf8};
use wing_wire::meter::Meter;
use wing_wire::{meter, request, set};

// 01: set: d7, id, value. 9.
#[unsafe(no_mangle)]
pub extern "C" fn wing_order_int(out: &mut [u8], id: i32, value: i32) -> WingWritten
    ensures { command result out.new ≡ command_of (write_of (set_bytes id (integer value)) out.old) }
{
    answers::written(set::set_int(out, id, value))
}

// The same for a float, by its 32 bits.
#[unsafe(no_mangle)]
pub extern "C" fn wing_order_float(out: &mut [u8], id: i32, bits: u32) -> WingWritten
    ensures { command result out.new ≡ command_of (write_of (set_bytes id (float bits)) out.old) }
{
    answers::written(set::set_float(out, id, bits))
}

// The same for a string. 10, 1, 9.
#[unsafe(no_mangle)]
pub extern "C" fn wing_order_string(out: &mut [u8], id: i32, value: &[u8]) -> WingWritten
    ensures { command result out.new ≡ command_of (set_string id value.now out.old) }
{
    answers::written(set::set_string(out, id, value))
}

// 01: da dd for id 0, else d7 id dd. 9.
#[unsafe(no_mangle)]
pub extern "C" fn wing_request_node_definition(out: &mut [u8], id: i32) -> WingWritten
    ensures { command result out.new ≡ command_of (write_of (request_bytes 0xdd id) out.old) }
{
    answers::written(request::request_node_definition(out, id))
}

// 01: dc for dd. 9.
#[unsafe(no_mangle)]
pub extern "C" fn wing_request_node_data(out: &mut [u8], id: i32) -> WingWritten
    ensures { command result out.new ≡ command_of (write_of (request_bytes 0xdc id) out.old) }
{
    answers::written(request::request_node_data(out, id))
}

// A meter by 01's byte of its kind, a0 to af, and its index; any other kind is rta.
fn meter_of(kind: u8, index: u8) -> Meter
    ensures { result ≡ meter_of kind index }
{
    match kind {
        0xa0 => Meter::Channel(index),
        0xa1 => Meter::Aux(index),
        0xa2 => Meter::Bus(index),
        0xa3 => Meter::Main(index),
        0xa4 => Meter::Matrix(index),
        0xa5 => Meter::Dca(index),
        0xa6 => Meter::Fx(index),
        0xa7 => Meter::Source(index),
        0xa8 => Meter::Output(index),
        0xa9 => Meter::Monitor,
        0xab => Meter::Channel2(index),
        0xac => Meter::Aux2(index),
        0xad => Meter::Bus2(index),
        0xae => Meter::Main2(index),
        0xaf => Meter::Matrix2(index),
        _ => Meter::Rta,
    }
}

// The meter of a number; past the end of the pairs it is rta.
fn meter_at(pairs: &[u8], number: usize) -> Meter
    ensures { result ≡ meter_at pairs.now number }
{
    if number < pairs.len() / 2 {
        return meter_of(pairs[2 * number], pairs[2 * number + 1]);
    }
    Meter::Rta
}

// The first 64 meters.
fn meters_of(pairs: &[u8]) -> [Meter; 64]
    ensures { HoldsMeters pairs.now result }
{
    let mut meters = [Meter::Rta; 64];
    for i in 0..64 {
        meters[i] = meter_at(pairs, i);
    }
    meters
}

// The meters are pairs of bytes: a kind and an index, which monitor and rta have too and which is ignored. An odd last byte is
// dropped. 11, 12, 9.
#[unsafe(no_mangle)]
pub extern "C" fn wing_request_meter(
    out: &mut [u8],
    meters: &[u8],
    port: u16,
    last_id: u16,
) -> WingRequested
    ensures { request_as result out.new ≡ request_of (request_meter port last_id (meters_of meters.now) (length meters.now / 2) out.old) }
{
    let array = meters_of(meters);
    answers::requested(meter::request_meter(out, array, meters.len() / 2, port, last_id))
}

// 01: for ids from last to 1. 9.
#[unsafe(no_mangle)]
pub extern "C" fn wing_keep_alive_meters(out: &mut [u8], port: u16, last_id: u16) -> WingWritten
    ensures { command result out.new ≡ command_of (write_of (keep_alives port last_id) out.old) }
{
    answers::written(meter::keep_alive_meters(out, last_id, port))
}

// 01: the readings of a packet. 13, 9.
#[unsafe(no_mangle)]
pub extern "C" fn wing_read_meters(packet: &[u8], out: &mut [i16]) -> WingMeters
    ensures { packet_as result out.new ≡ packet_from (packet_of packet.now out.old) }
{
    answers::meters(meter::read_meters(packet, out))
}

// 01: UTF-8 by RFC 3629.
#[unsafe(no_mangle)]
pub extern "C" fn wing_is_utf8(s: &[u8]) -> bool
    ensures { result ≡ utf8 s.now }
{
    is_utf8(s)
}

// 02: how many leading bytes form whole characters: the largest such number.
#[unsafe(no_mangle)]
pub extern "C" fn wing_utf8_good(s: &[u8]) -> usize
    ensures value { result ≡ good s.now }
    ensures longest { Longest result s.now }
{
    good_len(s)
}
