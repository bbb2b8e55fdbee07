// Meters: requests, keep-alive and packets.
ghost use Rattle.std.specs.Prelude.{◌≡◌, ◌++◌, ◌∷◌, ◌+◌, ◌*◌, ◌≤◌, length, take, drop};
ghost use Rattle.wing_wire.specs.Write.{Laid, write_effect, write_of};
ghost use Rattle.wing_wire.specs.Meter.{item_of, item_bytes, meters_bytes, request_head, meter_request, request_effect, request_meter, keep_alive, keep_alives, readings, packet_effect, packet_of};

use crate::laying::{lay, lay_escaped, lay_number, write_by};
use wing_node::field::number_at;
use wing_node::refusal::Refusal;

#[derive(Clone, Copy)]
pub enum Meter {
    Channel(u8),
    Aux(u8),
    Bus(u8),
    Main(u8),
    Matrix(u8),
    Dca(u8),
    Fx(u8),
    Source(u8),
    Output(u8),
    Monitor,
    Rta,
    Channel2(u8),
    Aux2(u8),
    Bus2(u8),
    Main2(u8),
    Matrix2(u8),
}

// What stands for a meter in a request: the byte of its kind, alone or with an index.
#[derive(Clone, Copy)]
enum MeterItem {
    Alone(u8),
    Indexed(u8, u8),
}

// A request that was written: how many bytes, and the new meter id.
#[derive(Clone, Copy)]
pub struct Requested {
    pub len: usize,
    pub id: u16,
}

// A packet that was read: its meter id, and how many readings it holds.
#[derive(Clone, Copy)]
pub struct MetersRead {
    pub id: u16,
    pub count: usize,
}

// 01: a0 to a8 with index, a9 and aa alone, ab to af with index.
#[tactic(auto, unfolding(crate::specs::Meter::item_of))]
fn item_of(m: Meter) -> MeterItem
    ensures { result ≡ item_of m }
{
    match m {
        Meter::Channel(n) => MeterItem::Indexed(0xa0, n),
        Meter::Aux(n) => MeterItem::Indexed(0xa1, n),
        Meter::Bus(n) => MeterItem::Indexed(0xa2, n),
        Meter::Main(n) => MeterItem::Indexed(0xa3, n),
        Meter::Matrix(n) => MeterItem::Indexed(0xa4, n),
        Meter::Dca(n) => MeterItem::Indexed(0xa5, n),
        Meter::Fx(n) => MeterItem::Indexed(0xa6, n),
        Meter::Source(n) => MeterItem::Indexed(0xa7, n),
        Meter::Output(n) => MeterItem::Indexed(0xa8, n),
        Meter::Monitor => MeterItem::Alone(0xa9),
        Meter::Rta => MeterItem::Alone(0xaa),
        Meter::Channel2(n) => MeterItem::Indexed(0xab, n),
        Meter::Aux2(n) => MeterItem::Indexed(0xac, n),
        Meter::Bus2(n) => MeterItem::Indexed(0xad, n),
        Meter::Main2(n) => MeterItem::Indexed(0xae, n),
        Meter::Matrix2(n) => MeterItem::Indexed(0xaf, n),
    }
}

#[tactic(auto, unfolding(crate::specs::Meter::item_bytes))]
fn lay_meter(out: &mut [u8], at: usize, m: Meter) -> usize
    requires { at ≤ 0x1000 }
    ensures laid { Laid (item_bytes (item_of m)) at out.old out.new result }
    ensures upper_bound { result ≤ at + 3 }
{
    let item = item_of(m);
    match item {
        MeterItem::Alone(kind) => lay(out, at, kind),
        MeterItem::Indexed(kind, index) => {
            let next = lay(out, at, kind);
            lay_escaped(out, next, &[index])
        }
    }
}

// The first count of the meters.
fn lay_meters(out: &mut [u8], at: usize, meters: [Meter; 64], count: usize) -> usize
    requires { (at ≤ 0x100) × (count ≤ 64) }
    ensures laid { Laid (meters_bytes (take count meters)) at out.old out.new result }
    ensures upper_bound { result ≤ at + 3 * count }
{
    let mut next = at;
    for &m in &meters[..count] {
        next = lay_meter(out, next, m);
    }
    next
}

// 01: df d3 d3 port d4 id port dc.
fn lay_request_head(out: &mut [u8], port: u16, id: u16) -> usize
    ensures laid { Laid (request_head port id) 0 out.old out.new result }
    ensures upper_bound { result ≤ 17 }
{
    let mut at = lay(out, 0, 0xdf);
    at = lay(out, at, 0xd3);
    at = lay(out, at, 0xd3);
    at = lay_number(out, at, port);
    at = lay(out, at, 0xd4);
    at = lay_number(out, at, id);
    at = lay_number(out, at, port);
    lay(out, at, 0xdc)
}

// 01: the head, items, de df d1.
fn lay_meter_request(out: &mut [u8], port: u16, id: u16, meters: [Meter; 64], count: usize) -> usize
    requires { count ≤ 64 }
    ensures { Laid (meter_request port id (take count meters)) 0 out.old out.new result }
{
    let mut at = lay_request_head(out, port, id);
    at = lay_meters(out, at, meters, count);
    at = lay(out, at, 0xde);
    at = lay(out, at, 0xdf);
    lay(out, at, 0xd1)
}

// Entries of the array past the count are ignored. With no meters it is a request all the same.
// 01: more than 64 meters is 11, then a spent meter id is 12, then 9. No request is longer than 212 bytes.
pub fn request_meter(
    out: &mut [u8],
    meters: [Meter; 64],
    count: usize,
    port: u16,
    last_id: u16,
) -> Result<Requested, Refusal>
    ensures { request_effect result out.new ≡ request_meter port last_id meters count out.old }
{
    if 64 < count {
        return Err(Refusal::MetersOver);
    }
    if last_id == 65535 {
        return Err(Refusal::MeterIdLast);
    }
    let id = last_id + 1;
    let len = write_by::<212, _>(
        out,
        |buffer| lay_meter_request(buffer, port, id, meters, count),
    )?;
    Ok(Requested { len, id })
}

// 01: df d3 d4 id port df d1.
fn lay_keep_alive(out: &mut [u8], port: u16, id: u16) -> usize
    ensures laid { Laid (keep_alive port id) 0 out.old out.new result }
    ensures upper_bound { result ≤ 13 }
{
    let mut at = lay(out, 0, 0xdf);
    at = lay(out, at, 0xd3);
    at = lay(out, at, 0xd4);
    at = lay_number(out, at, id);
    at = lay_number(out, at, port);
    at = lay(out, at, 0xdf);
    lay(out, at, 0xd1)
}

// How many bytes the keep-alives of these ids take.
fn keep_alives_len(last_id: u16, port: u16) -> usize
    ensures { result ≡ length (keep_alives port last_id) }
{
    let mut scratch = [0u8; 1];
    let mut total = 0;
    for id in (1..=last_id).rev() {
        total += lay_keep_alive(&mut scratch, port, id);
    }
    total
}

// 01: each goes into the part of the output after the last one.
fn lay_keep_alives(out: &mut [u8], last_id: u16, port: u16) -> usize
    requires { length (keep_alives port last_id) ≤ length out.old }
    ensures { Laid (keep_alives port last_id) 0 out.old out.new result }
{
    let mut at = 0;
    for id in (1..=last_id).rev() {
        at += lay_keep_alive(&mut out[at..], port, id);
    }
    at
}

// 01: for ids from last to 1; with no id nothing is written. No keep-alive is longer than 13 bytes.
pub fn keep_alive_meters(out: &mut [u8], last_id: u16, port: u16) -> Result<usize, Refusal>
    ensures { write_effect result out.new ≡ write_of (keep_alives port last_id) out.old }
{
    if out.len() < 13 * (last_id as usize) {
        if out.len() < keep_alives_len(last_id, port) {
            return Err(Refusal::OutputShort);
        }
    }
    Ok(lay_keep_alives(out, last_id, port))
}

// The first count readings of a packet, after its four bytes of head.
fn fill_readings(packet: &[u8], out: &mut [i16], count: usize)
    requires { (4 + 2 * count ≤ length packet.now) × (count ≤ length out.old) }
    ensures { out.new ≡ take count (readings (drop 4 packet.now)) ++ drop count out.old }
{
    for i in 0..count {
        let at = 4 + 2 * i;
        out[i] = i16::from_be_bytes([packet[at], packet[at + 1]]);
    }
}

// 01: packet outside 4 to 8,192 bytes is 13, then 9. An odd last byte is dropped.
pub fn read_meters(packet: &[u8], out: &mut [i16]) -> Result<MetersRead, Refusal>
    ensures { packet_effect result out.new ≡ packet_of packet.now out.old }
{
    if packet.len() < 4 {
        return Err(Refusal::PacketSize);
    }
    if 8192 < packet.len() {
        return Err(Refusal::PacketSize);
    }
    let count = (packet.len() - 4) / 2;
    if out.len() < count {
        return Err(Refusal::OutputShort);
    }
    fill_readings(packet, out, count);
    Ok(MetersRead {
        id: number_at::<u16>(packet, 0),
        count,
    })
}
