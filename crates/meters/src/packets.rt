// The packets of the input by their ids.
ghost use Rattle.std.specs.Prelude.{◌<◌, length, IfOk};

use crate::complaint::Complaint;
use std::alloc::{AllocError, Global};
use wing_node::refusal::Refusal;
use wing_wire::meter::{MetersRead, read_meters};

// 01: a packet has at most 8,192 bytes, so at most 4,094 readings.
pub const STRIPS: u16 = 4094;

// 01: an id has two bytes.
const IDS: usize = 65536;

// A packet: how many readings it has, one for each strip, and where they begin among those of all packets. An input can have
// 131,072 packets with readings, so it is kept at eight bytes.
#[derive(Clone, Copy)]
pub struct Packet {
    pub id: u16,
    pub len: u16,
    pub from: u32,
}

// The ids in the order in which they first come, and for each id how many of its packets are kept; from begin_rows on, where the
// next of them goes.
#[derive(Drop)]
struct Ids {
    ids: Vec<u16>,
    places: [u32; IDS],
}

impl Ids {
    // Whether a packet of this id is kept: one without readings only as the first of its id, whose place it keeps.
    fn add(&mut self, id: u16, is_bare: bool) -> Result<bool, AllocError> {
        let count = &mut self.places[id as usize];
        if *count == 0 {
            self.ids.push(id)?;
        } else if is_bare {
            return Ok(false);
        }
        *count = count.saturating_add(1);
        Ok(true)
    }

    // The packets of an id go after all packets of the ids before it.
    fn begin_rows(&mut self) {
        let mut next = 0u32;
        for id in &self.ids {
            let place = &mut self.places[*id as usize];
            let count = *place;
            *place = next;
            next = next.saturating_add(count);
        }
    }

    fn next_place(&mut self, id: u16) -> usize {
        let place = &mut self.places[id as usize];
        let to = *place;
        *place = to.saturating_add(1);
        to as usize
    }
}

// Packets, and the readings of all of them one after the other, so that no packet has a block of its own.
#[derive(Drop)]
pub struct Packets {
    pub packets: Vec<Packet>,
    pub readings: Vec<i16>,
}

impl Packets {
    // One more packet, after those before it. An input is too short for longer numbers.
    fn add(&mut self, id: u16, readings: &[i16]) -> Result<(), AllocError> {
        let len = u16::try_from(readings.len()).unwrap_or(0);
        let from = u32::try_from(self.readings.len()).unwrap_or(0);
        self.packets.push(Packet { id, len, from })?;
        self.readings.extend_from_slice(readings)
    }
}

// 01: 13. It is said of the length itself, so that a wrong length near the end is no packet cut short.
fn is_outside(len: usize) -> bool {
    len < 4 || 8192 < len
}

// The next packet, by its number, and what comes after it.
fn split(input: &[u8], packet: usize) -> Result<(&[u8], &[u8]), Complaint>
    ensures { IfOk result (λ p. length p.1.now < length input.now) }
{
    let Some((length, rest)) = input.split_first_chunk::<2>() else {
        return Err(Complaint::Inside { packet });
    };
    let len = u16::from_be_bytes(*length) as usize;
    if is_outside(len) {
        return Err(Complaint::Refused {
            packet,
            why: Refusal::PacketSize,
        });
    }
    rest.split_at_checked(len)
        .ok_or(Complaint::Inside { packet })
}

// All packets of the input in their order, unless one is wrong.
fn read_all(alloc: Global, input: &[u8], ids: &mut Ids) -> Result<Packets, Complaint> {
    let mut all = Packets {
        packets: Vec::new(alloc),
        readings: Vec::with_capacity(alloc, input.len() / 2)?,
    };
    let mut buffer = [0i16; STRIPS as usize];
    let mut rest = input;
    let mut packet = 0usize;
    // A while, since a for over the most packets would bound what the input alone bounds.
    while !rest.is_empty() {
        packet = packet.saturating_add(1);
        let (bytes, after) = split(rest, packet)?;
        match read_meters(bytes, &mut buffer) {
            Ok(MetersRead { id, count }) => {
                if ids.add(id, count == 0)? {
                    all.add(id, buffer.get(..count).unwrap_or(&[]))?;
                }
            }
            Err(why) => return Err(Complaint::Refused { packet, why }),
        }
        rest = after;
    }
    Ok(all)
}

// The packets of an id one after the other, in their order, and the ids in the order in which they first come.
fn in_rows(alloc: Global, packets: Vec<Packet>, ids: &mut Ids) -> Result<Vec<Packet>, AllocError> {
    ids.begin_rows();
    let mut rows = packets.as_slice().to_vec(alloc)?;
    for packet in &packets {
        if let Some(to) = rows.get_mut(ids.next_place(packet.id)) {
            *to = *packet;
        }
    }
    Ok(rows)
}

// All packets of the input by their ids, unless one is wrong.
pub fn by_id(alloc: Global, input: Vec<u8>) -> Result<Packets, Complaint> {
    let mut ids = Ids {
        ids: Vec::new(alloc),
        places: [0u32; IDS],
    };
    let Packets { packets, readings } = read_all(alloc, &input, &mut ids)?;
    drop(input);
    let packets = in_rows(alloc, packets, &mut ids)?;
    Ok(Packets { packets, readings })
}
