// The strips of each id: their readings, in the order of the packets, through one window after the other.
use crate::complaint::Complaint;
use crate::packets::{Packet, Packets, STRIPS};
use crate::page::Page;
use std::alloc::Global;
use wing_meters::figures::Figures;
use wing_meters::reading::reading;
use wing_meters::window::{Window, figures};
use wing_node::refusal::Refusal;

// The figures of a strip's readings. No window here is refused: each begins fresh.
fn figures_of(
    fresh: &Window,
    row: &[Packet],
    readings: &[i16],
    strip: u16,
) -> Result<Option<Figures>, Refusal> {
    let mut w = *fresh;
    for packet in row {
        let at = (packet.from as usize).saturating_add(strip as usize);
        if let Some(x) = readings.get(at) {
            w = reading(w, *x).window;
        }
    }
    figures(w)
}

// No line for a strip without readings.
fn with_line(
    page: &mut Page<impl Print>,
    id: u16,
    strip: u16,
    t: Result<Option<Figures>, Refusal>,
) -> Result<(), Complaint> {
    match t {
        Ok(None) => Ok(()),
        Ok(Some(f)) => page.line(id, strip, f),
        Err(_) => Err(Complaint::Unwritten),
    }
}

// The lines of an id's strips. A packet without a strip has none of the later strips either, and leaves the row there, so that
// none is passed in vain more than once.
fn print_row(
    page: &mut Page<impl Print>,
    fresh: &Window,
    row: &mut Vec<Packet>,
    readings: &[i16],
) -> Result<(), Complaint> {
    for strip in 0..STRIPS {
        row.retain(|packet| strip < packet.len);
        let Some(first) = row.first() else {
            break;
        };
        let id = first.id;
        with_line(page, id, strip, figures_of(fresh, row, readings, strip))?;
    }
    Ok(())
}

// All lines, the ids in the order in which they first come. The row has room for all packets before anything is printed, and
// each id's packets take it in turn.
pub fn print(alloc: Global, to: &impl Print, fresh: Window, all: Packets) -> Result<(), Complaint> {
    let Packets { packets, readings } = all;
    let mut row = Vec::with_capacity(alloc, packets.len())?;
    let mut page = Page::begin(alloc, to)?;
    for same in packets.chunk_by(|p, q| p.id == q.id) {
        row.clear();
        row.extend_from_slice(same)?;
        print_row(&mut page, &fresh, &mut row, &readings)?;
    }
    page.flush()
}
