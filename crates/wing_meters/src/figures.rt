// What a window tells of the readings that it holds.

// 02: how many it holds, the sum, the sum divided by that number as a whole quotient, rounded down, with its remainder, and the largest.
#[derive(Clone, Copy)]
pub struct Figures {
    pub held: u16,
    pub sum: i32,
    pub mean: i16,
    pub rest: u16,
    pub top: i16,
}
