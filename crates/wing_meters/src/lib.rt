// Meters watched over time: a window over a strip's last readings, with their figures (02, Job 6).
#![tactic(auto)]

pub mod figures;
mod kept;
mod level;
pub mod reading;
mod sound;
pub mod window;
