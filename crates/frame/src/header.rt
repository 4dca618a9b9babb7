use crate::counts::{ChannelCount, MasterCount};

// The values of a frame header. The version is not among them: only version 00 is opened.
#[derive(Clone, Copy)]
pub struct Header {
    pub spacecraft: u32,
    pub channel: usize,
    // A control word follows the data field.
    pub flagged: bool,
    pub master: MasterCount,
    pub count: ChannelCount,
    pub secondary: bool,
    pub synchronisation: bool,
    pub order: bool,
    // A number, as the header has it: a private frame may have any of the four.
    pub segment: u8,
    // A number with IDLE and NONE among them, and not an enum: `close` takes any number and writes its low 11 bits (`ClosedLow`).
    pub pointer: usize,
}

impl Header {
    pub const SIZE: usize = 6;
    // Virtual channels, 0 to 7.
    pub const CHANNELS: usize = 8;
    // The pointer of a frame of idle data only, and of one in which no packet starts.
    pub const IDLE: usize = 2046;

    pub const NONE: usize = 2047;
    // The segment id 11, the only one where the synchronisation flag is 0.
    pub const SEGMENT_ID: u8 = 3;
}
