/// A block of a stream (KryoFlux stream protocol).
#[derive(Clone, Copy, Debug, PartialEq, Eq)]
pub enum Block {
    /// A transition, so many ticks after the one before, or after the overflows since then.
    Flux {
        ticks: u16,
    },
    /// 65536 more ticks until the next transition.
    Overflow,
    /// Nothing, in 1 to 3 bytes.
    Nop {
        bytes: u8,
    },
    /// How far the device was with its transfer.
    StreamInfo {
        position: u32,
        time: u32,
    },
    /// The index hole came by, `sample` ticks after the in-stream block at `position` began.
    Index {
        position: u32,
        sample: u32,
        counter: u32,
    },
    /// The device's last word. A code other than 0 is a failure of the device.
    StreamEnd {
        position: u32,
        code: u32,
    },
    /// A text of so many bytes, which is skipped.
    Info {
        length: u16,
    },
    /// The end of the stream.
    End,
}

/// A block as it stands in a stream, and how many bytes it takes there.
#[derive(Clone, Copy, Debug, PartialEq, Eq)]
pub struct SpelledBlock {
    pub block: Block,
    pub bytes: usize,
}

/// An Index block: its number among all blocks, the stream position that it names, and its sample counter
/// in ticks.
#[derive(Clone, Copy, Debug, PartialEq, Eq)]
pub struct Mark {
    pub number: u32,
    pub position: u32,
    pub sample: u32,
}
