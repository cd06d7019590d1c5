use rds_model::Journal;
use rds_text::HostEnd;

/// What a run writes.
#[derive(Clone, Copy, Debug, PartialEq, Eq)]
pub enum Form {
    /// The report.
    Report,
    /// The summary of the script that is generated for so many sends and this seed.
    Summary { seed: u64, sends: u32 },
}

/// How a run ended, and what was written. Hosts are counted from 0.
#[derive(Drop)]
pub enum RunEnd {
    /// The whole text was written.
    Ok {
        ends: Vec<HostEnd>,
    },
    /// The two hosts lack a stream that they should have. The line of `low` opened this stream last, or none where it is 0. A text line
    /// that says so was written, and nothing else. The two journals of this connection are here, that of `low` first.
    WireFault {
        low: u8,
        high: u8,
        stream: u32,
        own: Journal,
        other: Journal,
    },
    /// The journal of `host` with `peer` has so many entries, and two more would pass the limit. A text line that says so was
    /// written, and nothing else. The two journals of this connection are here.
    Spent {
        host: u8,
        peer: u8,
        entries: u32,
        own: Journal,
        other: Journal,
    },
    /// So many datagrams aren't acknowledged. A text line that says so was written, and nothing else.
    Unfinished {
        count: u64,
        ends: Vec<HostEnd>,
    },
    /// The sink failed, after it took a beginning of the text.
    WriteFault,
    /// Memory ran out, and nothing was written.
    Memory,
}
