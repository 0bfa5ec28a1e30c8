//! The head of a record: sixteen bytes, each number with its low byte first.

ghost use Rattle.std.specs.Prelude.{◌≡◌, ◌≤◌, ◌++◌, length, drop};
ghost use Rattle.trace_record.specs.Record.{head_bytes, head_of, timestamp, record_size, IsRecord};

/// How many bytes a record's head takes.
pub const HEAD_SIZE: usize = 16;

/// What a record begins with: when it was written, by which process, which event it is, and how
/// many bytes its payload has.
#[derive(Clone, Copy, Debug, PartialEq, Eq)]
pub struct Head {
    /// The timestamp, in ticks of the clock.
    pub ts: u64,
    /// The process.
    pub pid: i32,
    /// The event's id.
    pub event: u16,
    /// The length of the payload, in bytes.
    pub payload: u16,
}

/// The head that the bytes begin with: `None` exactly where they are fewer than sixteen.
pub fn read_head(bytes: &[u8]) -> Option<Head>
    ensures { result ≡ head_of bytes.now }
{
    if bytes.len() < HEAD_SIZE {
        return None;
    }
    Some(Head {
        ts: u64::from_le_bytes([
            bytes[0], bytes[1], bytes[2], bytes[3], bytes[4], bytes[5], bytes[6], bytes[7],
        ]),
        pid: i32::from_le_bytes([bytes[8], bytes[9], bytes[10], bytes[11]]),
        event: u16::from_le_bytes([bytes[12], bytes[13]]),
        payload: u16::from_le_bytes([bytes[14], bytes[15]]),
    })
}

/// Writes the head into the first sixteen bytes, and no others.
pub fn write_head(head: Head, out: &mut [u8])
    requires { 16 ≤ length out.old }
    ensures bytes { out.new ≡ head_bytes head ++ drop 16 out.old }
    ensures head { head_of out.new ≡ Some head }
    ensures timestamp { timestamp out.new ≡ head.ts }
    ensures is_record { length out.old ≡ record_size head.payload → IsRecord out.new }
{
    let ts = head.ts.to_le_bytes();
    let pid = head.pid.to_le_bytes();
    let event = head.event.to_le_bytes();
    let payload = head.payload.to_le_bytes();
    let bytes = [
        ts[0], ts[1], ts[2], ts[3], ts[4], ts[5], ts[6], ts[7], pid[0], pid[1], pid[2], pid[3],
        event[0], event[1], payload[0], payload[1],
    ];
    out[..HEAD_SIZE].copy_from_slice(&bytes);
}

/// When a record was written.
pub fn timestamp(rec: &[u8]) -> u64
    requires { 16 ≤ length rec.now }
    ensures { result ≡ timestamp rec.now }
{
    u64::from_le_bytes([
        rec[0], rec[1], rec[2], rec[3], rec[4], rec[5], rec[6], rec[7],
    ])
}
