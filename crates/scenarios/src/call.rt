// A call's bytes: its kind, a processor (or the count, or a code), a CPL (or the features), one left free, an address (or a leaf; 4 bytes) and a value (or
// a subleaf; 8), the lengths of CPU record, memory, random data and string (2 each), numbers with the highest byte first. From 24 on the CPU record, from
// 440 the memory, from 696 the random data, from 760 the string; or from 24 on a machine record, which takes the place of the machine at hand.
// A counter call has the handle in the memory's place and the counter block in that of the random data. Its address says how long the buffer is, which
// begins with the bytes from 760 on.
ghost use Rattle.std.specs.Prelude.{◌+◌, ◌≤◌};

use layout::Block;
use line::SIZE;
use parts::part;
use std::fmt;

/// The kinds of calls, in the order of their numbers.
#[derive(Clone, Copy)]
pub enum Kind {
    PowerOn,
    Read,
    Write,
    Settle,
    Sleep,
    Reset,
    Step,
    Lend,
    Cpuid,
    Taken,
    Counter,
}

impl From<u8> for Kind {
    fn from(number: u8) -> Self {
        match number {
            0 => Kind::PowerOn,
            1 => Kind::Read,
            2 => Kind::Write,
            3 => Kind::Settle,
            4 => Kind::Sleep,
            5 => Kind::Reset,
            6 => Kind::Step,
            7 => Kind::Lend,
            8 => Kind::Cpuid,
            9 => Kind::Taken,
            _ => Kind::Counter,
        }
    }
}

impl fmt::Display for Kind {
    fn fmt<W: fmt::Write>(&self, f: &mut fmt::Formatter<W>) -> fmt::Result {
        f.write_str(match self {
            Kind::PowerOn => "power-on",
            Kind::Read => "read",
            Kind::Write => "write",
            Kind::Settle => "settle",
            Kind::Sleep => "sleep",
            Kind::Reset => "reset",
            Kind::Step => "step",
            Kind::Lend => "lend",
            Kind::Cpuid => "cpuid",
            Kind::Taken => "taken",
            Kind::Counter => "ctr",
        })
    }
}

// Where the longer parts begin, and how many bytes there are for each.
const CPU: usize = 24;

const CPU_ROOM: usize = 416;

const MEMORY: usize = CPU + CPU_ROOM;

const MEMORY_ROOM: usize = 256;

const RANDOM: usize = MEMORY + MEMORY_ROOM;

const RANDOM_ROOM: usize = 64;

const STRING: usize = RANDOM + RANDOM_ROOM;

const STRING_ROOM: usize = 64;

// How long a buffer is at most: more than a counter call takes, in whole words.
pub const BUFFER_ROOM: usize = 65540;

/// A call by its bytes.
#[derive(Clone, Copy)]
pub struct Call {
    pub bytes: [u8; SIZE],
}

impl Call {
    pub fn kind(&self) -> Kind {
        Kind::from(self.bytes[0])
    }

    pub fn processor(&self) -> u8 {
        self.bytes[1]
    }

    pub fn count(&self) -> u8 {
        self.bytes[1]
    }

    pub fn code(&self) -> u8 {
        self.bytes[1]
    }

    pub fn cpl(&self) -> u8 {
        self.bytes[2]
    }

    pub fn features(&self) -> u8 {
        self.bytes[2]
    }

    pub fn address(&self) -> u32 {
        u32::from_be_bytes(part(&self.bytes, 4))
    }

    pub fn leaf(&self) -> u32 {
        self.address()
    }

    pub fn value(&self) -> u64 {
        u64::from_be_bytes(part(&self.bytes, 8))
    }

    pub fn subleaf(&self) -> u32 {
        u32::from_be_bytes(part(&self.bytes, 12))
    }

    // The length that stands at a place, at most what there is room for. A place and no slice: each caller would cut the same bytes at it.
    fn length_at(&self, at: usize, room: usize) -> usize
        requires { at + 2 ≤ 960 }
        ensures { result ≤ room }
    {
        (u16::from_be_bytes(part(&self.bytes, at)) as usize).min(room)
    }

    pub fn cpu(&self) -> &[u8] {
        &self.bytes[CPU..CPU + self.length_at(16, CPU_ROOM)]
    }

    pub fn cpu_mut(&mut self) -> &mut [u8] {
        let end = CPU + self.length_at(16, CPU_ROOM);
        &mut self.bytes[CPU..end]
    }

    pub fn memory(&self) -> &[u8] {
        &self.bytes[MEMORY..MEMORY + self.length_at(18, MEMORY_ROOM)]
    }

    pub fn random(&self) -> &[u8] {
        &self.bytes[RANDOM..RANDOM + self.length_at(20, RANDOM_ROOM)]
    }

    pub fn string(&self) -> &[u8] {
        &self.bytes[STRING..STRING + self.length_at(22, STRING_ROOM)]
    }

    pub fn machine(&self) -> Block {
        part(&self.bytes, CPU)
    }

    pub fn handle(&self) -> &[u8] {
        self.memory()
    }

    pub fn counter(&self) -> &[u8] {
        self.random()
    }

    /// The buffer's room, zeros behind its first bytes. An array and no Vec: a part of it is lent, and then the whole is compared.
    pub fn buffer(&self) -> [u8; BUFFER_ROOM] {
        let mut buffer = [0; BUFFER_ROOM];
        let (given, _) = buffer.split_at_mut(SIZE - STRING);
        given.copy_from_slice(&self.bytes[STRING..]);
        buffer
    }

    pub fn buffer_length(&self) -> usize
        ensures { result ≤ 65540 }
    {
        (self.address() as usize).min(BUFFER_ROOM)
    }
}
