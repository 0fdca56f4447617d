// The MI desk's types. What they mean is defined in specs/, in document 01's order.
#![tactic(auto)]

ghost use Rattle.std.specs.Prelude.{◌≡◌};
ghost use Rattle.machine.specs.Words.{length_of};
ghost use Rattle.machine.specs.Alarms.{alarm_cause, alarm_number};
ghost use Rattle.machine.specs.Words.{kind_length};
ghost use Rattle.machine.specs.Calls.{refusal_number, AnswerNumber, step_answer_number};

// The bytes of the system block and of the control block.
pub const SYSTEM_BLOCK_BYTES: u64 = 256;

pub const CONTROL_BLOCK_BYTES: u64 = 80;

// "Virtual address, real address and frame number are three kinds, and the code must not accept one
// in place of another."

// An address that a command names: real in kernel mode, looked up in the map in user mode. Laid out as
// in C, since a breakpoint has one.
#[repr(C)]
#[derive(Clone, Copy)]
pub struct VirtualAddress(pub u32);

// The place of a byte in memory.
#[derive(Clone, Copy)]
pub struct RealAddress(pub u32);

// A frame is 512 bytes of memory; frame f starts at 512 * f.
#[derive(Clone, Copy)]
pub struct FrameNumber(pub u32);

// Why a byte is wanted: as a byte of a command, to be read, or to be written.
#[derive(Clone, Copy)]
pub enum Access {
    Fetch,
    Read,
    Write,
}

// The sizes of a value.
#[derive(Clone, Copy)]
pub enum Size {
    B,
    H,
    W,
}

// The kinds of a floating number, short and long (document 02, F-6).
#[derive(Clone, Copy)]
pub enum Kind {
    F,
    D,
}

// What a command does with an operand: reads its value, uses its address, writes it, or reads and
// then writes it.
#[derive(Clone, Copy)]
pub enum Role {
    Value,
    Address,
    Destination,
    Update,
}

// Where a command's result goes.
#[derive(Clone, Copy)]
pub enum Target {
    Nowhere,
    Register(u32),
    Memory(VirtualAddress),
}

// What an operation gives: a value and the flags that it sets.
#[derive(Clone, Copy)]
pub struct IntegerResult {
    pub value: u32,
    pub flags: u32,
}

// The operations on two floating numbers.
#[derive(Clone, Copy)]
pub enum Arithmetic {
    Add,
    Sub,
    Mult,
    Div,
}

// What an operation on floating numbers gives: the bits of its result and the flags that it sets.
#[derive(Clone, Copy)]
pub struct FloatResult {
    pub bits: u64,
    pub flags: u32,
}

// Why a command was broken off: alarms 8 to 15 and 21, each with its number in documents 01 and 02.
#[derive(Clone, Copy, Debug, PartialEq, Eq)]
pub enum Alarm {
    Address = 8,
    Absent = 9,
    MapEntry = 10,
    ReadOnly = 11,
    Command = 12,
    Mode = 13,
    Operand = 14,
    Divide = 15,
    NoFetch = 21,
}

// An alarm and its argument: what breaks a command off.
#[derive(Clone, Copy, Debug, PartialEq, Eq)]
pub struct Fault {
    pub alarm: Alarm,
    pub argument: u32,
}

// Where the map lies: its base, and its length in entries.
#[derive(Clone, Copy)]
pub struct Map {
    pub base: RealAddress,
    pub length: u32,
}

// A desk is running, or stopped with a number.
#[derive(Clone, Copy)]
pub enum Mark {
    Running,
    Stopped(u32),
}

// The state that travels by value beside the lent memory.
#[derive(Clone, Copy)]
pub struct Desk {
    pub registers: [u32; 16],
    pub status: u32,
    pub pending: u16,
    pub map: Map,
    // The addresses of the system block and the control block.
    pub system: RealAddress,
    pub control: RealAddress,
    pub mark: Mark,
}

// Why a call was refused, each with its number in document 01.
#[derive(Clone, Copy, Debug, PartialEq, Eq)]
pub enum Refusal {
    Length = 1,
    SystemBlock = 2,
    ControlBlock = 3,
    Map = 4,
    Status = 5,
    Level = 6,
    Stopped = 7,
}

// What a step came to: a command done; a kernel entry with its cause; a stop with its number.
#[derive(Clone, Copy, Debug, PartialEq, Eq)]
pub enum StepEvent {
    Done,
    Entered(u32),
    Stopped(u32),
}

// What the call for a fresh desk and a level request hand back.
#[derive(Clone, Copy)]
pub struct Reply {
    pub answer: Result<(), Refusal>,
    pub desk: Desk,
}

// What a step hands back.
#[derive(Clone, Copy)]
pub struct StepReply {
    pub answer: Result<StepEvent, Refusal>,
    pub desk: Desk,
}

// What a run hands back: steps counts those that it made.
#[derive(Clone, Copy)]
pub struct RunReply {
    pub answer: Result<(), Refusal>,
    pub steps: u64,
    pub desk: Desk,
}

impl Size {
    // L, the number of its bytes.
    pub fn length(self) -> u32
        ensures { result ≡ length_of self }
    {
        match self {
            Size::B => 1,
            Size::H => 2,
            Size::W => 4,
        }
    }
}

impl Kind {
    // L, the number of its bytes.
    pub fn length(self) -> u32
        ensures { result ≡ kind_length self }
    {
        match self {
            Kind::F => 4,
            Kind::D => 8,
        }
    }
}

impl Alarm {
    // Its number in documents 01 and 02.
    pub fn number(self) -> u32
        ensures { result ≡ alarm_number self }
    {
        self as u32
    }

    // The cause of the kernel entry that it makes in user mode: its number, but 2 for 21.
    pub fn cause(self) -> u32
        ensures { result ≡ alarm_cause self }
    {
        if self == Alarm::NoFetch {
            2
        } else {
            self as u32
        }
    }
}

// ---- The numbers of the answers

impl From<Refusal> for u32 {
    ghost from_gives = { λ k n. n ≡ refusal_number k };

    fn from(refusal: Refusal) -> u32 {
        refusal as u32
    }
}

// The number of a call's refusal, or 0.
pub fn answer_number<R: Into<u32>>(answer: Result<(), R>) -> u32
    ensures { AnswerNumber R.converts answer result }
{
    match answer {
        Ok(()) => 0,
        Err(refusal) => refusal.into(),
    }
}

// The number of a step's refusal, its cause or its stop; 0 for a command done. The case tells which:
// 0 is also a HALT, 1 also a system call, 2 also alarm 21.
pub fn step_answer_number(answer: Result<StepEvent, Refusal>) -> u32
    ensures { result ≡ step_answer_number answer }
{
    match answer {
        Ok(StepEvent::Done) => 0,
        Ok(StepEvent::Entered(cause)) => cause,
        Ok(StepEvent::Stopped(n)) => n,
        Err(refusal) => u32::from(refusal),
    }
}
