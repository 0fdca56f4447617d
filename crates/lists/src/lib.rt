// Load lists: their commands one by one, and what is refused of a whole list.
#![tactic(auto)]

ghost use Rattle.std.specs.Prelude.{◌≡◌, ◌+◌, ◌≤◌, ◌<◌, length};
ghost use Rattle.lists.specs.Lists.{next_at, piece_count, place_after, put_bytes, width_of};
ghost use Rattle.lists.specs.Refusals.{all_inside, list_refusal, load_refusal_number};
ghost use Rattle.machine.specs.Map.{real_writes_from};

use machine::RealAddress;

// A list that is loaded at the desk has at most so many pieces.
pub const DESK_PIECES: usize = 4096;

// A command of a list: 01h moves the place to an address; 02h, 03h and 04h, the pieces, put a byte,
// four bytes, so many copies of a byte at the place, which advances past them.
#[derive(Clone, Copy)]
pub enum Command {
    Move(RealAddress),
    Byte(u8),
    Four(u8, u8, u8, u8),
    Copies(u32, u8),
}

// Why a list is not loaded: each with its number in documents 01 and 02.
#[derive(Clone, Copy, Debug, PartialEq, Eq)]
pub enum LoadRefusal {
    Length = 1,
    Malformed = 17,
    Pieces = 18,
    Outside = 19,
}

impl From<LoadRefusal> for u32 {
    ghost from_gives = { λ k n. n ≡ load_refusal_number k };

    fn from(refusal: LoadRefusal) -> u32 {
        refusal as u32
    }
}

// ---- One command

impl Command {
    // Its bytes in the list.
    pub fn width(self) -> usize
        ensures { result ≡ width_of self }
    {
        match self {
            Command::Move(_) => 5,
            Command::Byte(_) => 2,
            Command::Four(..) => 5,
            Command::Copies(..) => 4,
        }
    }

    // 1 for a piece, 0 for a move.
    pub fn pieces(self) -> usize
        ensures { result ≡ piece_count self }
    {
        match self {
            Command::Move(_) => 0,
            Command::Byte(_) | Command::Four(..) | Command::Copies(..) => 1,
        }
    }

    // How many bytes it puts.
    pub fn count(self) -> u32
        ensures { result ≡ length (put_bytes self) }
    {
        match self {
            Command::Move(_) => 0,
            Command::Byte(_) => 1,
            Command::Four(..) => 4,
            Command::Copies(n, _) => n,
        }
    }

    // Whether what it puts from a place on lies inside a memory of n bytes: judged by place and
    // count, not byte by byte.
    pub fn fits(self, place: RealAddress, n: usize) -> bool
        ensures { result ≡ all_inside n (real_writes_from place.0 (put_bytes self)) }
    {
        let count = self.count();
        count == 0 || place.0 as usize + count as usize <= n
    }

    // The place after it.
    pub fn place_after(self, place: RealAddress) -> RealAddress
        requires { place.0 + length (put_bytes self) < 0x1_0000_0000 }
        ensures value { result ≡ record { 0 = place_after place.0 self } }
        ensures small { result.0 < 0x1_0000_0000 }
    {
        match self {
            Command::Move(a) => a,
            Command::Byte(_) => RealAddress(place.0 + 1),
            Command::Four(..) => RealAddress(place.0 + 4),
            Command::Copies(n, _) => RealAddress(place.0 + n),
        }
    }
}

// What stands at an offset of a list: a command, or none at its end, 00h; it is malformed where the byte
// is unknown or the list is cut short. One test after another, the bytes that are left asked first: of a
// match over the byte, or over patterns of slices, the compiler makes a table of jumps, which is slower.
pub fn next_at(list: &[u8], at: usize) -> Result<Option<Command>, LoadRefusal>
    requires { at ≤ length list.now }
    ensures { result ≡ next_at list.now at }
{
    let left = list.len() - at;
    if left == 0 {
        return Err(LoadRefusal::Malformed);
    }
    let c = list[at];
    if 2 <= left && c == 0x02 {
        return Ok(Some(Command::Byte(list[at + 1])));
    }
    if 5 <= left && c == 0x03 {
        return Ok(Some(Command::Four(list[at + 1], list[at + 2], list[at + 3], list[at + 4])));
    }
    if 4 <= left && c == 0x04 {
        let count = words::wide(list[at + 1]) * 256 + words::wide(list[at + 2]);
        return Ok(Some(Command::Copies(count, list[at + 3])));
    }
    if 5 <= left && c == 0x01 {
        return Ok(Some(Command::Move(RealAddress(words::word(list, at + 1)))));
    }
    if c == 0x00 {
        return Ok(None);
    }
    Err(LoadRefusal::Malformed)
}

// ---- A whole list

// Whether a list of at most `limit` pieces may be loaded into a memory of n bytes: 17 where it cannot
// be read to its end, which is its last byte, then 18, then 19. Its time is the list's length. Where
// a put is outside, the place matters no more.
pub fn judge(list: &[u8], n: usize, limit: usize) -> Result<(), LoadRefusal>
    requires { n < 0x1_0000_0000 }
    ensures { result ≡ list_refusal limit n list.now }
{
    let mut at: usize = 0;
    let mut pieces: usize = 0;
    let mut place = RealAddress(0);
    let mut inside = true;
    while let Some(c) = next_at(list, at)? {
        at += c.width();
        pieces += c.pieces();
        if c.fits(place, n) {
            place = c.place_after(place);
        } else {
            inside = false;
        }
    }
    if list.len() - at != 1 {
        return Err(LoadRefusal::Malformed);
    }
    if limit < pieces {
        return Err(LoadRefusal::Pieces);
    }
    if !inside {
        return Err(LoadRefusal::Outside);
    }
    Ok(())
}
