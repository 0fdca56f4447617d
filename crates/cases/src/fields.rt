// The fields of a case, read one after another: numbers, highest byte first, and parts. Where the
// bytes end, the missing ones are 0 and a part is empty.

// The bytes that are left, and whether a field wanted more of them than were left.
#[derive(Clone, Copy)]
pub struct Fields<'a> {
    rest: &'a [u8],
    cut: bool,
}

impl<'a> Fields<'a> {
    pub fn new(bytes: &'a [u8]) -> Fields<'a> {
        Fields {
            rest: bytes,
            cut: false,
        }
    }

    // Whether no byte is left.
    pub fn is_empty(&self) -> bool {
        self.rest.is_empty()
    }

    // Whether the fields were just as long as the bytes.
    pub fn is_filled(&self) -> bool {
        self.rest.is_empty() && !self.cut
    }

    // The next n bytes.
    pub fn part(&mut self, n: usize) -> &'a [u8] {
        match self.rest.split_at_checked(n) {
            Some((part, rest)) => {
                self.rest = rest;
                part
            }
            None => {
                self.rest = &[];
                self.cut = true;
                &[]
            }
        }
    }

    pub fn byte(&mut self) -> u8 {
        match self.rest.split_first() {
            Some((byte, rest)) => {
                self.rest = rest;
                *byte
            }
            None => {
                self.cut = true;
                0
            }
        }
    }

    pub fn half(&mut self) -> u16 {
        u16::from_be_bytes([self.byte(), self.byte()])
    }

    pub fn word(&mut self) -> u32 {
        u32::from_be_bytes([self.byte(), self.byte(), self.byte(), self.byte()])
    }

    // u32 length, and as many bytes.
    pub fn list(&mut self) -> &'a [u8] {
        let n = self.word() as usize;
        self.part(n)
    }
}
