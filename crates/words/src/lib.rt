// Numbers and their bytes, highest first, at places of a slice; and the sums of 32 bits that
// addresses and register steps are made of.
#![tactic(auto)]

ghost use Rattle.std.specs.Prelude.{◌≡◌, ◌+◌, ◌*◌, ◌<◌, ◌≤◌, length};
ghost use Rattle.std.proofs.lemmas.List.Edits.{sets};
ghost use Rattle.machine.specs.Words.{bytes_of, bytes_of_words, length_of, lowered, raised, value_at, word_at, words_at};

use machine::Size;

pub fn wide(x: u8) -> u32
    ensures { (result ≡ x) × (result < 256) }
{
    u32::from(x)
}

// ---- Numbers from bytes

// The word at a place.
pub fn word(bytes: &[u8], a: usize) -> u32
    requires { a + 4 ≤ length bytes.now }
    ensures { result ≡ word_at bytes.now a }
{
    wide(bytes[a]) * 0x100_0000
        + wide(bytes[a + 1]) * 0x1_0000
        + wide(bytes[a + 2]) * 0x100
        + wide(bytes[a + 3])
}

// The value of a size at a place.
pub fn value_at(bytes: &[u8], a: usize, size: Size) -> u32
    requires { a + length_of size ≤ length bytes.now }
    ensures { result ≡ value_at bytes.now (length_of size) a 0 }
{
    match size {
        Size::B => wide(bytes[a]),
        Size::H => wide(bytes[a]) * 256 + wide(bytes[a + 1]),
        Size::W => word(bytes, a),
    }
}

// Sixteen words from a place on: R0 to R15 of a control block, or of a state in bytes.
pub fn sixteen(bytes: &[u8], at: usize) -> [u32; 16]
    requires { at + 64 ≤ length bytes.now }
    ensures { result ≡ words_at 16 bytes.now at }
{
    let mut words = [0u32; 16];
    for i in 0..16 {
        words[i] = word(bytes, at + 4 * i);
    }
    words
}

// ---- Bytes from numbers

// The bytes of a value to a place.
pub fn value_to(bytes: &mut [u8], a: usize, size: Size, value: u32)
    requires { a + length_of size ≤ length bytes.old }
    ensures { bytes.new ≡ sets bytes.old a (bytes_of (length_of size) value) }
{
    match size {
        Size::B => {
            bytes[a] = (value % 256) as u8;
        }
        Size::H => {
            bytes[a] = (value / 256 % 256) as u8;
            bytes[a + 1] = (value % 256) as u8;
        }
        Size::W => {
            bytes[a] = (value / 0x100_0000 % 256) as u8;
            bytes[a + 1] = (value / 0x1_0000 % 256) as u8;
            bytes[a + 2] = (value / 256 % 256) as u8;
            bytes[a + 3] = (value % 256) as u8;
        }
    }
}

// The bytes of some words to the places from one on.
pub fn put_words(bytes: &mut [u8], at: usize, words: &[u32])
    requires { at + 4 * length words.now ≤ length bytes.old }
    ensures { bytes.new ≡ sets bytes.old at (bytes_of_words words.now) }
{
    for (i, word) in words.iter().enumerate() {
        value_to(bytes, at + 4 * i, Size::W, *word);
    }
}

// ---- Addresses and register steps wrap.

pub fn plus(a: u32, b: u32) -> u32
    ensures { result ≡ raised a b }
{
    a.wrapping_add(b)
}

pub fn minus(a: u32, b: u32) -> u32
    ensures { result ≡ lowered a b }
{
    a.wrapping_sub(b)
}
