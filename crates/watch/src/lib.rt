// Addresses to watch for, as plain data, and a filter that most other addresses fail.
#![tactic(auto)]

ghost use Rattle.std.specs.Prelude.{◌≡◌, ◌+◌, ◌%◌, ◌≤◌, ◌<◌, length, take, drop};
ghost use Rattle.watch.specs.Addresses.{among as among_of, SameSet, passes, with_bit, Covers};

// Whether the filter lets an address pass.
fn perhaps(filter: u64, r15: u32) -> bool
    ensures { result ≡ passes filter r15 }
{
    (filter >> (r15 % 64)) % 2 == 1
}

// The filter with a bit.
fn with_bit(filter: u64, bit: u32) -> u64
    requires { bit < 64 }
    ensures { result ≡ with_bit filter bit }
{
    if (filter >> bit) % 2 == 1 {
        return filter;
    }
    filter + (1u64 << bit)
}

// The filter that these addresses pass.
pub fn filter_of(addresses: &[u32]) -> u64
    ensures { Covers result addresses.now }
{
    let mut filter = 0;
    for a in addresses {
        filter = with_bit(filter, *a % 64);
    }
    filter
}

// Whether an address is one of the four from place i on.
fn among_four(addresses: &[u32], i: usize, r15: u32) -> bool
    requires { i + 4 ≤ length addresses.now }
    ensures { result ≡ among_of r15 (take 4 (drop i addresses.now)) }
{
    (addresses[i] == r15)
        | (addresses[i + 1] == r15)
        | (addresses[i + 2] == r15)
        | (addresses[i + 3] == r15)
}

// Whether an address is one of these sixteen.
fn among_sixteen(addresses: &[u32], r15: u32) -> bool
    requires { length addresses.now ≡ 16 }
    ensures { result ≡ among_of r15 addresses.now }
{
    among_four(addresses, 0, r15)
        | among_four(addresses, 4, r15)
        | among_four(addresses, 8, r15)
        | among_four(addresses, 12, r15)
}

// Whether an address is among these, which are looked at sixteen at a time.
fn among(addresses: &[u32], r15: u32) -> bool
    requires { length addresses.now % 16 ≡ 0 }
    ensures { result ≡ among_of r15 addresses.now }
{
    let mut found = false;
    for sixteen in addresses.chunks_exact(16) {
        found |= among_sixteen(sixteen, r15);
    }
    found
}

// Whether an address is among these, which pass the filter.
pub fn met(addresses: &[u32], filter: u64, r15: u32) -> bool
    requires covers { Covers filter addresses.now }
    requires addresses_len { length addresses.now % 16 ≡ 0 }
    ensures { result ≡ among_of r15 addresses.now }
{
    perhaps(filter, r15) && among(addresses, r15)
}

// The first `count` addresses, and after them the first one again: the same set, in the whole array.
pub fn filled(addresses: [u32; 64], count: usize) -> [u32; 64]
    requires { (0 < count) × (count ≤ 64) }
    ensures { SameSet result (take count addresses) }
{
    let mut all = addresses;
    for i in count..64 {
        all[i] = all[0];
    }
    all
}
