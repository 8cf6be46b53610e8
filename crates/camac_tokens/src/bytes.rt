// Texts that are compared eight bytes at a time.

ghost use Rattle.std.specs.Prelude.{◌≡◌, ◌-◌, ◌≤◌, false, drop, length, take};
ghost use Rattle.std.specs.Int.{from_le_bytes, to_le_bytes, w64};
ghost use Rattle.std.specs.Str.{bytes_eq};

/// Whether these are the same bytes. Lengths are looked at first, since most words differ there, and then the last bytes, since names that are much
/// alike differ in a number at their end.
#[inline]
pub fn are_same(one: &[u8], other: &[u8]) -> bool
    ensures { result ≡ bytes_eq one.now other.now }
{
    if one.len() != other.len() {
        return false;
    }
    if one.len() < 8 {
        return may_be_same(one, other) && are_same_from_first(one, other);
    }
    if last_eight(one) != last_eight(other) {
        return false;
    }
    let mut rest = one;
    let mut other_rest = other;
    while rest.len() > 8 {
        if first_eight(rest) != first_eight(other_rest) {
            return false;
        }
        let (_, after) = rest.split_at(8);
        let (_, other_after) = other_rest.split_at(8);
        rest = after;
        other_rest = other_after;
    }
    true
}

// The first eight bytes as one number, which no other bytes give. It takes one load, where each byte on its own takes a load and a branch.
pub fn first_eight(bytes: &[u8]) -> u64
    requires { 8 ≤ length bytes.now }
    ensures number { result ≡ from_le_bytes w64 (take 8 bytes.now) }
    ensures only { to_le_bytes w64 result ≡ take 8 bytes.now }
{
    match bytes.first_chunk::<8>() {
        Some(eight) => u64::from_le_bytes(*eight),
        None => unreachable!(),
    }
}

// The last eight bytes as one number, which no other bytes give.
fn last_eight(bytes: &[u8]) -> u64
    requires { 8 ≤ length bytes.now }
    ensures number { result ≡ from_le_bytes w64 (drop (length bytes.now - 8) bytes.now) }
    ensures only { to_le_bytes w64 result ≡ drop (length bytes.now - 8) bytes.now }
{
    first_eight(&bytes[bytes.len() - 8..])
}

// Whether the last byte of each is the same, if both have one.
#[tactic(auto, using(crate::proofs::Spellings::last_differs))]
fn may_be_same(one: &[u8], other: &[u8]) -> bool
    ensures { result ≡ false → bytes_eq one.now other.now ≡ false }
{
    match one {
        [] => true,
        [.., last] => match other {
            [] => true,
            [.., other_last] => *last == *other_last,
        },
    }
}

// It ends at the first bytes that differ.
fn are_same_from_first(one: &[u8], other: &[u8]) -> bool
    ensures { result ≡ bytes_eq one.now other.now }
{
    let mut one = one;
    let mut other = other;
    while let [byte, after @ ..] = one {
        match other {
            [same, other_after @ ..] if *same == *byte => {
                one = after;
                other = other_after;
            }
            _ => return false,
        }
    }
    other.is_empty()
}
