//! The varints of eight numbers in one step, where none has more than two bytes.
ghost use Rattle.std.specs.Prelude.{◌≡◌, ◌++◌, ◌+◌, ◌<◌, ◌≤◌, take, IfSome};
ghost use Rattle.std.specs.List.{flat_map};
ghost use Rattle.column_fields.specs.Varint.{varint};

/// Returns the varints of eight numbers, where each is one byte: none has a bit of 128 or more.
#[inline(always)]
pub fn one_byte_each(numbers: &[u64; 8]) -> Option<[u8; 8]>
    ensures { IfSome result (λ bytes. bytes ≡ flat_map varint numbers.now) }
{
    let low = numbers[0] | numbers[1] | numbers[2] | numbers[3];
    let high = numbers[4] | numbers[5] | numbers[6] | numbers[7];
    if low | high >= 128 {
        return None;
    }
    Some([
        numbers[0] as u8,
        numbers[1] as u8,
        numbers[2] as u8,
        numbers[3] as u8,
        numbers[4] as u8,
        numbers[5] as u8,
        numbers[6] as u8,
        numbers[7] as u8,
    ])
}

/// Returns the varints of eight numbers at the front of 16 bytes, and how many bytes they have, where none has more
/// than two. No branch decides which of them have one.
#[inline(always)]
pub fn two_bytes_at_most(numbers: &[u64; 8]) -> Option<([u8; 16], usize)>
    ensures bytes { IfSome result (λ r. take r.1 r.0 ≡ flat_map varint numbers.now) }
    ensures most { IfSome result (λ r. r.1 ≤ 16) }
{
    let low = numbers[0] | numbers[1] | numbers[2] | numbers[3];
    let high = numbers[4] | numbers[5] | numbers[6] | numbers[7];
    if low | high >= 16384 {
        return None;
    }
    let mut bytes = [0; 16];
    let first = put_short(&mut bytes, 0, numbers[0]);
    let second = put_short(&mut bytes, first, numbers[1]);
    let third = put_short(&mut bytes, second, numbers[2]);
    let fourth = put_short(&mut bytes, third, numbers[3]);
    let fifth = put_short(&mut bytes, fourth, numbers[4]);
    let sixth = put_short(&mut bytes, fifth, numbers[5]);
    let seventh = put_short(&mut bytes, sixth, numbers[6]);
    let count = put_short(&mut bytes, seventh, numbers[7]);
    Some((bytes, count))
}

// Puts the varint of a number, of at most two bytes, after the first `count` bytes, and returns the new count. If it
// has one byte, the next varint is written over the second.
#[inline(always)]
fn put_short(bytes: &mut [u8; 16], count: usize, number: u64) -> usize
    requires room { count ≤ 14 }
    requires short { number < 16384 }
    ensures bytes { take result bytes.new ≡ take count bytes.old ++ varint number }
    ensures most { result ≤ count + 2 }
{
    let longer = number >= 128;
    bytes[count] = (number % 128 + u64::from(longer) * 128) as u8;
    bytes[count + 1] = (number / 128) as u8;
    count + 1 + usize::from(longer)
}
