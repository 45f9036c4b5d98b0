// docs/RULES.md, "Frames": lower-case hexadecimal, big-endian. A line is read where it stands, digit by digit, so nothing bounds its length.
#![tactic(auto)]

ghost use Rattle.std.specs.Prelude.{◌≡◌, ℕ, ◌+◌, ◌*◌, ◌<◌, ◌≤◌, [], ◌∷◌, length, get_or, map, take, drop};
ghost use Rattle.std.proofs.Common.{rules};
ghost use Rattle.std.proofs.lemmas.List.Edits.{sets};
ghost use Rattle.hex_text.specs.Hex.{is_digit, digit_value, is_hex, bytes_of, number, numbers, digit_of, text_of, bytes_in, bytes_each};

// ---- digits

fn is_digit(b: u8) -> bool
    ensures { result ≡ is_digit b }
{
    matches!(b, b'0'..=b'9' | b'a'..=b'f')
}

// The value of a digit, and 0 of any other byte.
// kept: a contract speaks of the bytes of any line, and their definition has this 0; what is read of an input has passed `is_hex` before
fn digit(b: u8) -> u8
    ensures { (result ≡ digit_value b) × (result < 16) }
{
    match b {
        b'0'..=b'9' => b - b'0',
        b'a'..=b'f' => b - b'a' + 10,
        _ => 0,
    }
}

// Digits only, and in pairs.
pub fn is_hex(line: &[u8]) -> bool
    ensures { result ≡ is_hex line.now }
{
    line.len() % 2 == 0 && line.iter().all(|b| is_digit(*b))
}

// ---- numbers in a line

// How many bytes a line has.
#[tactic(auto, using(crate::proofs::Bytes::byte_count))]
pub fn byte_count(line: &[u8]) -> usize
    ensures { result ≡ length (bytes_of line.now) }
{
    line.len() / 2
}

// Byte i of a line.
#[tactic(auto, using(crate::proofs::Bytes::byte_count, crate::proofs::Bytes::byte_is))]
pub fn byte_at(line: &[u8], i: usize) -> u8
    requires { i < length (bytes_of line.now) }
    ensures { result ≡ get_or (bytes_of line.now) i 0 }
{
    16 * digit(line[2 * i]) + digit(line[2 * i + 1])
}

// The two bytes from byte i on.
#[tactic(auto, unfolding(crate::specs::Hex::number), using(crate::proofs::Bytes::byte_count, crate::proofs::Bytes::two_bytes))]
pub fn u16_at(line: &[u8], i: usize) -> u16
    requires { i + 2 ≤ length (bytes_of line.now) }
    ensures { result ≡ number (take 2 (drop i (bytes_of line.now))) }
{
    256 * (byte_at(line, i) as u16) + byte_at(line, i + 1) as u16
}

// The eight bytes from byte i on.
#[tactic(auto, using(crate::proofs::Bytes::byte_count, crate::proofs::Bytes::eight_bytes))]
pub fn u64_at(line: &[u8], i: usize) -> u64
    requires { i + 8 ≤ length (bytes_of line.now) }
    ensures { result ≡ number (take 8 (drop i (bytes_of line.now))) }
{
    let a = u16_at(line, i) as u64;
    let b = u16_at(line, i + 2) as u64;
    let c = u16_at(line, i + 4) as u64;
    let d = u16_at(line, i + 6) as u64;
    ((a * 65536 + b) * 65536 + c) * 65536 + d
}

// ---- writing

// The digit of a value below 16.
fn digit_of(v: u8) -> u8
    requires { v < 16 }
    ensures { result ≡ digit_of v }
{
    match v {
        0..=9 => b'0' + v,
        _ => b'a' + (v - 10),
    }
}

// A byte, as two digits.
#[tactic(auto, unfolding(crate::specs::Hex::text_of))]
pub fn write_byte(b: u8, out: &mut [u8], at: usize)
    requires { at + 2 ≤ length out.old }
    ensures { out.new ≡ sets out.old at (text_of (b ∷ [])) }
{
    out[at] = digit_of(b / 16);
    out[at + 1] = digit_of(b % 16);
}

// A number as k bytes.
pub fn write_number(x: u64, k: usize, out: &mut [u8], at: usize)
    requires { (k ≤ 8) × (at + 2 * k ≤ length out.old) }
    ensures { out.new ≡ sets out.old at (text_of (bytes_in k x)) }
{
    for i in 0..k {
        let right = 8 * (k - 1 - i);
        write_byte(((x >> right) % 256) as u8, out, at + 2 * i);
    }
}

// ---- numbers of one width

// A number that stands in a line as BYTES bytes.
pub trait Number: Copy {
    const BYTES: usize;

    ghost BYTES: { ℕ };

    ghost value: { Self → ℕ };

    // The number from byte i of a line on.
    fn read(line: &[u8], i: usize) -> Self
        requires { i + BYTES ≤ length (bytes_of line.now) }
        ensures { value result ≡ number (take BYTES (drop i (bytes_of line.now))) };

    fn to_u64(self) -> u64
        ensures { result ≡ value self };

    ghost few: { BYTES ≤ 8 };
}

// An index or a count.
impl Number for u32 {
    const BYTES: usize = 2;

    ghost BYTES = { 2 };

    ghost value = { λ x. x };

    ghost few = { Prim.search rules };

    fn read(line: &[u8], i: usize) -> u32 {
        u16_at(line, i) as u32
    }

    fn to_u64(self) -> u64 {
        self as u64
    }
}

// The bits of a probability, or a word of a row.
impl Number for u64 {
    const BYTES: usize = 8;

    ghost BYTES = { 8 };

    ghost value = { λ x. x };

    ghost few = { Prim.search rules };

    fn read(line: &[u8], i: usize) -> u64 {
        u64_at(line, i)
    }

    fn to_u64(self) -> u64 {
        self
    }
}

// n numbers, from a byte of the line into out from a place on.
fn read_numbers<T: Number>(line: &[u8], from: usize, n: usize, out: &mut [T], at: usize)
    requires { (from + T.BYTES * n ≤ length (bytes_of line.now)) × (at + n ≤ length out.old) }
    ensures { map T.value out.new ≡ sets (map T.value out.old) at (numbers T.BYTES n (drop from (bytes_of line.now))) }
{
    for i in 0..n {
        out[at + i] = T::read(line, from + T::BYTES * i);
    }
}

// Numbers as BYTES bytes each.
fn write_numbers<T: Number>(list: &[T], out: &mut [u8], at: usize)
    requires { at + 2 * T.BYTES * length list.now ≤ length out.old }
    ensures { out.new ≡ sets out.old at (text_of (bytes_each T.BYTES (map T.value list.now))) }
{
    let mut to = at;
    for x in list {
        write_number(x.to_u64(), T::BYTES, out, to);
        to += 2 * T::BYTES;
    }
}

// Numbers of two bytes.
pub fn read_u16s(line: &[u8], from: usize, n: usize, out: &mut [u32], at: usize)
    requires { (from + 2 * n ≤ length (bytes_of line.now)) × (at + n ≤ length out.old) }
    ensures { out.new ≡ sets out.old at (numbers 2 n (drop from (bytes_of line.now))) }
{
    read_numbers(line, from, n, out, at)
}

// Numbers of eight bytes, to the front.
pub fn read_u64s(line: &[u8], from: usize, n: usize, out: &mut [u64])
    requires { (from + 8 * n ≤ length (bytes_of line.now)) × (n ≤ length out.old) }
    ensures { out.new ≡ sets out.old 0 (numbers 8 n (drop from (bytes_of line.now))) }
{
    read_numbers(line, from, n, out, 0)
}

// Numbers as eight bytes each.
// kept: one call of the generic function, as is `write_u16s`, for those who call by width
pub fn write_u64s(list: &[u64], out: &mut [u8], at: usize)
    requires { at + 16 * length list.now ≤ length out.old }
    ensures { out.new ≡ sets out.old at (text_of (bytes_each 8 list.now)) }
{
    write_numbers(list, out, at)
}

// Numbers as two bytes each.
pub fn write_u16s(list: &[u32], out: &mut [u8], at: usize)
    requires { at + 4 * length list.now ≤ length out.old }
    ensures { out.new ≡ sets out.old at (text_of (bytes_each 2 list.now)) }
{
    write_numbers(list, out, at)
}
