// docs/RULES.md, "Frames" and "The rate": the lines that are written. Each goes to the front of a slice that is long enough, and the answer is its length.
#![tactic(auto)]

ghost use Rattle.std.specs.Prelude.{◌≡◌, ◌++◌, ◌+◌, ◌*◌, ◌≤◌, length, drop};
ghost use Rattle.replies.specs.Replies.{line_of, row_reply, list_reply, rate_reply};
ghost use Rattle.std.specs.Float.{binary64};
ghost use Rattle.std.specs.Float.Ieee.{to_bits};
ghost use Rattle.dem.specs.Tables.{written};
ghost use Rattle.failures.specs.Failures.{rate_of};
ghost use Rattle.replies.specs.Last.{refusal_text, rate_text, last_text};

use codes::{Checked, Refusal};

// 85: the row of a shot.
pub fn write_row(row: &[u64], out: &mut [u8]) -> usize
    requires { 3 + 16 * length row.now ≤ length out.old }
    ensures { (result ≡ length (line_of (row_reply row.now)))
        × (out.new ≡ line_of (row_reply row.now) ++ drop (length (line_of (row_reply row.now))) out.old) }
{
    let end = 2 + 16 * row.len();
    hex_text::write_byte(0x85, out, 0);
    hex_text::write_u64s(row, out, 2);
    out[end] = b'\n';
    end + 1
}

// 86: the list of a shot.
pub fn write_list(edges: &[u32], out: &mut [u8]) -> usize
    requires { 7 + 4 * length edges.now ≤ length out.old }
    ensures { (result ≡ length (line_of (list_reply edges.now)))
        × (out.new ≡ line_of (list_reply edges.now) ++ drop (length (line_of (list_reply edges.now))) out.old) }
{
    let end = 6 + 4 * edges.len();
    hex_text::write_byte(0x86, out, 0);
    hex_text::write_number(edges.len() as u64, 2, out, 2);
    hex_text::write_u16s(edges, out, 6);
    out[end] = b'\n';
    end + 1
}

// 8f: the shots, the failures and the bits of the rate.
fn rate_line(shots: u64, failures: u64, rate: u64, out: &mut [u8]) -> usize
    requires { 35 ≤ length out.old }
    ensures { (result ≡ length (line_of (rate_reply shots failures rate)))
        × (out.new ≡ line_of (rate_reply shots failures rate) ++ drop (length (line_of (rate_reply shots failures rate))) out.old) }
{
    hex_text::write_byte(0x8f, out, 0);
    hex_text::write_number(shots, 4, out, 2);
    hex_text::write_number(failures, 4, out, 10);
    hex_text::write_number(rate, 8, out, 18);
    out[34] = b'\n';
    35
}

// The bits of the rate: both counts are below 2^32, so neither loses a digit, and the quotient is no NaN.
fn rate_bits(observables: usize, failures: u32, shots: u32) -> u64
    requires { failures ≤ shots }
    ensures { result ≡ to_bits binary64 (rate_of observables failures shots) }
{
    if shots == 0 || observables == 0 {
        return 0;
    }
    f64::to_bits((failures as f64) / (shots as f64))
}

// ff: the code of a refusal.
pub fn write_refusal(r: Refusal, out: &mut [u8]) -> usize
    requires { 5 ≤ length out.old }
    ensures { (result ≡ length (refusal_text r)) × (out.new ≡ written (refusal_text r) out.old) }
{
    hex_text::write_byte(0xff, out, 0);
    hex_text::write_byte(r.code(), out, 2);
    out[4] = b'\n';
    5
}

// 8f.
#[tactic(auto, unfolding(crate::specs::Last::rate_text))]
fn write_rate(observables: usize, failures: u32, shots: u32, out: &mut [u8]) -> usize
    requires { (failures ≤ shots) × (35 ≤ length out.old) }
    ensures { (result ≡ length (rate_text observables failures shots)) × (out.new ≡ written (rate_text observables failures shots) out.old) }
{
    let bits = rate_bits(observables, failures, shots);
    rate_line(shots as u64, failures as u64, bits, out)
}

// 8f, or the refusal of an input that ends too early.
#[tactic(auto, unfolding(crate::specs::Last::last_text))]
pub fn write_last(
    end: Checked,
    observables: usize,
    failures: u32,
    shots: u32,
    out: &mut [u8],
) -> usize
    requires { (failures ≤ shots) × (35 ≤ length out.old) }
    ensures { (result ≡ length (last_text end observables failures shots)) × (out.new ≡ written (last_text end observables failures shots) out.old) }
{
    match end {
        Err(r) => write_refusal(r, out),
        Ok(()) => write_rate(observables, failures, shots, out),
    }
}
