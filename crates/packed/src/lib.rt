// Packed shots: docs/RULES.md, "Shots and rows". Shots one after another, a row of words each.
#![tactic(auto)]

ghost use Rattle.std.specs.Prelude.{◌≡◌, ◌+◌, ◌*◌, length};
ghost use Rattle.lists.specs.Lists.{below};
ghost use Rattle.bits.specs.Rows.{words};
ghost use Rattle.packed.specs.Packed.{check_length, check_padding, packed_of};

use codes::{Checked, Refusal};

// 8: the length is the product over whole numbers. A product that passes 2^64 is no slice's length.
#[tactic(auto, unfolding(crate::specs::Packed::check_length))]
fn validate_packed_len(data: &[u64], num_shots: usize, num_measurements: usize) -> Checked
    ensures { result ≡ check_length «data».now num_shots num_measurements }
{
    match num_shots.checked_mul(bits::words(num_measurements)) {
        Some(len) if data.len() == len => Ok(()),
        _ => Err(Refusal::Length),
    }
}

// 9: a last word above the tail mask has padding set. The lowest such shot is the answer.
#[tactic(auto, unfolding(bits::specs::Rows::words, lists::specs::Lists::below), using(crate::proofs::Shots::last_within, crate::proofs::Shots::padding_none, crate::proofs::Shots::padding_set, crate::proofs::Shots::padding_clear, crate::proofs::Shots::padding_end))]
fn validate_shot_major_padding(data: &[u64], num_shots: usize, num_measurements: usize) -> Checked
    requires { length «data».now ≡ num_shots * words num_measurements }
    ensures { result ≡ check_padding num_measurements «data».now (below num_shots) }
{
    let tail = num_measurements % 64;
    if tail == 0 {
        return Ok(());
    }
    let tail_mask = (1 << tail) - 1;
    let m_words = bits::words(num_measurements);
    let last = m_words - 1;
    for shot in 0..num_shots {
        if tail_mask < data[shot * m_words + last] {
            return Err(Refusal::Padding { shot });
        }
    }
    Ok(())
}

// Shots lent by the host: 1, then 8, then 9.
#[tactic(auto, unfolding(crate::specs::Packed::packed_of, crate::specs::Packed::check_packed), using(crate::proofs::Shots::length_accepted))]
pub fn try_from_shot_major(
    data: &[u64],
    num_shots: usize,
    num_measurements: usize,
) -> Result<usize, Refusal>
    ensures { result ≡ packed_of «data».now num_shots num_measurements }
{
    codes::check_shots(num_shots)?;
    validate_packed_len(data, num_shots, num_measurements)?;
    validate_shot_major_padding(data, num_shots, num_measurements)?;
    Ok(bits::words(num_measurements))
}
