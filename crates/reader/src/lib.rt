// docs/RULES.md, "Frames": a line read into tables. It is checked whole before anything is written.
#![tactic(auto)]

ghost use Rattle.std.specs.Prelude.{◌≡◌, true, ◌+◌, ◌<◌, ◌≤◌, length, take, drop};
ghost use Rattle.hex_text.specs.Hex.{bytes_of, number};
ghost use Rattle.frames.specs.Frames.{mechanism, component, kind_of, kind_byte, symptom_long, symptom_of, frame_of};
ghost use Rattle.frames.specs.Counts.{size_of, numbers_in, KindIn};
ghost use Rattle.reader.specs.Columns.{roomy, stored_frame, stored, Storable, LineRead};
ghost use Rattle.reader.specs.Lent.{columns_in, SameTables};

use codes::Refusal;
use counts::Row;
use frames::{Kind, State};

// The tables that lines are read into, each lent for writing.
#[derive(Drop)]
pub struct Tables<'a> {
    pub probability_bits: &'a mut [u64],
    pub counts: &'a mut [Row],
    pub entries: &'a mut [u32],
    pub shot: &'a mut [u64],
}

// The words of a shot: its row, of 256 detectors, then the true values of 128 observables.
pub const ROW_WORDS: usize = 4;

pub const SHOT_WORDS: usize = 6;

// 02: the next mechanism, with no components yet.
fn store_mechanism(line: &[u8], n: State, read: &mut Tables)
    requires { (symptom_long (drop 9 (bytes_of line.now)) ≡ true)
        × (n.mechanisms < length read.old.probability_bits.now) × (n.mechanisms < length read.old.counts.now)
        × (n.entries + size_of (symptom_of (drop 9 (bytes_of line.now))) ≤ length read.old.entries.now) }
    ensures stores { columns_in read.new
        ≡ stored_frame n (mechanism (number (take 8 (drop 1 (bytes_of line.now)))) (symptom_of (drop 9 (bytes_of line.now)))) (columns_in read.old) }
    ensures same { SameTables read.old read.new }
{
    let m = n.mechanisms;
    let at = n.entries;
    let d = hex_text::byte_at(line, 9);
    let o = hex_text::byte_at(line, 10);
    let size = d as usize + o as usize;
    read.probability_bits[m] = hex_text::u64_at(line, 1);
    read.counts[m].detectors = d;
    read.counts[m].observables = o;
    read.counts[m].components = 0;
    hex_text::read_u16s(line, 11, size, read.entries, at);
}

// 03: a component of the last mechanism.
fn store_component(line: &[u8], n: State, read: &mut Tables)
    requires { (symptom_long (drop 1 (bytes_of line.now)) ≡ true)
        × (0 < n.mechanisms) × (n.mechanisms ≤ length read.old.counts.now) × (n.components < length read.old.counts.now)
        × (n.entries + size_of (symptom_of (drop 1 (bytes_of line.now))) ≤ length read.old.entries.now) }
    ensures stores { columns_in read.new ≡ stored_frame n (component (symptom_of (drop 1 (bytes_of line.now)))) (columns_in read.old) }
    ensures same { SameTables read.old read.new }
{
    let last = n.mechanisms - 1;
    let c = n.components;
    let at = n.entries;
    let d = hex_text::byte_at(line, 1);
    let o = hex_text::byte_at(line, 2);
    let size = d as usize + o as usize;
    let more = read.counts[last].components.saturating_add(1);
    read.counts[last].components = more;
    read.counts[c].component_detectors = d;
    read.counts[c].component_observables = o;
    hex_text::read_u16s(line, 3, size, read.entries, at);
}

// A line that was answered by numbers: its frame into the tables.
#[tactic(auto, unfolding(crate::specs::Columns::stored_frame), using(crate::proofs::Reading::by_store))]
fn store(line: &[u8], kind: Kind, n: State, read: &mut Tables)
    requires { (kind_byte kind ≡ kind_of (bytes_of line.now)) × Storable n (bytes_of line.now) (columns_in read.old) }
    ensures stores { columns_in read.new ≡ stored n (frame_of n.detectors n.observables (bytes_of line.now)) (columns_in read.old) }
    ensures same { SameTables read.old read.new }
{
    match kind {
        Kind::Mechanism => store_mechanism(line, n, read),
        Kind::Component => store_component(line, n, read),
        Kind::Row => hex_text::read_u64s(
            line,
            1,
            bits::words(n.detectors),
            &mut read.shot[0..ROW_WORDS],
        ),
        Kind::Truth => hex_text::read_u64s(
            line,
            1,
            bits::words(n.observables),
            &mut read.shot[ROW_WORDS..],
        ),
        Kind::Header | Kind::End => {}
    }
}

// A place in every table for all that is held: as many mechanisms as components.
fn long_enough(read: &Tables) -> bool
    ensures { result ≡ roomy (columns_in read.now) }
{
    frames::MAX_MECHANISMS <= read.probability_bits.len()
        && frames::MAX_MECHANISMS <= read.counts.len()
        && frames::MAX_ENTRIES <= read.entries.len()
        && SHOT_WORDS <= read.shot.len()
}

// One line: its kind and the numbers of what is read with it, or a refusal, which writes nothing.
#[tactic(auto, using(crate::proofs::Reading::over_read))]
pub fn read_line(line: &[u8], n: State, read: &mut Tables) -> Result<(Kind, State), Refusal>
    ensures reads { LineRead line.now n (columns_in read.old) (numbers_in result) (columns_in read.new) }
    ensures kind { KindIn (bytes_of line.now) result }
    ensures same { SameTables read.old read.new }
{
    if frames::over(n) {
        return Err(Refusal::Limit);
    }
    if !long_enough(read) {
        return Err(Refusal::Short);
    }
    let (kind, next) = frames::next_line(line, n)?;
    store(line, kind, n, read);
    Ok((kind, next))
}
