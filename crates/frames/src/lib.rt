// docs/RULES.md, "Frames": what a line says, and the answer to it by the numbers of what was read.
#![tactic(auto)]

ghost use Rattle.std.specs.Prelude.{Err, ◌≡◌, false, cond, ◌+◌, ◌≤◌, length, drop};
ghost use Rattle.hex_text.specs.Hex.{bytes_of};
ghost use Rattle.frames.specs.Frames.{KindOfByte, kind_byte, kind_of, symptom_long, symptom_of, frame_of};
ghost use Rattle.codes.specs.declared.Refusal.TheVariants as refusal;
ghost use Rattle.frames.specs.Input.{start, in_order, at_end};
ghost use Rattle.frames.specs.Counts.{counts_of, size_of, over_counts, capped, frame_line, line_of, numbers_in, KindIn};

use codes::{Checked, Refusal};

// Which kinds of frame may come.
#[derive(Clone, Copy)]
pub enum Stage {
    // 01
    Nothing,
    // 02, 03 after a 02, 04
    InModel,
    // 05
    BetweenShots,
    // 06
    AfterRow,
}

// What a frame says; its first byte, from 1 on in this order.
#[derive(Clone, Copy, Debug, PartialEq, Eq)]
pub enum Kind {
    Header,
    Mechanism,
    Component,
    End,
    Row,
    Truth,
}

impl TryFrom<u8> for Kind {
    type Error = Refusal;

    ghost try_from_gives = { KindOfByte };

    fn try_from(byte: u8) -> Result<Kind, Refusal> {
        match byte {
            1 => Ok(Kind::Header),
            2 => Ok(Kind::Mechanism),
            3 => Ok(Kind::Component),
            4 => Ok(Kind::End),
            5 => Ok(Kind::Row),
            6 => Ok(Kind::Truth),
            _ => Err(Refusal::Frame),
        }
    }
}

// The numbers of what was read.
#[derive(Clone, Copy)]
pub struct State {
    pub stage: Stage,
    pub detectors: usize,
    pub observables: usize,
    pub mechanisms: usize,
    pub components: usize,
    pub entries: usize,
}

// What is held, and a place of the tables for each.
pub const MAX_DETECTORS: usize = 256;

pub const MAX_MECHANISMS: usize = 1024;

pub const MAX_COMPONENTS: usize = 1024;

pub const MAX_ENTRIES: usize = 8192;

// Before the first line.
#[tactic(auto, unfolding(crate::specs::Input::start, dem::specs::Tables::tables_of))]
pub fn start() -> State
    ensures { result ≡ counts_of start }
{
    State {
        stage: Stage::Nothing,
        detectors: 0,
        observables: 0,
        mechanisms: 0,
        components: 0,
        entries: 0,
    }
}

// ---- the numbers

// More than is held.
pub fn over(n: State) -> bool
    ensures { result ≡ over_counts n }
{
    MAX_DETECTORS < n.detectors
        || codes::MAX_OBSERVABLES < n.observables
        || MAX_MECHANISMS < n.mechanisms
        || MAX_COMPONENTS < n.components
        || MAX_ENTRIES < n.entries
}

// 3 before 1: a line that is right is held or not.
fn judged(right: bool, n: State) -> Result<State, Refusal>
    ensures { result ≡ cond right (capped n) (Err refusal.Frame) }
{
    match (right, over(n)) {
        (false, _) => Err(Refusal::Frame),
        (true, true) => Err(Refusal::Limit),
        (true, false) => Ok(n),
    }
}

// Whether a line of this kind may come at this stage: a 03 only after a 02.
#[tactic(auto, unfolding(crate::specs::Input::in_order))]
fn in_order(stage: Stage, mechanisms: usize, kind: Kind) -> bool
    ensures { result ≡ in_order stage mechanisms (kind_byte kind) }
{
    match stage {
        Stage::Nothing => kind == Kind::Header,
        Stage::InModel => match kind {
            Kind::Mechanism | Kind::End => true,
            Kind::Component => 0 < mechanisms,
            Kind::Header | Kind::Row | Kind::Truth => false,
        },
        Stage::BetweenShots => kind == Kind::Row,
        Stage::AfterRow => kind == Kind::Truth,
    }
}

// ---- a line against the numbers

// 01.
#[tactic(auto, unfolding(crate::specs::Counts::count_after), using(crate::proofs::FrameKinds::by_kind))]
fn read_header(line: &[u8], n: State) -> Result<State, Refusal>
    requires { kind_of (bytes_of line.now) ≡ 1 }
    ensures { result ≡ frame_line n (frame_of n.detectors n.observables (bytes_of line.now)) }
{
    let count = hex_text::byte_count(line);
    if count < 5 {
        return Err(Refusal::Frame);
    }
    let detectors = hex_text::u16_at(line, 1) as usize;
    let observables = hex_text::u16_at(line, 3) as usize;
    judged(
        count == 5,
        State {
            stage: Stage::InModel,
            detectors,
            observables,
            ..n
        },
    )
}

// How many entries two lists at byte i have.
#[tactic(auto, using(crate::proofs::FrameKinds::size_is))]
fn symptom_size(line: &[u8], i: usize) -> usize
    requires { (i ≤ 9) × (i + 2 ≤ length (bytes_of line.now)) }
    ensures { (result ≡ size_of (symptom_of (drop i (bytes_of line.now)))) × (result ≤ 510) }
{
    hex_text::byte_at(line, i) as usize + hex_text::byte_at(line, i + 1) as usize
}

// The numbers with two lists more, which stand at byte i and end with the line.
#[tactic(auto, using(crate::proofs::FrameKinds::by_symptom))]
fn read_symptom(line: &[u8], i: usize, n: State) -> Result<State, Refusal>
    requires { (i ≤ 9) × (n.entries ≤ 8192) }
    ensures { result ≡ cond (symptom_long (drop i (bytes_of line.now)))
        (capped record {
          stage = n.stage;
          detectors = n.detectors;
          observables = n.observables;
          mechanisms = n.mechanisms;
          components = n.components;
          entries = n.entries + size_of (symptom_of (drop i (bytes_of line.now)));
        })
        (Err refusal.Frame) }
{
    let count = hex_text::byte_count(line);
    if count < i + 2 {
        return Err(Refusal::Frame);
    }
    let size = symptom_size(line, i);
    judged(
        count == i + 2 + 2 * size,
        State {
            entries: n.entries + size,
            ..n
        },
    )
}

// A frame of any kind.
#[tactic(auto, unfolding(crate::specs::Counts::count_after, bits::specs::Rows::words), using(crate::proofs::FrameKinds::by_kind))]
fn read_frame(line: &[u8], kind: Kind, n: State) -> Result<State, Refusal>
    requires { (kind_of (bytes_of line.now) ≡ kind_byte kind) × (over_counts n ≡ false) }
    ensures { result ≡ frame_line n (frame_of n.detectors n.observables (bytes_of line.now)) }
{
    let count = hex_text::byte_count(line);
    match kind {
        Kind::Header => read_header(line, n),
        Kind::Mechanism => read_symptom(
            line,
            9,
            State {
                stage: Stage::InModel,
                mechanisms: n.mechanisms + 1,
                ..n
            },
        ),
        Kind::Component => read_symptom(
            line,
            1,
            State {
                stage: Stage::InModel,
                components: n.components + 1,
                ..n
            },
        ),
        Kind::End => judged(
            count == 1,
            State {
                stage: Stage::BetweenShots,
                ..n
            },
        ),
        Kind::Row => judged(
            count == 1 + 8 * bits::words(n.detectors),
            State {
                stage: Stage::AfterRow,
                ..n
            },
        ),
        Kind::Truth => judged(
            count == 1 + 8 * bits::words(n.observables),
            State {
                stage: Stage::BetweenShots,
                ..n
            },
        ),
    }
}

// The answer to a line: digits, order, kind and length (3), then what is held (1). Its kind, with the numbers.
#[tactic(auto, unfolding(crate::specs::Counts::line_of), using(crate::proofs::FrameKinds::no_kind))]
pub fn next_line(line: &[u8], n: State) -> Result<(Kind, State), Refusal>
    requires { over_counts n ≡ false }
    ensures answers { numbers_in result ≡ line_of n line.now }
    ensures kind { KindIn (bytes_of line.now) result }
{
    if !hex_text::is_hex(line) || hex_text::byte_count(line) == 0 {
        return Err(Refusal::Frame);
    }
    let kind = Kind::try_from(hex_text::byte_at(line, 0))?;
    if !in_order(n.stage, n.mechanisms, kind) {
        return Err(Refusal::Frame);
    }
    let next = read_frame(line, kind, n)?;
    Ok((kind, next))
}

// The end of the input: before 04 or after a 05 it is 3.
pub fn at_end(n: State) -> Checked
    ensures { result ≡ at_end n.stage }
{
    match n.stage {
        Stage::BetweenShots => Ok(()),
        Stage::Nothing | Stage::InModel | Stage::AfterRow => Err(Refusal::Frame),
    }
}
