// The first cover of a mechanism of over two detectors by the kept mechanisms.
#![tactic(auto)]

ghost use Rattle.std.specs.Prelude.{◌≡◌, true, ◌&&◌, ℕ, ◌-◌, ◌<◌, ◌≤◌, length, get_or, eqb};
ghost use Rattle.dem.specs.Model.{list_fits};
ghost use Rattle.dem.specs.Cover.{first_cover};
ghost use Rattle.cover.specs.Kept.{Chains};
ghost use Rattle.cover.specs.Masks.{word_of, mask_within, Rises, place_of, fits, cover_of};
ghost use Rattle.cover.specs.Search.{previous, highest, Outcome, Answered, Least, Gathered};
ghost use Rattle.cover.specs.Lent.{detectors_of, observables_of, symptom_of, kept_of, HasDetectors, HasLists, DetectorsBy, fresh_of, RoomBy, MergedBy, NumberedBy, WordedBy, HasWords, equal_in, fresh_in, RoomIn, CompactBy, CompactedBy, GivenBy, SameWords, SameCandidates};

// No mechanism.
// kept: the chains are in lent tables of u32, whose layout C shares, so none is a number in them, above that of every mechanism
const NOWHERE: u32 = 4294967295;

// The lists of mechanisms in tables: where each begins in the entries, and the lengths of its two lists.
// Each slice has a lifetime of its own: of slices lent for writing, that are lent here for a call, the checker then knows that it left them as they were.
#[derive(Clone, Copy)]
pub struct Lists<'s, 'd, 'o, 'e> {
    pub starts: &'s [u32],
    pub detector_counts: &'d [u8],
    pub observable_counts: &'o [u8],
    pub entries: &'e [u32],
}

// The kept mechanisms by their first detectors.
#[derive(Clone, Copy)]
pub struct Index<'a> {
    pub kept: usize,
    pub first_of: &'a [u32],
    pub next_of: &'a [u32],
}

// The candidates for a cover.
#[derive(Clone, Copy)]
pub struct Candidates<'a> {
    pub numbers: &'a [u32],
    pub masks: &'a [u16],
    pub words0: &'a [u64],
    pub words1: &'a [u64],
    pub earlier: &'a [u32],
}

// The tables that they are gathered in.
// kept: C lends a slice for each column
#[derive(Drop)]
pub struct CandidateTables<'a> {
    pub numbers: &'a mut [u32],
    pub masks: &'a mut [u16],
    pub words0: &'a mut [u64],
    pub words1: &'a mut [u64],
    pub earlier: &'a mut [u32],
}

// Whether c is not empty and lies within m.
#[tactic(auto, unfolding(crate::specs::Masks::fits))]
fn fits_in(m: u16, c: u16) -> bool
    ensures { result ≡ fits m c }
{
    c != 0 && m & c == c
}

// Whether a candidate is tried: it fits, and it has no earlier equal.
// kept: the earlier equals are in a lent table of u32, whose layout C shares, so none is a number in it, 0
fn tries(before: u32, m: u16, c: u16) -> bool
    ensures { result ≡ (eqb before 0 && fits m c) }
{
    before == 0 && fits_in(m, c)
}

// The first cover of the mask and the words by the candidates from start on that have no earlier equal, written from depth on.
fn find_cover(
    candidates: &Candidates,
    mask: u16,
    word0: u64,
    word1: u64,
    start: usize,
    chosen: &mut [u32],
    depth: usize,
) -> Option<usize>
    requires { RoomBy candidates.now mask chosen.old depth }
    ensures { Outcome (cover_of (fresh_of candidates.now (length candidates.now.masks.now - start) start) mask word0 word1) depth chosen.old result chosen.new }
{
    if mask == 0 {
        return if word0 == 0 && word1 == 0 {
            Some(depth)
        } else {
            None
        };
    }
    let masks = candidates.masks;
    let earlier = candidates.earlier;
    for at in start..masks.len() {
        let c = masks[at];
        if tries(earlier[at], mask, c) {
            let left0 = word0 ^ candidates.words0[at];
            let left1 = word1 ^ candidates.words1[at];
            let r = find_cover(
                candidates,
                mask ^ c,
                left0,
                left1,
                at + 1,
                chosen,
                depth + 1,
            );
            if let Some(n) = r {
                chosen[depth] = candidates.numbers[at];
                return Some(n);
            }
        }
    }
    None
}

// ---- chains by first detector

// The chains of the kept mechanisms, from the last one down.
pub fn index_kept(lists: &Lists, kept: usize, first_of: &mut [u32], next_of: &mut [u32])
    requires { DetectorsBy lists.now kept (length first_of.old) × (kept ≤ length next_of.old) }
    ensures { Chains (detectors_of lists.now) kept first_of.new next_of.new }
{
    first_of.fill(NOWHERE);
    for k in (0..kept).rev() {
        if 0 < lists.detector_counts[k] {
            let start = lists.starts[k] as usize;
            let d = lists.entries[start] as usize;
            next_of[k] = first_of[d];
            first_of[d] = k as u32;
        }
    }
}

// ---- masks and words

// Where x stands in ds.
fn place(ds: &[u32], x: u32) -> Option<usize>
    ensures { result ≡ place_of x ds.now }
{
    ds.iter().position(|d| *d == x)
}

// The mask of xs over ds, where each entry of xs is in ds.
fn mask_within(ds: &[u32], xs: &[u32]) -> Option<u16>
    requires { (length ds.now ≤ 16) × Rises 0 ds.now }
    ensures { result ≡ mask_within ds.now xs.now }
{
    let mut mask: u16 = 0;
    for x in xs {
        let j = place(ds, *x)?;
        mask |= 1 << j;
    }
    Some(mask)
}

// The word of the observables of xs from first on.
fn word_of(xs: &[u32], first: u32) -> u64
    ensures { result ≡ word_of first xs.now }
{
    let mut w: u64 = 0;
    for x in xs {
        if first <= *x && *x - first < 64 {
            w |= 1 << (*x - first);
        }
    }
    w
}

// ---- the candidates

// The head of each detector's chain.
#[tactic(auto, using(crate::proofs::Steps::fits_at, crate::proofs::Steps::fits_length))]
fn heads_of(detectors: &[u32], first_of: &[u32]) -> [u32; 16]
    requires { list_fits (length first_of.now) detectors.now ≡ true }
    ensures { (i : ℕ) → i < length detectors.now → get_or result i 0 ≡ get_or first_of.now (get_or detectors.now i 0) 0 }
{
    // kept: a head is none as it is in the chains; so one comparison finds the lowest, and none is the lowest only where all are
    let mut heads = [NOWHERE; 16];
    for (i, d) in detectors.iter().enumerate() {
        heads[i] = first_of[*d as usize];
    }
    heads
}

// The place of the lowest of the first n heads.
fn lowest_head(heads: &[u32; 16], n: usize) -> usize
    requires { (0 < n) × (n ≤ 16) }
    ensures { Least heads.now n result }
{
    let mut at = 0;
    for i in 1..n {
        if heads[i] < heads[at] {
            at = i;
        }
    }
    at
}

// The mask of kept mechanism k over ds, where its detectors are in ds.
fn mask_of(lists: &Lists, k: usize, ds: &[u32]) -> Option<u16>
    requires { (length ds.now ≤ 16) × Rises 0 ds.now × HasDetectors lists.now k }
    ensures { result ≡ mask_within ds.now (detectors_of lists.now k) }
{
    let start = lists.starts[k] as usize;
    let end = start + lists.detector_counts[k] as usize;
    mask_within(ds, &lists.entries[start..end])
}

// The candidates for a cover of ds, by merging the chains of its detectors: their numbers and masks, in ascending order.
fn gather(lists: &Lists, index: &Index, ds: &[u32], numbers: &mut [u32], masks: &mut [u16]) -> usize
    requires { MergedBy lists.now index.now ds.now numbers.old masks.old }
    ensures { Gathered (detectors_of lists.now) index.now.kept ds.now result numbers.new masks.new }
{
    let mut heads = heads_of(ds, index.first_of);
    let mut count = 0;
    let mut next = 0;
    // kept: `next` goes from head to head, as no index does; a `for` over 0..kept by turns would look for one more head where the last kept mechanism was one and some other was none
    while next < index.kept {
        let lowest = lowest_head(&heads, ds.len());
        let head = heads[lowest];
        if head == NOWHERE {
            return count;
        }
        let k = head as usize;
        heads[lowest] = index.next_of[k];
        next = k + 1;
        if let Some(mask) = mask_of(lists, k, ds) {
            numbers[count] = head;
            masks[count] = mask;
            count += 1;
        }
    }
    count
}

// The word from first on of the observables of kept mechanism k.
fn word_at(lists: &Lists, k: usize, first: u32) -> u64
    requires { HasLists lists.now k }
    ensures { result ≡ word_of first (observables_of lists.now k) }
{
    let start = lists.starts[k] as usize + lists.detector_counts[k] as usize;
    let end = start + lists.observable_counts[k] as usize;
    word_of(&lists.entries[start..end], first)
}

// The two words of each of the candidates.
fn fill_words(lists: &Lists, count: usize, c: &mut CandidateTables)
    requires { NumberedBy lists.now count c.old }
    ensures worded { WordedBy (observables_of lists.now) count c.new }
    ensures kept { (c.new.numbers.now ≡ c.old.numbers.now) × (c.new.masks.now ≡ c.old.masks.now) }
    ensures same { SameCandidates c.old c.new }
{
    for i in 0..count {
        let k = c.numbers[i] as usize;
        c.words0[i] = word_at(lists, k, 0);
        c.words1[i] = word_at(lists, k, 64);
    }
}

// ---- repeated candidates

// Whether candidates i and j have equal masks and words.
// kept: they stand in three columns, so there is no value of theirs that could derive it
#[tactic(auto, unfolding(crate::specs::Search::equal_at))]
fn equal_at(c: &CandidateTables, i: usize, j: usize) -> bool
    requires { (i < j) × HasWords c.now j }
    ensures { result ≡ equal_in c.now i j }
{
    c.masks[i] == c.masks[j] && c.words0[i] == c.words0[j] && c.words1[i] == c.words1[j]
}

// The place of the last candidate before j that equals it.
fn earlier_equal(c: &CandidateTables, j: usize) -> Option<usize>
    requires { HasWords c.now j }
    ensures { result ≡ highest (λ i. equal_in c.now i j) j }
{
    for i in (0..j).rev() {
        if equal_at(c, i, j) {
            return Some(i);
        }
    }
    None
}

// That place plus one, for each of the candidates; 0 where there is none.
fn mark_earlier(count: usize, c: &mut CandidateTables)
    requires { (count ≤ 16384) × ((j : ℕ) → j < count → HasWords c.old j) × (count ≤ length c.old.earlier.now) }
    ensures marked { (j : ℕ) → j < count → get_or c.new.earlier.now j 0 ≡ previous (λ i. equal_in c.old i j) j }
    ensures kept { SameWords c.old c.new }
    ensures same { SameCandidates c.old c.new }
{
    for j in 0..count {
        c.earlier[j] = match earlier_equal(c, j) {
            Some(i) => i as u32 + 1,
            None => 0,
        };
    }
}

// ---- the first cover

// The candidates for a cover of ds, each with its words and its earlier equal.
fn compact(lists: &Lists, index: &Index, ds: &[u32], c: &mut CandidateTables) -> usize
    requires { CompactBy lists.now index.now ds.now c.old }
    ensures made { CompactedBy (symptom_of lists.now) index.now.kept ds.now result c.new }
    ensures same { SameCandidates c.old c.new }
{
    let count = gather(lists, index, ds, c.numbers, c.masks);
    fill_words(lists, count, c);
    mark_earlier(count, c);
    count
}

// The first cover of the mask and the words by the first n candidates of the tables.
fn find_first(
    c: &CandidateTables,
    n: usize,
    mask: u16,
    word0: u64,
    word1: u64,
    chosen: &mut [u32],
) -> Option<usize>
    requires { RoomIn n c.now mask chosen.old }
    ensures { Outcome (cover_of (fresh_in n c.now) mask word0 word1) 0 chosen.old result chosen.new }
{
    let numbers = &*c.numbers;
    let masks = &*c.masks;
    let words0 = &*c.words0;
    let words1 = &*c.words1;
    let earlier = &*c.earlier;
    let candidates = Candidates {
        numbers: &numbers[..n],
        masks: &masks[..n],
        words0: &words0[..n],
        words1: &words1[..n],
        earlier: &earlier[..n],
    };
    find_cover(&candidates, mask, word0, word1, 0, chosen, 0)
}

// The first cover of a mechanism by the kept mechanisms, its members at the front of chosen.
pub fn partition_cover(
    lists: &Lists,
    index: &Index,
    detectors: &[u32],
    observables: &[u32],
    c: &mut CandidateTables,
    chosen: &mut [u32],
) -> Option<usize>
    requires { GivenBy lists.now index.now detectors.now observables.now c.old chosen.old }
    ensures found { Answered (first_cover (kept_of lists.now index.now.kept) (record { detectors = detectors.now; observables = observables.now })) chosen.old result chosen.new }
    ensures same { SameCandidates c.old c.new }
{
    let n = compact(lists, index, detectors, c);
    let mask = mask_within(detectors, detectors).unwrap();
    let word0 = word_of(observables, 0);
    let word1 = word_of(observables, 64);
    find_first(c, n, mask, word0, word1, chosen)
}
