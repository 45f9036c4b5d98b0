// Runs packed::try_from_shot_major, model_tables::check_model and marker::mark on the cases of standard input. Writes a line for each: its name and the answer.
//
// A case is a line of fields with bars between them: the crate that is called, the name of the case, and numbers.
//   packed|NAME|shots width length|words
//   dem|NAME|detectors observables detector_count component_count length|probability|entries
//   marker|NAME|detectors observables edges width|lengths|weights|edge_u|edge_v|edge_obs|shot|list
// The lengths are those of edge_u, edge_v, edge_weight, edge_obs, shot, list, row, marks and wrong. A slice is lent up to its length.
// Entries that are not written are 0, in edge_v the boundary. Two weights are written, the others are 1.
// A number is decimal. A float is a sign, 0 or 1 for minus, and a quotient: 0 1/4 is 0.25, 1 0/1 is minus zero, 0 1/0 is infinity, 0 0/0 is NaN.
// The model of `dem` is one mechanism, its components have no entries. Before `mark` each word of the row is 99, and each bit of the scratch is set.
#![tactic(auto)]

ghost use Rattle.std.specs.Prelude.{◌≤◌, ◌<◌, IfOk, length};

use codes::{Checked, Refusal};
use dem::Model;
use lent_graph::Graph;
use marking::Marking;
use std::io;
use std::io::Read;

const ONES: u64 = 18446744073709551615;

// Field f of a line, empty where there is none.
fn field(line: &[u8], f: usize) -> &[u8] {
    line.split(|b| *b == b'|').nth(f).unwrap_or(&[])
}

// The entry that a byte belongs to: a byte below the digits begins the next, up to the last.
fn entry_of(n: usize, b: u8, last: usize) -> usize
    requires { n ≤ last }
    ensures { result ≤ last }
{
    if b < b'0' && n < last { n + 1 } else { n }
}

// A number with a digit more; 0 for a byte below the digits, and for a number with too many.
fn longer(n: u64, b: u8) -> u64 {
    match n.checked_mul(10) {
        Some(tens) if b'0' <= b => tens.wrapping_add((b % 16) as u64),
        _ => 0,
    }
}

fn low(n: u64) -> u32 {
    (n % 4294967296) as u32
}

// The numbers of field f, by what an entry holds of each, over those of a table.
fn entries<T: Copy, Held: Fn(u64) -> T, const N: usize>(
    line: &[u8],
    f: usize,
    table: [T; N],
    held: Held,
) -> [T; N]
    requires { (0 < N) × Held.IsAlwaysCallable held }
{
    let mut out = table;
    let mut x = 0;
    let mut n = 0;
    for b in field(line, f) {
        n = entry_of(n, *b, N - 1);
        x = longer(x, *b);
        out[n] = held(x);
    }
    out
}

// The numbers of field f.
fn numbers(line: &[u8], f: usize) -> [u64; 256] {
    entries(line, f, [0; 256], |n| n)
}

// Those of detectors or of edges, over those of a table.
fn ends(line: &[u8], f: usize, table: [u32; 16384]) -> [u32; 16384] {
    entries(line, f, table, low)
}

// Number j of field f.
fn value(line: &[u8], f: usize, j: usize) -> usize {
    match numbers(line, f).get(j) {
        Some(n) => *n as usize,
        None => 0,
    }
}

// A length, or the most that it may be.
fn slice_length(line: &[u8], f: usize, j: usize, most: usize) -> usize
    ensures { result ≤ most }
{
    value(line, f, j).min(most)
}

fn quotient(sign: usize, a: u32, b: u32) -> f64 {
    let q = (a as f64) / (b as f64);
    if sign == 1 { -q } else { q }
}

// Float j of field f.
fn float(line: &[u8], f: usize, j: usize) -> f64 {
    if 64 < j {
        return 0.0;
    }
    let sign = value(line, f, 3 * j);
    let a = value(line, f, 3 * j + 1);
    let b = value(line, f, 3 * j + 2);
    quotient(sign, low(a as u64), low(b as u64))
}

// The two weights of field f, and ones after them.
fn weights(line: &[u8], f: usize) -> [f64; 16384] {
    let mut out = [1.0; 16384];
    out[0] = float(line, f, 0);
    out[1] = float(line, f, 1);
    out
}

// The code, and the edge or the shot where it names one.
fn say_refusal(out: &impl Print, r: Refusal, named: &str) -> io::Result<()> {
    print!(out; ": code {}", r.code())?;
    match r {
        Refusal::Probability { at } | Refusal::Index { at } | Refusal::Padding { shot: at } =>
            print!(out; "{named} {at}"),
        _ => Ok(()),
    }
}

fn say_packed(out: &impl Print, p: Result<usize, Refusal>) -> io::Result<()> {
    match p {
        Ok(m_words) => print!(out; ": m_words {m_words}"),
        Err(r) => say_refusal(out, r, ", shot"),
    }
}

fn run_packed(out: &impl Print, line: &[u8]) -> io::Result<()> {
    let data = numbers(line, 3);
    let shots = value(line, 2, 0);
    let width = value(line, 2, 1);
    let n = slice_length(line, 2, 2, 256);
    print!(out; ", shots {shots}, width {width}, words {n}")?;
    say_packed(out, packed::try_from_shot_major(&data[0..n], shots, width))
}

// The code, and 0 where the model passes.
fn say_checked(out: &impl Print, c: Checked) -> io::Result<()> {
    match c {
        Ok(()) => print!(out; ": 0"),
        Err(r) => print!(out; ": {}", r.code()),
    }
}

// A model of one mechanism.
fn check(
    detectors: usize,
    observables: usize,
    probability: f64,
    detector_count: u8,
    component_count: u8,
    entries: &[u32],
) -> Checked {
    let none = [0u8; 17];
    let empty: &[u8] = &none;
    let model = Model {
        detectors,
        observables,
        mechanisms: 1,
        probability: &[probability],
        detector_counts: &[detector_count],
        observable_counts: &[0],
        component_counts: &[component_count],
        component_detectors: empty,
        component_observables: empty,
        entries,
    };
    model_tables::check_model(&model)
}

fn small(line: &[u8], j: usize) -> u8 {
    (value(line, 2, j) % 256) as u8
}

fn run_dem(out: &impl Print, line: &[u8]) -> io::Result<()> {
    let entries = ends(line, 4, [0; 16384]);
    let n = slice_length(line, 2, 4, 16384);
    let checked = check(
        value(line, 2, 0),
        value(line, 2, 1),
        float(line, 3, 0),
        small(line, 2),
        small(line, 3),
        &entries[0..n],
    );
    say_checked(out, checked)
}

fn say_marking(out: &impl Print, a: Result<Marking, Refusal>) -> io::Result<()> {
    match a {
        Ok(Marking::Pass) => print!(out; ": pass"),
        Ok(Marking::Differs { detector }) => print!(out; ": differs at {detector}"),
        Err(r) => say_refusal(out, r, " at"),
    }
}

// The first so many words of the row and of the scratch are lent.
fn mark(
    out: &impl Print,
    g: &Graph,
    shot: &[u64],
    width: usize,
    list: &[u32],
    r: usize,
    m: usize,
    w: usize,
) -> io::Result<()>
    requires { (r ≤ 3) × (m ≤ 256) × (w ≤ 64) }
{
    let mut row = [99u64; 3];
    let mut marks = [ONES; 256];
    let mut wrong = [ONES; 64];
    let marking = marker::mark(
        g,
        shot,
        width,
        list,
        &mut row[0..r],
        &mut marks[0..m],
        &mut wrong[0..w],
    );
    say_marking(out, marking)?;
    print!(out; ", row {} {} {}", row[0], row[1], row[2])
}

// The shot and its width, the list, and the lengths of the row and of the scratch.
fn run_shot(out: &impl Print, line: &[u8], g: &Graph) -> io::Result<()> {
    let shot = numbers(line, 8);
    let list = ends(line, 9, [0; 16384]);
    let s = slice_length(line, 3, 4, 256);
    let n = slice_length(line, 3, 5, 16384);
    mark(
        out,
        g,
        &shot[0..s],
        value(line, 2, 3),
        &list[0..n],
        slice_length(line, 3, 6, 3),
        slice_length(line, 3, 7, 256),
        slice_length(line, 3, 8, 64),
    )
}

// The graph.
fn run_marker(out: &impl Print, line: &[u8]) -> io::Result<()> {
    let edge_weight = weights(line, 4);
    let edge_u = ends(line, 5, [0; 16384]);
    let edge_v = ends(line, 6, [lent_graph::BOUNDARY; 16384]);
    let edge_obs = numbers(line, 7);
    let u = slice_length(line, 3, 0, 16384);
    let v = slice_length(line, 3, 1, 16384);
    let w = slice_length(line, 3, 2, 16384);
    let o = slice_length(line, 3, 3, 256);
    let g = Graph {
        detectors: value(line, 2, 0),
        observables: value(line, 2, 1),
        edges: value(line, 2, 2),
        edge_u: &edge_u[0..u],
        edge_v: &edge_v[0..v],
        edge_weight: &edge_weight[0..w],
        edge_obs: &edge_obs[0..o],
    };
    run_shot(out, line, &g)
}

fn run_case(out: &impl Print, line: &[u8]) -> io::Result<()> {
    let Some(kind) = line.first() else {
        return Ok(());
    };
    out.write_all(field(line, 1))?;
    match *kind {
        b'p' => run_packed(out, line)?,
        b'd' => run_dem(out, line)?,
        b'm' => run_marker(out, line)?,
        _ => {}
    }
    println!(out)
}

// Line after line.
fn run(out: &impl Print, text: &[u8]) -> io::Result<()> {
    for line in text.split(|b| *b == b'\n') {
        run_case(out, line)?;
    }
    Ok(())
}

// Reads to the end of the input, or until the text is full; how many bytes there are.
fn read_full(from: &mut impl Read, text: &mut [u8]) -> io::Result<usize>
    ensures { IfOk result (λ n. n ≤ length text.new) }
{
    let mut n = 0;
    for _ in 0..u64::MAX {
        let got = from.read(&mut text[n..])?;
        if got == 0 {
            break;
        }
        n += got;
    }
    Ok(n)
}

fn main(rt: HostRuntime) -> io::Result<()> {
    let mut text = [0; 65536];
    let n = read_full(&mut rt.stdin(), &mut text)?;
    run(&rt, &text[0..n])
}
