// Runs inputs of program `bench` and holds them to the answers beside them. A list on standard input has for each case the lengths of its input and of its
// output, eight hexadecimal digits each, and a line feed, then both. A line for each case that is answered otherwise, and a count at the end.
#![tactic(auto)]

ghost use Rattle.std.specs.Prelude.{◌≤◌};

use std::io;
use std::io::{ErrorKind, Read};

// More cases than a list has.
const MAX_CASES: usize = 100000;

#[derive(Clone, Copy)]
enum Case {
    Right,
    Wrong,
    // the list is at its end
    Last,
}

#[derive(Clone, Copy)]
struct Tally {
    cases: usize,
    wrong: usize,
}

// So many bytes of the list, to the front of a slice; whether there were as many.
fn take(list: &mut impl Read, n: usize, to: &mut [u8]) -> io::Result<bool> {
    if to.len() < n {
        return Ok(false);
    }
    match list.read_exact(&mut to[..n]) {
        Ok(()) => Ok(true),
        Err(e) if e.kind() == ErrorKind::UnexpectedEof => Ok(false),
        Err(e) => Err(e),
    }
}

// The length at byte `at` of a head, unless it ends before.
fn size_at(head: &[u8], at: usize) -> Option<usize>
    requires { at ≤ 4 }
{
    if hex_text::byte_count(head) < at + 4 {
        return None;
    }
    let high = hex_text::u16_at(head, at);
    let low = hex_text::u16_at(head, at + 2);
    Some(65536 * usize::from(high) + usize::from(low))
}

// An input answered, and compared.
fn answered(input: &[u8], expected: &[u8]) -> bool {
    let mut out = [0u8; 65536];
    match whole_input::answer_input(input, &mut out) {
        None => false,
        Some(n) => &out[..n] == expected,
    }
}

// The next case of the list.
fn next_case(
    list: &mut impl Read,
    head: &mut [u8],
    input: &mut [u8],
    expected: &mut [u8],
) -> io::Result<Case> {
    if head.len() < 17 || !take(list, 17, head)? {
        return Ok(Case::Last);
    }
    let (Some(given), Some(told)) = (size_at(&head[..16], 0), size_at(&head[..16], 4)) else {
        return Ok(Case::Wrong);
    };
    if input.len() < given || expected.len() < told {
        return Ok(Case::Wrong);
    }
    if !take(list, given, input)? || !take(list, told, expected)? {
        return Ok(Case::Wrong);
    }
    if answered(&input[..given], &expected[..told]) {
        Ok(Case::Right)
    } else {
        Ok(Case::Wrong)
    }
}

// Case after case.
fn run(
    list: &mut impl Read,
    out: &impl Print,
    head: &mut [u8],
    input: &mut [u8],
    expected: &mut [u8],
) -> io::Result<Tally> {
    let mut wrong = 0;
    for cases in 0..MAX_CASES {
        match next_case(list, head, input, expected)? {
            Case::Last => return Ok(Tally { cases, wrong }),
            Case::Right => {}
            Case::Wrong => {
                println!(out; "case {cases} is answered otherwise")?;
                wrong += 1;
            }
        }
    }
    let cases = MAX_CASES;
    Ok(Tally { cases, wrong })
}

fn main(rt: HostRuntime) -> io::Result<()> {
    let mut head = [0u8; 17];
    let mut input = [0u8; 65536];
    let mut expected = [0u8; 65536];
    let tally = run(&mut rt.stdin(), &rt, &mut head, &mut input, &mut expected)?;
    let cases = tally.cases;
    let wrong = tally.wrong;
    println!(rt; "{cases} cases, {wrong} answered otherwise")
}
