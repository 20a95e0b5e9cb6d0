//! Odometers against lists written by hand.
use super::kept::{keeps, one_row};
use fvn_acunify::{Choices, OneTheory, solve_one};
use fvn_acunify_product::{Tags, Wheels};
use fvn_base::NoMemory;
use std::alloc::{AllocError, Global};
use std::process::Abort;
use std::test::Fail;

/// Wheels by letter, and the lists on them. A row of 1 and -1 has the solution 11, and one of 1, -1
/// and -1 has 101 and 110:
///
/// - `e`, an equation of two columns that may not be zero: the one solution is chosen, 1.
/// - `o`, the same where both may be zero: 1 and 0.
/// - `s`, three columns that may be zero: 3, 2, 1 and 0.
/// - `c`, the same with the first column as a constant: one of the two, 2 or 1.
/// - `n`, the same where the others may not be zero: no choice.
const WHEELS: &str = " =>  end
e => 1 end
o => 1 0 end
s => 3 2 1 0 end
c => 2 1 end
n => end
oo => 11 10 01 00 end
oe => 11 01 end
no => end
on => end
so => 31 30 21 20 11 10 01 00 end
cs => 23 22 21 20 13 12 11 10 end
oco => 121 120 111 110 021 020 011 010 end
eon => end
oeoc => 1112 1111 1102 1101 0112 0111 0102 0101 end";

/// How many options each place has, and the lists of them.
const TAGS: &str = " =>  end
0 => end
1 => 0 end
2 => 1 0 end
3 => 2 1 0 end
11 => 00 end
20 => end
02 => end
23 => 12 11 10 02 01 00 end
32 => 21 20 11 10 01 00 end
213 => 102 101 100 002 001 000 end
2122 => 1011 1010 1001 1000 0011 0010 0001 0000 end";

fn theory(alloc: Global, letter: u8) -> Result<OneTheory, AllocError> {
    match letter {
        b'e' => one_row(alloc, &[1, -1], &[], false),
        b'o' => one_row(alloc, &[1, -1], &[], true),
        b's' => one_row(alloc, &[1, -1, -1], &[], true),
        b'c' => one_row(alloc, &[1, -1, -1], &[0], true),
        _ => one_row(alloc, &[1, -1, -1], &[0], false),
    }
}

/// The choices of a theory by letter; the cursor has given one already.
fn choices(rt: &impl Abort, alloc: Global, letter: u8) -> Result<Choices, Fail> {
    let theory = theory(alloc, letter)?;
    assert!(rt; keeps(&theory), "{letter}");
    let mut choices = solve_one(alloc, &theory)?;
    choices.next();
    Ok(choices)
}

fn wheels(rt: &impl Abort, alloc: Global, letters: &str) -> Result<Wheels, Fail> {
    let mut list: Vec<Choices> = Vec::new(alloc);
    for letter in letters.bytes() {
        list.push(choices(rt, alloc, letter)?)?;
    }
    Ok(Wheels::new(alloc, list)?)
}

fn tags(alloc: Global, digits: &str) -> Result<Tags, Fail> {
    let mut counts = Vec::new(alloc);
    for digit in digits.bytes() {
        counts.push(u32::from(digit.saturating_sub(b'0')))?;
    }
    Ok(Tags::new(alloc, counts)?)
}

fn digit(number: u128) -> u8 {
    match number {
        0 => b'0',
        1 => b'1',
        2 => b'2',
        3 => b'3',
        _ => b'?',
    }
}

fn push_choices(text: &mut Vec<u8>, numbers: &[u128]) -> Result<(), NoMemory> {
    for number in numbers {
        text.push(digit(*number))?;
    }
    text.push(b' ')?;
    Ok(())
}

fn push_tags(text: &mut Vec<u8>, numbers: &[u32]) -> Result<(), NoMemory> {
    for number in numbers {
        text.push(digit(u128::from(*number)))?;
    }
    text.push(b' ')?;
    Ok(())
}

fn shown_wheels(alloc: Global, wheels: &mut Wheels) -> Result<Vec<u8>, NoMemory> {
    let mut text = Vec::new(alloc);
    while let Some(numbers) = wheels.current() {
        push_choices(&mut text, numbers)?;
        wheels.advance();
    }
    text.extend_from_slice(b"end")?;
    Ok(text)
}

fn shown_tags(alloc: Global, tags: &mut Tags) -> Result<Vec<u8>, NoMemory> {
    let mut text = Vec::new(alloc);
    while let Some(numbers) = tags.current() {
        push_tags(&mut text, numbers)?;
        tags.advance();
    }
    text.extend_from_slice(b"end")?;
    Ok(text)
}

/// Shows all lists, goes past the end, where there is none, and begins again.
fn wheels_in_turn(alloc: Global, wheels: &mut Wheels) -> Result<Vec<u8>, NoMemory> {
    let mut text = shown_wheels(alloc, wheels)?;
    wheels.advance();
    if wheels.current().is_some() {
        text.push(b'!')?;
    }
    wheels.again();
    Ok(text)
}

/// Shows all lists, goes past the end, where there is none, and begins again.
fn tags_in_turn(alloc: Global, tags: &mut Tags) -> Result<Vec<u8>, NoMemory> {
    let mut text = shown_tags(alloc, tags)?;
    tags.advance();
    if tags.current().is_some() {
        text.push(b'!')?;
    }
    tags.again();
    Ok(text)
}

fn assert_wheels(
    rt: &impl Abort,
    alloc: Global,
    wheels: &mut Wheels,
    want: &str,
) -> Result<(), NoMemory> {
    let text = wheels_in_turn(alloc, wheels)?;
    assert!(rt; text.as_slice() == want.as_bytes(), "{want}");
    Ok(())
}

fn assert_tags(
    rt: &impl Abort,
    alloc: Global,
    tags: &mut Tags,
    want: &str,
) -> Result<(), NoMemory> {
    let text = tags_in_turn(alloc, tags)?;
    assert!(rt; text.as_slice() == want.as_bytes(), "{want}");
    Ok(())
}

fn assert_wheels_twice(
    rt: &impl Abort,
    alloc: Global,
    letters: &str,
    want: &str,
) -> Result<(), Fail> {
    let mut wheels = wheels(rt, alloc, letters)?;
    assert_wheels(rt, alloc, &mut wheels, want)?;
    assert_wheels(rt, alloc, &mut wheels, want)?;
    Ok(())
}

fn assert_tags_twice(rt: &impl Abort, alloc: Global, digits: &str, want: &str) -> Result<(), Fail> {
    let mut tags = tags(alloc, digits)?;
    assert_tags(rt, alloc, &mut tags, want)?;
    assert_tags(rt, alloc, &mut tags, want)?;
    Ok(())
}

#[test]
fn wheels_give_each_list_once(rt: HostRuntime) -> Result<(), Fail> {
    for line in WHEELS.lines() {
        let (letters, want) = line.split_once(" => ").unwrap_or((line, ""));
        assert_wheels_twice(&rt, rt.alloc(), letters, want)?;
    }
    Ok(())
}

#[test]
fn tags_give_each_list_once(rt: HostRuntime) -> Result<(), Fail> {
    for line in TAGS.lines() {
        let (digits, want) = line.split_once(" => ").unwrap_or((line, ""));
        assert_tags_twice(&rt, rt.alloc(), digits, want)?;
    }
    Ok(())
}
