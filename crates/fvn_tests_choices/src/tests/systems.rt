//! Systems with known minimal solutions, and small ones compared with a plain program that lists a box of vectors.
ghost use Rattle.std.specs.Prelude.{◌≡◌, ◌≤◌, IsTrue, All, length, unsigned_abs};
ghost use Rattle.fvn_lindio.specs.Systems.{IsSystem, coefficients_of};

use fvn_base::Seq;
use fvn_lindio::{LinFault, Row, System, basis, minimal_below, sum_of_minimal};
use std::alloc::{AllocError, Global};
use std::process::Abort;
use std::test::Fail;

/// Whether the coefficients are within the allowed bounds.
fn are_small(coefficients: &[i32]) -> bool
    ensures { IsTrue result → All (λ c. unsigned_abs c ≤ 65535) coefficients.now }
{
    for c in coefficients {
        if c.unsigned_abs() > 65535 {
            return false;
        }
    }
    true
}

/// Whether each row has so many coefficients, all allowed.
fn are_rows(rows: &[Row], columns: usize) -> bool
    ensures sized { IsTrue result → All (λ r. length r ≡ columns) (coefficients_of rows.now) }
    ensures bounded { IsTrue result → All (All (λ c. unsigned_abs c ≤ 65535))
        (coefficients_of rows.now) }
{
    for row in rows {
        if row.coefficients.len() != columns || !are_small(row.coefficients.as_slice()) {
            return false;
        }
    }
    true
}

/// Whether the system may be solved.
fn is_allowed(system: &System) -> bool
    ensures { IsTrue result → IsSystem system.now }
{
    system.columns <= 1000 && are_rows(system.rows.as_slice(), system.columns)
}

/// The system of these rows, one after another.
fn system_of(alloc: Global, columns: usize, coefficients: &[i32]) -> Result<System, AllocError> {
    let mut rows = Vec::new(alloc);
    let mut row = Vec::new(alloc);
    for c in coefficients {
        row.push(*c)?;
        if row.len() == columns {
            rows.push(Row {
                coefficients: Seq::from_vec(row),
            })?;
            row = Vec::new(alloc);
        }
    }
    Ok(System {
        columns,
        rows: Seq::from_vec(rows),
    })
}

/// The components of all minimal solutions, one solution after another.
fn found<R: Abort>(
    rt: &R,
    alloc: Global,
    columns: usize,
    coefficients: &[i32],
    most: usize,
) -> Result<Vec<u32>, LinFault> {
    let system = system_of(alloc, columns, coefficients)?;
    assert!(rt; is_allowed(&system));
    let solutions = basis(alloc, &system, most)?;
    let mut parts = Vec::new(alloc);
    for solution in solutions.as_slice() {
        parts.extend_from_slice(solution.parts.as_slice())?;
    }
    Ok(parts)
}

/// Each row has the columns, the most solutions that are allowed and the coefficients of a system, and then the components
/// of all minimal solutions. The third has columns that only its second row uses, and one that no row uses; in the fourth
/// the third row uses a column again. The last have no row, a row of zeros, and a row with no solution but zero.
const KNOWN: &str = "3 24 | 2 -1 -1 | 1 0 2 1 1 1 1 2 0
4 24 | 1 1 -1 -1 | 0 1 0 1 0 1 1 0 1 0 0 1 1 0 1 0
5 24 | 1 -1 0 0 0 0 0 1 0 -1 | 0 0 1 0 1 1 1 0 0 0
4 24 | 1 0 -1 0 0 1 0 -1 1 -1 0 0 | 1 1 1 1
3 24 | 1 -2 0 0 1 -2 | 4 2 1
2 1 | 65535 -1 | 1 65535
3 0 |  | 
2 0 | 0 0 | 
2 0 | 1 1 | ";

/// Each row has the same of a system that is refused, and after how many rows there are too many solutions or too wide
/// ones. The last system has two minimal solutions, one of them wide: too many come before too wide.
const REFUSED: &str = "10 24 | 1 1 1 1 1 -1 -1 -1 -1 -1 | many 1
3 24 | 65535 -1 0 0 2 -1 | wide 2
3 0 | 65535 -1 0 0 2 -1 | many 1
4 1 | 65535 -1 0 0 0 1 -65535 -65534 | many 2
4 2 | 65535 -1 0 0 0 1 -65535 -65534 | wide 2";

fn number(word: &str) -> usize {
    word.parse::<usize>().unwrap_or(7)
}

fn coefficients(alloc: Global, words: &str) -> Result<Vec<i32>, AllocError> {
    let mut list = Vec::new(alloc);
    for word in words.split(' ') {
        if let Ok(c) = word.parse::<i32>() {
            list.push(c)?;
        }
    }
    Ok(list)
}

fn push_number(text: &mut String, alloc: Global, before: &str, n: u32) -> Result<(), AllocError> {
    text.push_str(before)?;
    text.push_str(&format!(in alloc; "{n}")?)?;
    Ok(())
}

/// The numbers with a space between.
fn shown(alloc: Global, numbers: &[u32]) -> Result<String, AllocError> {
    let mut text = String::new(alloc);
    let mut before = "";
    for n in numbers {
        push_number(&mut text, alloc, before, *n)?;
        before = " ";
    }
    Ok(text)
}

fn shown_fault(alloc: Global, fault: LinFault) -> Result<String, AllocError> {
    match fault {
        LinFault::TooMany(rows) => format!(in alloc; "many {rows}"),
        LinFault::TooWide(rows) => format!(in alloc; "wide {rows}"),
        LinFault::NoMemory => format!(in alloc; "memory"),
    }
}

/// What is found of a system, or why it is refused.
fn told(
    rt: &impl Abort,
    alloc: Global,
    columns: usize,
    most: usize,
    words: &str,
) -> Result<String, AllocError> {
    let list = coefficients(alloc, words)?;
    match found(rt, alloc, columns, &list, most) {
        Ok(parts) => shown(alloc, &parts),
        Err(fault) => shown_fault(alloc, fault),
    }
}

fn assert_row(
    rt: &impl Abort,
    alloc: Global,
    limits: &str,
    words: &str,
    want: &str,
) -> Result<(), AllocError> {
    let (columns, most) = limits.split_once(' ').unwrap_or((limits, ""));
    let text = told(rt, alloc, number(columns), number(most), words)?;
    assert_eq!(rt; text.as_str(), want, "at {words}");
    Ok(())
}

/// The next number of a fixed sequence, below 7.
fn next(state: &mut u64) -> i32 {
    *state = state
        .wrapping_mul(6364136223846793005)
        .wrapping_add(1442695040888963407);
    let digit = (*state >> 33) % 7;
    digit as i32
}

/// One or two rows of four coefficients from -3 to 3, more of them zero.
fn small_rows(alloc: Global, state: &mut u64) -> Result<Vec<i32>, AllocError> {
    let mut coefficients = Vec::new(alloc);
    let rows = (next(state) % 2).wrapping_add(1);
    for _ in 0..rows {
        for _ in 0..4 {
            let zero = next(state) < 1;
            let coefficient = next(state).wrapping_sub(3);
            coefficients.push(if zero { 0 } else { coefficient })?;
        }
    }
    Ok(coefficients)
}

/// Whether each row is zero at the vector, and it is zero where no row has a coefficient.
fn solves(coefficients: &[i32], vector: &[i32]) -> bool {
    for row in coefficients.chunks(4) {
        let mut value: i32 = 0;
        for (c, x) in row.iter().zip(vector) {
            value = value.wrapping_add(c.wrapping_mul(*x));
        }
        if value != 0 {
            return false;
        }
    }
    for (j, x) in vector.iter().enumerate() {
        if *x != 0 && !coefficients.iter().skip(j).step_by(4).any(|c| *c != 0) {
            return false;
        }
    }
    true
}

/// Whether one of the vectors, each of four components, is at or below this one.
fn has_below(vectors: &[i32], vector: &[i32]) -> bool {
    for v in vectors.chunks(4) {
        let mut below = true;
        for (a, b) in v.iter().zip(vector) {
            if *a > *b {
                below = false;
            }
        }
        if below {
            return true;
        }
    }
    false
}

/// The minimal solutions with no component over 6, by going over all such vectors in lexicographic order.
fn listed(alloc: Global, coefficients: &[i32]) -> Result<Vec<i32>, AllocError> {
    let mut kept = Vec::new(alloc);
    for code in 1..2401i32 {
        let vector = [code / 343, code / 49 % 7, code / 7 % 7, code % 7];
        if solves(coefficients, vector.as_slice())
            && !has_below(kept.as_slice(), vector.as_slice())
        {
            kept.extend_from_slice(vector.as_slice())?;
        }
    }
    Ok(kept)
}

/// Those of the solutions, each of four components, that have none over 6.
fn in_box(alloc: Global, parts: &[u32]) -> Result<Vec<i32>, AllocError> {
    let mut kept = Vec::new(alloc);
    for solution in parts.chunks(4) {
        if solution.iter().all(|a| *a <= 6) {
            for a in solution {
                kept.push((*a % 7) as i32)?;
            }
        }
    }
    Ok(kept)
}

fn assert_rows(rt: &impl Abort, alloc: Global, rows: &str) -> Result<(), AllocError> {
    for row in rows.lines() {
        let (limits, rest) = row.split_once(" | ").unwrap_or((row, ""));
        let (words, want) = rest.split_once(" | ").unwrap_or((rest, "no bar"));
        assert_row(rt, alloc, limits, words, want)?;
    }
    Ok(())
}

#[test]
fn known_solutions(rt: HostRuntime) -> Result<(), AllocError> {
    minimal_below();
    sum_of_minimal();
    assert_rows(&rt, rt.alloc(), KNOWN)
}

#[test]
fn refused_prefixes(rt: HostRuntime) -> Result<(), AllocError> {
    assert_rows(&rt, rt.alloc(), REFUSED)
}

/// Two rows of so many columns: a solution has the greatest component in the first column, and 23 solutions
/// have 1 in the third.
fn wide_rows(alloc: Global, columns: usize, greatest: i32) -> Result<Vec<i32>, AllocError> {
    let mut rows = Vec::new(alloc);
    for column in 0..columns {
        rows.push(match column {
            0 => -1,
            1 => greatest,
            _ => 0,
        })?;
    }
    for column in 0..columns {
        let is_last = columns - column <= 23;
        rows.push(match column {
            2 => 1,
            _ => 0 - i32::from(is_last),
        })?;
    }
    Ok(rows)
}

fn assert_limits(
    rt: &impl Abort,
    alloc: Global,
    columns: usize,
    greatest: i32,
) -> Result<(), Fail> {
    let rows = wide_rows(alloc, columns, greatest)?;
    let list = found(rt, alloc, columns, rows.as_slice(), 24)?;
    let many = list.len() / 24;
    assert!(rt;
        many == columns && list.len() % 24 == 0,
        "{columns} columns"
    );
    assert!(rt;
        list.contains(&greatest.unsigned_abs()),
        "{columns} columns"
    );
    Ok(())
}

// 24 solutions, which is the most that callers ask for; the most columns; and the greatest component.
#[test]
fn systems_at_the_limits(rt: HostRuntime) -> Result<(), Fail> {
    for (columns, greatest) in [(1000, 1), (26, 65535)] {
        assert_limits(&rt, rt.alloc(), columns, greatest)?;
    }
    Ok(())
}

// 25 solutions of ten columns, where so many are allowed.
#[test]
fn as_many_as_allowed(rt: HostRuntime) -> Result<(), Fail> {
    let ten = [1, 1, 1, 1, 1, -1, -1, -1, -1, -1];
    let list = found(&rt, rt.alloc(), 10, ten.as_slice(), 25)?;
    assert_eq!(rt; list.len(), 250);
    Ok(())
}

/// How many solutions the system has, which are those that are listed.
fn small_solutions(rt: &impl Abort, alloc: Global, coefficients: &[i32]) -> Result<usize, Fail> {
    let parts = found(rt, alloc, 4, coefficients, 100000)?;
    let inside = in_box(alloc, &parts)?;
    let list = listed(alloc, coefficients)?;
    assert!(rt; inside == list);
    Ok(list.len() / 4)
}

/// The same of the next system.
fn next_solutions(rt: &impl Abort, alloc: Global, state: &mut u64) -> Result<usize, Fail> {
    let coefficients = small_rows(alloc, state)?;
    small_solutions(rt, alloc, &coefficients)
}

#[test]
fn small_systems_as_listed(rt: HostRuntime) -> Result<(), Fail> {
    let mut state = 20240229;
    let mut all: usize = 0;
    for _ in 0..200 {
        all = all.wrapping_add(next_solutions(&rt, rt.alloc(), &mut state)?);
    }
    // So many minimal solutions do these systems have by another program.
    assert_eq!(rt; all, 321);
    Ok(())
}
