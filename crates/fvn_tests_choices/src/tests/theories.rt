//! The choices of worked theories, and of random ones against a plain count-down.
ghost use Rattle.std.specs.Prelude.{◌<◌};
ghost use Rattle.fvn_acunify.specs.Theory.{IsOneTheory};

use super::kept::{keeps, one_row};
use fvn_acunify::{Choices, ColumnBounds, OneFault, OneTheory, choices_among, solve_one};
use fvn_base::Seq;
use fvn_lindio::{LinFault, Row, Solution, System, basis};
use std::alloc::{AllocError, Global};
use std::process::Abort;
use std::test::Fail;

/// The theory of two and two columns, of which none may be zero; these are constants.
fn worked(rt: &impl Abort, alloc: Global, constants: &[usize]) -> Result<Choices, Fail> {
    let theory = one_row(alloc, &[1, 1, -1, -1], constants, false)?;
    assert!(rt; keeps(&theory));
    Ok(solve_one(alloc, &theory)?)
}

/// The choices that come are these, and after them there is none.
fn assert_given(rt: &impl Abort, choices: &mut Choices, want: &[u128]) {
    for number in want {
        assert_eq!(rt; choices.next(), Some(*number));
    }
    assert_eq!(rt; choices.next(), None);
}

fn assert_worked(
    rt: &impl Abort,
    alloc: Global,
    constants: &[usize],
    want: &[u128],
) -> Result<(), Fail> {
    let mut choices = worked(rt, alloc, constants)?;
    assert_eq!(rt; choices.basis().len(), 4);
    assert_given(rt, &mut choices, want);
    assert_given(rt, &mut choices, &[]);
    choices.again();
    assert_given(rt, &mut choices, want);
    Ok(())
}

#[test]
fn worked_choices_come_from_the_greatest_down(rt: HostRuntime) -> Result<(), Fail> {
    assert_worked(&rt, rt.alloc(), &[], &[15, 14, 13, 11, 9, 7, 6])
}

#[test]
fn worked_choices_with_constants(rt: HostRuntime) -> Result<(), Fail> {
    assert_worked(&rt, rt.alloc(), &[1, 3], &[14, 6])
}

/// The full choices with these other columns.
fn assert_full(
    rt: &impl Abort,
    alloc: Global,
    constants: &[usize],
    others: &[usize],
    want: &[u128],
) -> Result<(), Fail> {
    let mut choices = worked(rt, alloc, constants)?;
    choices.list_full(Seq::from_vec(Vec::from_slice(alloc, others)?));
    assert_given(rt, &mut choices, want);
    Ok(())
}

#[test]
fn full_choices_take_every_solution_without_a_constant(rt: HostRuntime) -> Result<(), Fail> {
    assert_full(&rt, rt.alloc(), &[], &[], &[15])?;
    assert_full(&rt, rt.alloc(), &[1, 3], &[], &[14])
}

// The four solutions take a left and a right column each: 1 and 3, 1 and 2, 0 and 3, 0 and 2. Without column 0
// there are the first two, without 0 and 3 the second alone; there is no column 7. The last has no constant of 1
// and 3, but column 2.
#[test]
fn full_choices_may_leave_out_what_has_another_column(rt: HostRuntime) -> Result<(), Fail> {
    assert_full(&rt, rt.alloc(), &[], &[0], &[15, 11, 7])?;
    assert_full(&rt, rt.alloc(), &[], &[0, 3, 7], &[15, 14, 11, 7, 6])?;
    assert_full(&rt, rt.alloc(), &[1, 3], &[2], &[14, 6])
}

/// The choices that have at most 1 in the first columns, and at least 1 in the second.
fn assert_within(
    rt: &impl Abort,
    alloc: Global,
    most: &[usize],
    least: &[usize],
    want: &[u128],
) -> Result<(), Fail> {
    let theory = one_row(alloc, &[1, 1, -1, -1], &[], true)?;
    assert!(rt; keeps(&theory));
    let mut choices = solve_one(alloc, &theory)?;
    choices.list_within(ColumnBounds {
        at_most_one: Seq::from_vec(Vec::from_slice(alloc, most)?),
        at_least_one: Seq::from_vec(Vec::from_slice(alloc, least)?),
    });
    assert_given(rt, &mut choices, want);
    Ok(())
}

// The four solutions take a left and a right column each: 1 and 3, 1 and 2, 0 and 3, 0 and 2.
#[test]
fn choices_within_bounds(rt: HostRuntime) -> Result<(), Fail> {
    assert_within(&rt, rt.alloc(), &[0, 1, 2, 3], &[], &[9, 8, 6, 4, 2, 1, 0])?;
    assert_within(&rt, rt.alloc(), &[0, 4], &[0, 1, 2, 3], &[11, 9, 7, 6])?;
    assert_within(&rt, rt.alloc(), &[], &[0, 4], &[])
}

/// The choices among the minimal solutions of a theory, of which there may be 127.
fn among(alloc: Global, theory: &OneTheory) -> Result<Choices, OneFault>
    requires { IsOneTheory theory.now }
{
    let solutions = basis(alloc, &theory.system, 127)?;
    choices_among(alloc, theory, solutions.as_slice())
}

/// A variable and nine constants on the left, a variable and ten others on the right.
fn two_sums(rt: &impl Abort, alloc: Global) -> Result<Choices, Fail> {
    let row = &[
        1, 1, 1, 1, 1, 1, 1, 1, 1, 1, -1, -1, -1, -1, -1, -1, -1, -1, -1, -1, -1,
    ];
    let constants = &[
        1, 2, 3, 4, 5, 6, 7, 8, 9, 11, 12, 13, 14, 15, 16, 17, 18, 19, 20,
    ];
    let theory = one_row(alloc, row, constants, false)?;
    assert!(rt; keeps(&theory));
    Ok(among(alloc, &theory)?)
}

// 110 solutions, each with a left and a right column; of left column l and right column 10 + r it is the one
// with the number 11 (9 - l) + 10 - r. 90 of them have two constants. Each constant stands with the variable of
// the other side: 10, 21, .., 98 on the left, 99 to 108 on the right. The variables together, 109, may be taken.
#[test]
fn solutions_with_two_constants_are_passed_at_once(rt: HostRuntime) -> Result<(), Fail> {
    let mut choices = two_sums(&rt, rt.alloc())?;
    assert_eq!(rt; choices.basis().len(), 110);
    let with = 0x3ffc_0080_1002_0040_0801_0020_0400;
    let without = 0x1ffc_0080_1002_0040_0801_0020_0400;
    assert_given(&rt, &mut choices, &[with, without]);
    choices.list_full(Seq::new(rt.alloc()));
    assert_given(&rt, &mut choices, &[with]);
    Ok(())
}

/// A variable twice on the left, another one three times and 14 constants on the right.
fn two_and_three(rt: &impl Abort, alloc: Global) -> Result<Choices, Fail> {
    let row = &[
        2, -3, -1, -1, -1, -1, -1, -1, -1, -1, -1, -1, -1, -1, -1, -1,
    ];
    let constants = &[2, 3, 4, 5, 6, 7, 8, 9, 10, 11, 12, 13, 14, 15];
    let theory = one_row(alloc, row, constants, false)?;
    assert!(rt; keeps(&theory));
    Ok(among(alloc, &theory)?)
}

// 120 solutions. The first 105 have 1 of the variable on the left, and two constants or one twice; the next 14
// have both variables and one constant; the last, without one, may be taken.
#[test]
fn solutions_with_a_constant_twice_are_passed_at_once(rt: HostRuntime) -> Result<(), Fail> {
    let mut choices = two_and_three(&rt, rt.alloc())?;
    assert_eq!(rt; choices.basis().len(), 120);
    let with = 0xff_fe00_0000_0000_0000_0000_0000_0000;
    let without = 0x7f_fe00_0000_0000_0000_0000_0000_0000;
    assert_given(&rt, &mut choices, &[with, without]);
    choices.list_full(Seq::new(rt.alloc()));
    assert_given(&rt, &mut choices, &[with]);
    Ok(())
}

/// Whether the basis of the first row has too many solutions.
fn has_too_many(alloc: Global, theory: &OneTheory) -> bool
    requires { IsOneTheory theory.now }
{
    match solve_one(alloc, theory) {
        Err(OneFault::Basis(LinFault::TooMany(rows))) => rows == 1,
        _ => false,
    }
}

#[test]
fn a_refusal_is_handed_on(rt: HostRuntime) -> Result<(), Fail> {
    let alloc = rt.alloc();
    let theory = one_row(alloc, &[1, 1, 1, 1, 1, -1, -1, -1, -1, -1], &[], false)?;
    assert!(rt; keeps(&theory));
    assert!(rt; has_too_many(alloc, &theory));
    Ok(())
}

/// Two rows of so many columns: a solution has the greatest component in the first column, and 23 solutions
/// have 1 in the third. No column that they use may be zero.
fn wide_theory(alloc: Global, columns: usize, greatest: i32) -> Result<OneTheory, AllocError> {
    let mut first = Vec::new(alloc);
    let mut second = Vec::new(alloc);
    let mut may_be_zero = Vec::new(alloc);
    for column in 0..columns {
        let is_last = columns - column <= 23;
        first.push(match column {
            0 => -1,
            1 => greatest,
            _ => 0,
        })?;
        second.push(match column {
            2 => 1,
            _ => 0 - i32::from(is_last),
        })?;
        may_be_zero.push(column > 2 && !is_last)?;
    }
    let mut rows = Vec::new(alloc);
    for row in [first, second] {
        rows.push(Row {
            coefficients: Seq::from_vec(row),
        })?;
    }
    Ok(OneTheory {
        system: System {
            columns,
            rows: Seq::from_vec(rows),
        },
        constants: Seq::new(alloc),
        may_be_zero: Seq::from_vec(may_be_zero),
    })
}

/// The choices of the wide theory.
fn wide(rt: &impl Abort, alloc: Global, columns: usize, greatest: i32) -> Result<Choices, Fail> {
    let theory = wide_theory(alloc, columns, greatest)?;
    assert!(rt; keeps(&theory), "{columns} columns");
    Ok(solve_one(alloc, &theory)?)
}

fn assert_wide(rt: &impl Abort, alloc: Global, columns: usize, greatest: i32) -> Result<(), Fail> {
    let mut choices = wide(rt, alloc, columns, greatest)?;
    assert_eq!(rt; choices.basis().len(), 24, "{columns} columns");
    assert_given(rt, &mut choices, &[16_777_215]);
    Ok(())
}

// 24 solutions, which are the most; the most columns; and the greatest component.
#[test]
fn the_one_choice_of_all_solutions_comes_at_once(rt: HostRuntime) -> Result<(), Fail> {
    assert_wide(&rt, rt.alloc(), 1000, 1)?;
    assert_wide(&rt, rt.alloc(), 26, 65_535)
}

/// A generator of numbers that look random.
#[derive(Drop)]
struct Numbers(u64);

impl Numbers {
    fn below(&mut self, end: u32) -> u32
        requires { 0 < end }
        ensures { result < end }
    {
        self.0 = self
            .0
            .wrapping_mul(6_364_136_223_846_793_005)
            .wrapping_add(1_442_695_040_888_963_407);
        ((self.0 >> 33) % u64::from(end)) as u32
    }
}

fn random_row(alloc: Global, numbers: &mut Numbers, columns: usize) -> Result<Row, AllocError> {
    let mut row = Vec::new(alloc);
    for _ in 0..columns {
        row.push(numbers.below(5) as i32 - 2)?;
    }
    Ok(Row {
        coefficients: Seq::from_vec(row),
    })
}

fn random_theory(alloc: Global, numbers: &mut Numbers) -> Result<OneTheory, AllocError> {
    let columns = 2 + numbers.below(4) as usize;
    let mut rows = Vec::new(alloc);
    for _ in 0..1 + numbers.below(2) {
        rows.push(random_row(alloc, numbers, columns)?)?;
    }
    let mut constants = Vec::new(alloc);
    let mut may_be_zero = Vec::new(alloc);
    for column in 0..columns {
        if numbers.below(4) == 0 {
            constants.push(column)?;
        }
        may_be_zero.push(numbers.below(2) == 0)?;
    }
    Ok(OneTheory {
        system: System {
            columns,
            rows: Seq::from_vec(rows),
        },
        constants: Seq::from_vec(constants),
        may_be_zero: Seq::from_vec(may_be_zero),
    })
}

fn part(solution: &Solution, column: usize) -> u64 {
    u64::from(solution.parts.as_slice().get(column).copied().unwrap_or(0))
}

/// The sum in a column of the solutions that a number chooses.
fn plain_sum(basis: &[Solution], number: u128, column: usize) -> u64 {
    let mut sum = 0u64;
    let mut bits = number;
    for solution in basis {
        if bits % 2 == 1 {
            sum = sum.saturating_add(part(solution, column));
        }
        bits /= 2;
    }
    sum
}

/// Whether one of the solutions that a number chooses is other than zero in two constant columns.
fn is_shared(basis: &[Solution], number: u128, constants: &[usize]) -> bool {
    let mut bits = number;
    for solution in basis {
        if bits % 2 == 1 && constants.iter().filter(|c| part(solution, **c) > 0).count() > 1 {
            return true;
        }
        bits /= 2;
    }
    false
}

fn is_plainly_valid(theory: &OneTheory, basis: &[Solution], number: u128) -> bool {
    for (column, may) in theory.may_be_zero.as_slice().iter().enumerate() {
        if !*may && plain_sum(basis, number, column) == 0 {
            return false;
        }
    }
    for column in theory.constants.as_slice() {
        if plain_sum(basis, number, *column) != 1 {
            return false;
        }
    }
    !is_shared(basis, number, theory.constants.as_slice())
}

/// How many choices there are, which are those of a count down.
fn assert_count_down(rt: &impl Abort, theory: &OneTheory, choices: &mut Choices) -> u64 {
    let many = choices.basis().len();
    if many > 10 {
        return 0;
    }
    let mut given = 0u64;
    for down in 0..1u32 << many {
        let number = u128::from((1 << many) - 1 - down);
        if is_plainly_valid(theory, choices.basis(), number) {
            assert_eq!(rt; choices.next(), Some(number));
            given = given.wrapping_add(1);
        }
    }
    assert_eq!(rt; choices.next(), None);
    given
}

/// The same of a random theory; where it is refused there are none.
fn random_choices(rt: &impl Abort, alloc: Global, numbers: &mut Numbers) -> Result<u64, Fail> {
    let theory = random_theory(alloc, numbers)?;
    assert!(rt; keeps(&theory));
    match solve_one(alloc, &theory) {
        Ok(mut choices) => Ok(assert_count_down(rt, &theory, &mut choices)),
        Err(OneFault::Basis(_)) => Ok(0),
        Err(fault) => Err(Fail::from(fault)),
    }
}

#[test]
fn random_choices_are_those_of_a_count_down(rt: HostRuntime) -> Result<(), Fail> {
    let mut numbers = Numbers(7);
    let mut given = 0u64;
    for _ in 0..300 {
        given = given.wrapping_add(random_choices(&rt, rt.alloc(), &mut numbers)?);
    }
    assert!(rt; given > 300);
    Ok(())
}
