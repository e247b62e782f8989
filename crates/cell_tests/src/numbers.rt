//! Expressions and equations, which are written in postfix words: a literal, `v0` for the variable 0, `?` for the
//! unknown, `+` for the sum of the two before it, `*` for a literal's product with the expression before it.
ghost use Rattle.std.specs.Prelude.{◌≡◌, ◌∷◌, []};
ghost use Rattle.nat_solver.specs.Number.{unknowns};
ghost use Rattle.nat_solver.specs.View.{expr};

use nat_solver::{
    Env, NatError, NatExpr, Op, Pattern, eval, holds, pattern_fit, patterns_exclude, solve, sought,
};
use sqlite_items::{Boxed, Items};
use std::alloc::Global;
use std::process::Abort;

fn sum(rt: &impl Abort, alloc: Global, left: NatExpr, right: NatExpr) -> NatExpr {
    let mut terms = Items::new(alloc);
    terms.push(left).ok().expect(rt, "memory");
    terms.push(right).ok().expect(rt, "memory");
    NatExpr::Sum(terms)
}

fn operator(rt: &impl Abort, alloc: Global, stack: &mut Items<NatExpr>, word: &str) -> NatExpr {
    let right = stack.pop().expect(rt, "an operand");
    let left = stack.pop().expect(rt, "an operand");
    if word == "+" {
        return sum(rt, alloc, left, right);
    }
    let operand = Boxed::new(alloc, right).expect(rt, "memory");
    match left {
        NatExpr::Lit(k) => NatExpr::Times(k, operand),
        _ => NatExpr::Times(0, operand),
    }
}

fn term(rt: &impl Abort, alloc: Global, stack: &mut Items<NatExpr>, word: &str) -> NatExpr {
    if word == "?" {
        return NatExpr::Sought(9);
    }
    if word == "+" || word == "*" {
        return operator(rt, alloc, stack, word);
    }
    match word.strip_prefix("v") {
        Some(digits) => NatExpr::Var(digits.parse().ok().expect(rt, "a number")),
        None => NatExpr::Lit(word.parse().ok().expect(rt, "a number")),
    }
}

fn expression(rt: &impl Abort, alloc: Global, words: &str) -> NatExpr {
    let mut stack = Items::new(alloc);
    for word in words.split_whitespace() {
        let e = term(rt, alloc, &mut stack, word);
        stack.push(e).ok().expect(rt, "memory");
    }
    stack.pop().expect(rt, "an operand")
}

/// The variables 0 to 3: 5, 4294967295, unset and unset.
fn numbers(rt: &impl Abort, alloc: Global) -> Env {
    let mut env = Env::new(alloc, 4).expect(rt, "memory");
    env.set(0, 5);
    env.set(1, u32::MAX);
    env
}

/// The value of an expression without an unknown.
fn evaluated(e: &NatExpr, unknown: &NatExpr, env: &Env) -> Option<Result<u32, NatError>>
    requires { unknowns (expr unknown.now) ≡ 9 ∷ [] }
{
    match sought(e, unknown) {
        Some(_) => Some(eval(e, env)),
        None => None,
    }
}

static VALUES: [(&str, Result<u32, NatError>); 7] = [
    ("v1 0 +", Ok(u32::MAX)),
    ("v1 1 +", Err(NatError::Overflow)),
    ("65537 65535 *", Ok(u32::MAX)),
    ("65536 65536 *", Err(NatError::Overflow)),
    ("0 v3 *", Err(NatError::Unknown(3))),
    ("v2 v3 +", Err(NatError::Unknown(2))),
    ("2 v1 * v2 +", Err(NatError::Overflow)),
];

#[test]
fn expressions_have_values_or_a_first_part_without_one(rt: HostRuntime) {
    let env = numbers(&rt, rt.alloc());
    for (words, value) in VALUES.iter() {
        let e = expression(&rt, rt.alloc(), words);
        assert!(rt;
            evaluated(&e, &NatExpr::Sought(9), &env) == Some(*value),
            "at {words}"
        );
    }
}

// A number, and whether it compares so to the variable 0, which is 5.
static COMPARISONS: [(u32, Op, bool); 10] = [
    (5, Op::Eq, true),
    (6, Op::Eq, false),
    (4, Op::Lt, true),
    (5, Op::Lt, false),
    (5, Op::Le, true),
    (6, Op::Le, false),
    (6, Op::Gt, true),
    (5, Op::Gt, false),
    (5, Op::Ge, true),
    (4, Op::Ge, false),
];

#[test]
fn numbers_compare_to_variables(rt: HostRuntime) {
    let env = numbers(&rt, rt.alloc());
    assert!(rt; env.get(0) == Some(5) && env.get(2).is_none());
    for (left, op, holds_so) in COMPARISONS.iter() {
        let found = holds(&NatExpr::Lit(*left), *op, &NatExpr::Var(0), &env);
        assert!(rt; found == Ok(*holds_so), "at {left}");
    }
}

#[test]
fn numbers_are_copied(rt: HostRuntime) {
    let env = numbers(&rt, rt.alloc());
    let copied = env.copy(rt.alloc()).expect(&rt, "memory");
    assert!(rt; copied.len() == 4 && copied.get(0) == Some(5) && copied.get(2).is_none());
}

/// The solution of an equation with one unknown.
fn solved(left: &NatExpr, right: &NatExpr, env: &Env) -> Option<Result<u32, NatError>> {
    match sought(left, right) {
        Some(_) => Some(solve(left, right, env)),
        None => None,
    }
}

// The two sides, and the unknown's number; `None` where there isn't one unknown.
static EQUATIONS: [(&str, &str, Option<Result<u32, NatError>>); 14] = [
    ("1", "v0", None),
    ("? ? +", "1", None),
    ("?", "?", None),
    ("0 ? *", "?", None),
    ("? v0 +", "5", Some(Ok(0))),
    ("? v0 +", "3", Some(Err(NatError::NoSolution))),
    ("v0 ? +", "v1", Some(Ok(4_294_967_290))),
    ("?", "v1", Some(Ok(u32::MAX))),
    ("? v0 +", "v2", Some(Err(NatError::Unknown(2)))),
    ("3 ? *", "9", Some(Ok(3))),
    ("3 ? *", "10", Some(Err(NatError::NoSolution))),
    ("3 ? *", "0", Some(Ok(0))),
    ("3 ? *", "v1 1 +", Some(Err(NatError::Overflow))),
    ("2 ? * 3 +", "v0 8 +", Some(Ok(5))),
];

#[test]
fn equations_are_solved_from_both_sides(rt: HostRuntime) {
    let env = numbers(&rt, rt.alloc());
    for (left, right, solution) in EQUATIONS.iter() {
        let left = expression(&rt, rt.alloc(), left);
        let right = expression(&rt, rt.alloc(), right);
        assert!(rt; solved(&left, &right, &env) == *solution);
        assert!(rt; solved(&right, &left, &env) == *solution);
    }
}

static FITS: [(Pattern, u32, Option<u32>); 6] = [
    (Pattern::Lit(3), 3, Some(3)),
    (Pattern::Lit(3), 4, None),
    (Pattern::Var(0), 0, Some(0)),
    (Pattern::Plus(0, 4), 3, None),
    (Pattern::Plus(0, 4), 4, Some(0)),
    (Pattern::Plus(0, 4), u32::MAX, Some(4_294_967_291)),
];

static PAIRS: [(Pattern, Pattern, bool); 6] = [
    (Pattern::Lit(3), Pattern::Plus(0, 4), true),
    (Pattern::Lit(0), Pattern::Lit(3), true),
    (Pattern::Lit(3), Pattern::Lit(3), false),
    (Pattern::Lit(4), Pattern::Plus(0, 4), false),
    (Pattern::Var(0), Pattern::Plus(0, 4), false),
    (Pattern::Plus(0, u32::MAX), Pattern::Plus(1, 4), false),
];

#[test]
fn patterns_fit_numbers_and_exclude_each_other(rt: HostRuntime) {
    for (pattern, number, fit) in FITS.iter() {
        assert!(rt; pattern_fit(pattern, *number) == *fit);
    }
    for (first, second, exclude) in PAIRS.iter() {
        assert!(rt; patterns_exclude(first, second) == *exclude);
    }
}

#[test]
fn a_long_sum_is_solved_and_dropped(rt: HostRuntime) {
    let env = numbers(&rt, rt.alloc());
    let mut terms = Items::new(rt.alloc());
    for _ in 0..500_000 {
        terms.push(NatExpr::Var(0)).ok().expect(&rt, "memory");
    }
    let known = NatExpr::Sum(terms);
    assert!(rt; evaluated(&known, &NatExpr::Sought(9), &env) == Some(Ok(2_500_000)));
    let longer = sum(&rt, rt.alloc(), known, NatExpr::Sought(9));
    assert!(rt; solved(&longer, &NatExpr::Lit(2_500_007), &env) == Some(Ok(7)));
}
