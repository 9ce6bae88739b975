//! What sums, differences, products and quotients answer, at the ends of the range too.

use frac_model::FracFault;
use frac128::Frac;

const MAX: i64 = 9_223_372_036_854_775_807;

#[derive(Clone, Copy)]
enum Operation {
    Add,
    Sub,
    Mul,
    Div,
}

/// A numerator over a denominator.
type Over = (i64, i64);

fn fraction(over: Over) -> Result<Frac, FracFault> {
    Frac::whole(over.0)?.div(Frac::whole(over.1)?)
}

fn result(a: Over, operation: Operation, b: Over) -> Result<Over, FracFault> {
    let a = fraction(a)?;
    let b = fraction(b)?;
    let made = match operation {
        Operation::Add => a.add(b)?,
        Operation::Sub => a.sub(b)?,
        Operation::Mul => a.mul(b)?,
        Operation::Div => a.div(b)?,
    };
    Ok((made.num(), made.den()))
}

#[test]
fn results_are_exact_or_refused(rt: HostRuntime) {
    let cases: [(Over, Operation, Over, Result<Over, FracFault>); 29] = [
        ((1, 2), Operation::Add, (1, 3), Ok((5, 6))),
        ((1, 6), Operation::Add, (1, 3), Ok((1, 2))),
        ((1, 2), Operation::Add, (-1, 2), Ok((0, 1))),
        ((1, 2), Operation::Sub, (1, 3), Ok((1, 6))),
        ((1, 3), Operation::Sub, (1, 2), Ok((-1, 6))),
        ((2, 3), Operation::Mul, (3, 4), Ok((1, 2))),
        ((-2, 3), Operation::Mul, (-3, 2), Ok((1, 1))),
        ((0, 7), Operation::Mul, (5, 3), Ok((0, 1))),
        ((1, 2), Operation::Div, (1, 3), Ok((3, 2))),
        ((1, 2), Operation::Div, (-1, 3), Ok((-3, 2))),
        ((-1, 2), Operation::Div, (-1, 3), Ok((3, 2))),
        ((0, 1), Operation::Div, (-5, 1), Ok((0, 1))),
        ((6, 4), Operation::Add, (0, 1), Ok((3, 2))),
        ((1, -2), Operation::Add, (0, 1), Ok((-1, 2))),
        ((1, 2), Operation::Div, (0, 3), Err(FracFault::ZeroDivisor)),
        ((0, 1), Operation::Div, (0, 1), Err(FracFault::ZeroDivisor)),
        ((1, 0), Operation::Add, (1, 1), Err(FracFault::ZeroDivisor)),
        ((MAX, 1), Operation::Add, (1, 1), Err(FracFault::TooLarge)),
        ((-MAX, 1), Operation::Sub, (1, 1), Err(FracFault::TooLarge)),
        ((MAX, 1), Operation::Sub, (MAX, 1), Ok((0, 1))),
        ((MAX, 2), Operation::Add, (MAX, 2), Ok((MAX, 1))),
        ((MAX, 1), Operation::Mul, (2, 1), Err(FracFault::TooLarge)),
        ((MAX, 2), Operation::Mul, (2, MAX), Ok((1, 1))),
        ((1, MAX), Operation::Mul, (1, 2), Err(FracFault::TooLarge)),
        (
            (1, MAX),
            Operation::Mul,
            (7, 1),
            Ok((1, 1_317_624_576_693_539_401)),
        ),
        ((1, MAX), Operation::Div, (-1, 1), Ok((-1, MAX))),
        ((1, 1), Operation::Div, (-MAX, 1), Ok((-1, MAX))),
        (
            (1, MAX),
            Operation::Sub,
            (1, MAX - 1),
            Err(FracFault::TooLarge),
        ),
        (
            (i64::MIN, 1),
            Operation::Add,
            (1, 1),
            Err(FracFault::TooLarge),
        ),
    ];
    for (a, operation, b, wanted) in cases {
        assert!(rt;
            result(a, operation, b) == wanted,
            "{} / {}, {} / {}",
            a.0,
            a.1,
            b.0,
            b.1
        );
    }
}

#[test]
fn whole_numbers_are_themselves(rt: HostRuntime) {
    for n in [0, 1, -1, MAX, -MAX] {
        match Frac::whole(n) {
            Ok(f) => assert!(rt; (f.num(), f.den()) == (n, 1), "{n}"),
            Err(_) => panic!(rt; "{n} is refused"),
        }
    }
    assert!(rt; Frac::whole(i64::MIN).is_err(), "2^63 is above the limit");
}
