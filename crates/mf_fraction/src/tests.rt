use crate::{
    DivFault, Frac, NumberFault, Wide, add, cmp, div, mul, read_decimal, sign, sub, write,
};
use std::cmp::Ordering;
use std::process::Abort;
use std::test::Fail;

const GREATEST: i64 = 4_611_686_018_427_387_904;

fn fraction(rt: &impl Abort, n: i64, d: i64) -> Frac {
    match Frac::new(n, d) {
        Ok(value) => value,
        Err(_) => panic!(rt; "no fraction {n}/{d}"),
    }
}

fn expect(rt: &impl Abort, holds: bool) {
    assert!(rt; holds);
}

fn reads(rt: &impl Abort, word: &[u8], n: i64, d: i64) {
    expect(rt, read_decimal(word) == Ok(fraction(rt, n, d)));
}

fn refuses(rt: &impl Abort, word: &[u8], fault: NumberFault) {
    expect(rt, read_decimal(word) == Err(fault));
}

#[test]
fn gives_exact_results(rt: HostRuntime) {
    let third = fraction(&rt, 1, 3);
    let sixth = fraction(&rt, 1, 6);
    let half = fraction(&rt, -1, -2);
    let one = fraction(&rt, 1, 1);
    let greatest = fraction(&rt, GREATEST, 1);
    expect(&rt, add(third, sixth) == Ok(half));
    expect(&rt, sub(half, third) == Ok(sixth));
    expect(&rt, add(greatest, one) == Err(Wide));
    expect(
        &rt,
        mul(greatest, half) == Frac::whole(2_305_843_009_213_693_952),
    );
    expect(
        &rt,
        div(one, fraction(&rt, 0, 1)) == Err(DivFault::ZeroDivisor),
    );
    expect(&rt, div(one, fraction(&rt, 2, -3)) == Frac::new(-3, 2));
    expect(&rt, cmp(third, half) == Ordering::Less);
    expect(&rt, sign(fraction(&rt, 3, -4)) == -1);
}

#[test]
fn reads_decimals(rt: HostRuntime) {
    reads(&rt, b"-0.50", -1, 2);
    reads(&rt, b"0000000000000000000000000000000000000001", 1, 1);
    reads(&rt, b"4611686018427387904", GREATEST, 1);
    reads(&rt, b"-4611686018427387904", -GREATEST, 1);
    refuses(&rt, b"4611686018427387905", NumberFault::Wide);
    reads(&rt, b"0.000000000000000001", 1, 1_000_000_000_000_000_000);
    refuses(&rt, b"0.0000000000000000001", NumberFault::Wide);
    reads(&rt, b"1.50000000000000000000000", 3, 2);
    refuses(&rt, b"1.2.3", NumberFault::NotANumber);
    refuses(&rt, b"-", NumberFault::NotANumber);
    refuses(&rt, b".5", NumberFault::NotANumber);
    refuses(&rt, b"5.", NumberFault::NotANumber);
    refuses(&rt, b"-.5", NumberFault::NotANumber);
}

#[test]
fn writes_fractions(rt: HostRuntime) -> Result<(), Fail> {
    let mut out = Vec::new(rt.alloc());
    write(rt.alloc(), fraction(&rt, -1, 2), &mut out)?;
    write(rt.alloc(), fraction(&rt, 7, 1), &mut out)?;
    expect(&rt, out.as_slice() == b"-1/27".as_slice());
    Ok(())
}
