use crate::{List, MergeFault, laws, merge, order, order_of_slices};
use smallvec::SmallVec;
use std::alloc::{AllocError, Global};
use std::process::Abort;
use std::test::Fail;

fn lists_of(alloc: Global, slices: &[&[u16]]) -> Result<Vec<List>, AllocError> {
    let mut lists = Vec::with_capacity(alloc, slices.len())?;
    for slice in slices {
        lists.push(SmallVec::from_slice(alloc, slice)?)?;
    }
    Ok(lists)
}

/// `wanted` is the list that has to be found, or none for `NoHead`.
fn expect_found(rt: &impl Abort, found: &Result<List, MergeFault>, wanted: Option<&[u16]>) {
    match found {
        Ok(list) => assert_eq!(rt; Some(list.as_slice()), wanted),
        Err(fault) => {
            assert_eq!(rt; *fault, MergeFault::NoHead);
            assert!(rt; wanted.is_none());
        }
    }
}

#[test]
fn merges(rt: HostRuntime) -> Result<(), Fail> {
    let rows: [(&[&[u16]], Option<&[u16]>); 8] = [
        (&[], Some(&[])),
        (&[&[], &[]], Some(&[])),
        (&[&[7]], Some(&[7])),
        (&[&[1, 2], &[], &[3, 2, 65535]], Some(&[1, 3, 2, 65535])),
        (&[&[1, 4], &[2, 1], &[3, 2]], Some(&[3, 2, 1, 4])),
        (&[&[1, 2], &[2, 1]], None),
        (&[&[1, 2, 1]], None),
        (&[&[5, 1], &[2, 2]], None),
    ];
    for (lists, wanted) in &rows {
        let lists = lists_of(rt.alloc(), lists)?;
        expect_found(&rt, &merge(rt.alloc(), &lists), *wanted);
    }
    Ok(())
}

// `object` is 0. The first two groups are the examples of "The Python 2.3 Method Resolution
// Order", with F = 1, E = 2, D = 3, C = 4, B = 5, A = 6, and the third its example of a class
// that can't be made, with A = 1, B = 2, X = 3, Y = 4, Z = 5.
#[test]
fn orders_classes(rt: HostRuntime) -> Result<(), Fail> {
    let rows: [(u16, &[u16], &[&[u16]], Option<&[u16]>); 10] = [
        (0, &[], &[], Some(&[0])),
        (1, &[0], &[&[0]], Some(&[1, 0])),
        (4, &[3, 1], &[&[3, 0], &[1, 0]], Some(&[4, 3, 1, 0])),
        (5, &[3, 2], &[&[3, 0], &[2, 0]], Some(&[5, 3, 2, 0])),
        (
            6,
            &[5, 4],
            &[&[5, 3, 2, 0], &[4, 3, 1, 0]],
            Some(&[6, 5, 4, 3, 2, 1, 0]),
        ),
        (5, &[2, 3], &[&[2, 0], &[3, 0]], Some(&[5, 2, 3, 0])),
        (
            6,
            &[5, 4],
            &[&[5, 2, 3, 0], &[4, 3, 1, 0]],
            Some(&[6, 5, 2, 4, 3, 1, 0]),
        ),
        (3, &[1, 2], &[&[1, 0], &[2, 0]], Some(&[3, 1, 2, 0])),
        (4, &[2, 1], &[&[2, 0], &[1, 0]], Some(&[4, 2, 1, 0])),
        (5, &[3, 4], &[&[3, 1, 2, 0], &[4, 2, 1, 0]], None),
    ];
    for (class, bases, orders, wanted) in &rows {
        expect_found(
            &rt,
            &order_of_slices(rt.alloc(), *class, bases, orders),
            *wanted,
        );
        let lists = lists_of(rt.alloc(), orders)?;
        expect_found(&rt, &order(rt.alloc(), *class, bases, &lists), *wanted);
    }
    Ok(())
}

#[test]
fn orders_a_long_chain(rt: HostRuntime) -> Result<(), Fail> {
    let chain: Vec<u16> = (0..255u16).rev().collect(rt.alloc())?;
    let order_of_base: Vec<u16> = (0..254u16).rev().collect(rt.alloc())?;
    let bases = [253];
    let orders = [order_of_base.as_slice()];
    let found = order_of_slices(rt.alloc(), 254, &bases, &orders);
    expect_found(&rt, &found, Some(&chain));
    Ok(())
}

#[test]
fn laws_can_be_called() {
    laws::merge_is_the_relation();
    laws::merge_has_each_number_once();
    laws::merge_preserves_every_order();
    laws::order_begins_with_its_class();
    laws::order_preserves_every_order();
}
