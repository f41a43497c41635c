//! Orders that were worked out by hand.

use crate::rows::expect;
use std::alloc::{AllocError, Global};
use tree_samples::named;
use type_layout::{Name, Names};
use unit_interface::{Order, OrderError, UsesOf, initial_order};

// The names of these letters, each a unit.
fn names(alloc: Global, letters: &str) -> Result<Names, AllocError> {
    let mut list = Names::new(alloc);
    for letter in letters.as_bytes() {
        list.push(letter_name(*letter)?)?;
    }
    Ok(list)
}

fn letter_name(letter: u8) -> Result<Name, AllocError> {
    Name::new(&[letter]).ok_or(AllocError)
}

fn unit(alloc: Global, uses: &Uses) -> Result<UsesOf, AllocError> {
    let (letter, interface, implementation) = uses;
    let implementation = names(alloc, implementation)?;
    let interface = names(alloc, interface)?;
    let name = named(letter)?;
    Ok(UsesOf {
        name,
        interface,
        implementation,
    })
}

fn push_name(text: &mut String, name: &Name) -> Result<(), AllocError> {
    for byte in name.as_bytes() {
        text.push(char::from(*byte))?;
    }
    Ok(())
}

// The order of these units for the first one.
fn order_of(alloc: Global, units: &[UsesOf]) -> Result<Order, OrderError> {
    if units.is_empty() {
        Err(OrderError::NoMemory)
    } else {
        initial_order(alloc, units, 0)
    }
}

fn letters(alloc: Global, units: &[UsesOf], order: &[u32]) -> Result<String, AllocError> {
    let mut text = String::new(alloc);
    for place in order {
        if let Some(unit) = units.get(*place as usize) {
            push_name(&mut text, &unit.name)?;
        }
    }
    Ok(text)
}

fn circle(alloc: Global, name: &Name) -> Result<String, AllocError> {
    let mut text = String::new(alloc);
    text.push('!')?;
    push_name(&mut text, name)?;
    Ok(text)
}

// The order as letters, or `!` and the unit that is told to lie on a circle.
fn told(alloc: Global, units: &[UsesOf]) -> Result<String, AllocError> {
    match order_of(alloc, units) {
        Ok(order) => letters(alloc, units, order.as_slice()),
        Err(OrderError::Circular { name }) => circle(alloc, &name),
        Err(OrderError::NoMemory) => Err(AllocError),
    }
}

/// A unit, the units that its interface uses, and those that its implementation uses.
type Uses = (&'static str, &'static str, &'static str);

fn units(alloc: Global, list: &[Uses]) -> Result<Vec<UsesOf>, AllocError> {
    let mut units = Vec::new(alloc);
    for uses in list {
        units.push(unit(alloc, uses)?)?;
    }
    Ok(units)
}

fn ordered(alloc: Global, list: &[Uses]) -> Result<String, AllocError> {
    let units = units(alloc, list)?;
    told(alloc, units.as_slice())
}

// The number of the first row with another order.
fn first_wrong(alloc: Global, rows: &[Row]) -> Result<Option<usize>, AllocError> {
    for number in 0..rows.len() {
        let (list, wanted) = rows[number];
        if ordered(alloc, list)?.as_str() != wanted {
            return Ok(Some(number));
        }
    }
    Ok(None)
}

/// The units of a program, and their order.
type Row = (&'static [Uses], &'static str);

const ORDERS: &[Row] = &[
    (&[("P", "", "")], "P"),
    (&[("P", "AB", ""), ("B", "", ""), ("A", "", "")], "ABP"),
    (
        &[
            ("P", "AB", ""),
            ("A", "D", ""),
            ("B", "D", ""),
            ("D", "", ""),
        ],
        "DABP",
    ),
    (
        &[
            ("P", "A", ""),
            ("A", "D", "C"),
            ("C", "", ""),
            ("D", "", ""),
        ],
        "DCAP",
    ),
    (&[("P", "OAA", ""), ("A", "", "O"), ("X", "", "")], "AP"),
];

#[test]
fn used_units_come_first(rt: HostRuntime) {
    expect(&rt, first_wrong(rt.alloc(), ORDERS));
}

const CIRCLES_THROUGH_IMPLEMENTATIONS: &[Row] = &[
    (&[("P", "A", ""), ("A", "B", ""), ("B", "", "A")], "BAP"),
    (&[("P", "BA", ""), ("A", "B", ""), ("B", "", "A")], "ABP"),
    (&[("P", "", "P")], "P"),
];

#[test]
fn a_unit_that_is_not_finished_is_passed_over(rt: HostRuntime) {
    expect(
        &rt,
        first_wrong(rt.alloc(), CIRCLES_THROUGH_IMPLEMENTATIONS),
    );
}

const CIRCLES: &[Row] = &[
    (&[("P", "A", ""), ("A", "B", ""), ("B", "A", "")], "!A"),
    (&[("P", "A", ""), ("A", "A", "")], "!A"),
    (
        &[
            ("P", "A", ""),
            ("A", "B", ""),
            ("B", "C", ""),
            ("C", "D", ""),
            ("D", "B", ""),
        ],
        "!B",
    ),
];

#[test]
fn a_circle_of_interface_uses_is_told(rt: HostRuntime) {
    expect(&rt, first_wrong(rt.alloc(), CIRCLES));
}
