//! Calls in each size at the edges of its values, orders, names and faults. What is expected is worked out from C11
//! 7.17.7.5, by which sums wrap round, and from GCC's manual, by which nand is the complement of and.

ghost use Rattle.seat_views.specs.Trials.{IsReady};

use crate::trials::{call, cell, fault_of, give, load, make, open};
use crate::{Region, RegionFault, SizedCall, SizedFault, SizedOp, read_name};
use op_table::{Reply, StepSet};
use place_core::Place;
use seat_views::Pass;
use std::process::Abort;
use std::sync::Wait;
use std::test::*;
use target_desc::{Target, builtin};

const NAMES: [(&str, SizedOp); 16] = [
    ("load", SizedOp::Load),
    ("store", SizedOp::Store),
    ("exchange", SizedOp::Exchange),
    ("compare_exchange", SizedOp::CompareExchange),
    ("fetch_add", SizedOp::FetchAdd),
    ("fetch_sub", SizedOp::FetchSub),
    ("fetch_and", SizedOp::FetchAnd),
    ("fetch_or", SizedOp::FetchOr),
    ("fetch_xor", SizedOp::FetchXor),
    ("fetch_nand", SizedOp::FetchNand),
    ("add_fetch", SizedOp::AddFetch),
    ("sub_fetch", SizedOp::SubFetch),
    ("and_fetch", SizedOp::AndFetch),
    ("or_fetch", SizedOp::OrFetch),
    ("xor_fetch", SizedOp::XorFetch),
    ("nand_fetch", SizedOp::NandFetch),
];

/// A target of each kind on which objects share words: of 64 and 32 bits, with the lowest address lowest or highest,
/// with all steps and with none.
fn packed(word_bits: u32, big: bool, all: bool) -> Target {
    Target {
        word_bits,
        packed: true,
        steps: StepSet {
            swap: all,
            add: all,
            bits: all,
            order: all,
        },
        locks: 67,
        section: false,
        big,
    }
}

/// The values of a size at which something happens.
#[derive(Clone, Copy)]
struct Edge {
    size: u32,
    /// All bits.
    all: u128,
    /// All bits but the lowest.
    even: u128,
    /// The highest bit.
    high: u128,
    /// All bits but the highest.
    low: u128,
}

const EDGES: [Edge; 5] = [
    Edge {
        size: 1,
        all: 255,
        even: 254,
        high: 128,
        low: 127,
    },
    Edge {
        size: 2,
        all: 65_535,
        even: 65_534,
        high: 32_768,
        low: 32_767,
    },
    Edge {
        size: 4,
        all: 4_294_967_295,
        even: 4_294_967_294,
        high: 2_147_483_648,
        low: 2_147_483_647,
    },
    Edge {
        size: 8,
        all: 18_446_744_073_709_551_615,
        even: 18_446_744_073_709_551_614,
        high: 9_223_372_036_854_775_808,
        low: 9_223_372_036_854_775_807,
    },
    Edge {
        size: 16,
        all: 340_282_366_920_938_463_463_374_607_431_768_211_455,
        even: 340_282_366_920_938_463_463_374_607_431_768_211_454,
        high: 170_141_183_460_469_231_731_687_303_715_884_105_728,
        low: 170_141_183_460_469_231_731_687_303_715_884_105_727,
    },
];

/// The value before, the operation, its values, the reply, and the value after.
type Row = (u128, SizedOp, u128, u128, Reply, u128);

/// Each operation at an edge, and the exchange that compares on another value besides.
fn rows(at: Edge) -> [Row; 17] {
    let Edge {
        all,
        even,
        high,
        low,
        ..
    } = at;
    [
        (all, SizedOp::Load, 0, 0, Reply::Value(all), all),
        (all, SizedOp::Store, high, 0, Reply::Unit, high),
        (all, SizedOp::Exchange, high, 0, Reply::Value(all), high),
        (
            all,
            SizedOp::CompareExchange,
            all,
            high,
            Reply::Done(all),
            high,
        ),
        (
            all,
            SizedOp::CompareExchange,
            low,
            high,
            Reply::Failed(all),
            all,
        ),
        (all, SizedOp::FetchAdd, 2, 0, Reply::Value(all), 1),
        (0, SizedOp::FetchSub, 1, 0, Reply::Value(0), all),
        (all, SizedOp::FetchAnd, high, 0, Reply::Value(all), high),
        (low, SizedOp::FetchOr, high, 0, Reply::Value(low), all),
        (high, SizedOp::FetchXor, all, 0, Reply::Value(high), low),
        (all, SizedOp::FetchNand, high, 0, Reply::Value(all), low),
        (all, SizedOp::AddFetch, 1, 0, Reply::Value(0), 0),
        (0, SizedOp::SubFetch, 1, 0, Reply::Value(all), all),
        (low, SizedOp::AndFetch, high, 0, Reply::Value(0), 0),
        (even, SizedOp::OrFetch, 1, 0, Reply::Value(all), all),
        (all, SizedOp::XorFetch, all, 0, Reply::Value(0), 0),
        (1, SizedOp::NandFetch, all, 0, Reply::Value(even), even),
    ]
}

/// Each operation of a size on the second of three neighbours, of which the others keep their value.
fn at_edges<R: Abort + Wait>(rt: &R, region: &Region, pass: &mut Pass, at: Edge)
    requires { IsReady region.now.arena pass.old }
    ensures { IsReady region.now.arena pass.new }
{
    let (size, address) = (at.size, u64::from(at.size));
    for (before, op, a, b, reply, after) in rows(at) {
        let stored = make(
            rt,
            region,
            pass,
            call(SizedOp::Store, size, address, before, 0),
        );
        assert_eq!(rt; stored, Ok(Reply::Unit));
        let made = make(rt, region, pass, call(op, size, address, a, b));
        assert_eq!(rt; made, Ok(reply), "{op:?} of size {size}");
        let left = make(rt, region, pass, load(size, address));
        assert_eq!(rt; left, Ok(Reply::Value(after)), "{op:?} of size {size}");
    }
    let first = make(rt, region, pass, load(size, 0));
    assert_eq!(rt; first, Ok(Reply::Value(90)));
    let last = make(rt, region, pass, load(size, 2 * address));
    assert_eq!(rt; last, Ok(Reply::Value(165)));
}

#[test]
fn operations_wrap_in_each_size(rt: HostRuntime) -> Result<(), Fail> {
    for target in [
        packed(64, false, true),
        packed(64, true, true),
        packed(32, false, true),
        packed(32, true, false),
    ] {
        for at in EDGES {
            let address = u64::from(at.size);
            let cells = [
                cell(0, at.size, 90),
                cell(address, at.size, 0),
                cell(2 * address, at.size, 165),
            ];
            let (region, mut root) = open(rt.alloc(), &target, &cells).ok_or("it opens")?;
            let mut pass = give(&region, &mut root).ok_or("a number is left")?;
            at_edges(&rt, &region, &mut pass, at);
        }
    }
    Ok(())
}

/// The call with another order.
fn ordered(call: SizedCall, order: u32) -> SizedCall {
    SizedCall { order, ..call }
}

/// Calls one after another on the three cells, of which some are refused.
fn mixed<R: Abort + Wait>(rt: &R, region: &Region, pass: &mut Pass)
    requires { IsReady region.now.arena pass.old }
{
    let rows = [
        (call(SizedOp::FetchAdd, 1, 0, 10, 0), Ok(Reply::Value(250))),
        (ordered(load(1, 0), 2), Ok(Reply::Value(4))),
        (ordered(load(1, 1), 1), Ok(Reply::Value(7))),
        (call(SizedOp::AddFetch, 16, 16, 1, 0), Ok(Reply::Value(0))),
        (ordered(load(1, 0), 3), Err(SizedFault::BadOrder)),
        (load(2, 0), Err(SizedFault::BadSize)),
        (load(1, 3), Err(SizedFault::NoCell)),
        (
            call(SizedOp::Store, 1, 1, 256, 0),
            Err(SizedFault::BadValue),
        ),
        (load(1, 1), Ok(Reply::Value(7))),
    ];
    for (call, wanted) in rows {
        let made = make(rt, region, pass, call);
        assert_eq!(rt; made, wanted, "{call:?}");
    }
}

#[test]
fn cells_of_three_sizes_are_called(rt: HostRuntime) -> Result<(), Fail> {
    let target = builtin(b"word64").ok_or("a target")?;
    let cells = [cell(0, 1, 250), cell(1, 1, 7), cell(16, 16, u128::MAX)];
    let (region, mut root) = open(rt.alloc(), &target, &cells).ok_or("it opens")?;
    let mut pass = give(&region, &mut root).ok_or("a number is left")?;
    mixed(&rt, &region, &mut pass);
    Ok(())
}

/// Whether an operation accepts an order, and an exchange that compares a failure order beside it.
fn accepted(op: SizedOp, order: u32, failure: u32) -> bool {
    let of_load = [0, 1, 2, 5];
    match op {
        SizedOp::Load => of_load.contains(&order),
        SizedOp::Store => [0, 3, 5].contains(&order),
        SizedOp::CompareExchange => order < 6 && of_load.contains(&failure),
        _ => order < 6,
    }
}

/// Each operation with each order: what isn't accepted is refused, and the value stays.
fn with_orders<R: Abort + Wait>(rt: &R, region: &Region, pass: &mut Pass)
    requires { IsReady region.now.arena pass.old }
{
    for (_, op) in NAMES {
        for order in [0, 1, 2, 3, 4, 5, 6, u32::MAX] {
            for failure in [0, 1, 2, 3, 4, 5, 6, u32::MAX] {
                let _ = make(rt, region, pass, call(SizedOp::Store, 2, 2, 1, 0));
                let asked = SizedCall {
                    order,
                    failure,
                    ..call(op, 2, 2, 3, 1)
                };
                let made = make(rt, region, pass, asked);
                let wanted = accepted(op, order, failure);
                assert_eq!(rt; made.is_ok(), wanted, "{asked:?}");
                if !wanted {
                    assert_eq!(rt; made, Err(SizedFault::BadOrder), "{asked:?}");
                    let kept = make(rt, region, pass, load(2, 2));
                    assert_eq!(rt; kept, Ok(Reply::Value(1)), "{asked:?}");
                }
            }
        }
    }
}

#[test]
fn orders_are_accepted_and_refused(rt: HostRuntime) -> Result<(), Fail> {
    let cells = [cell(2, 2, 0)];
    let (region, mut root) = open(rt.alloc(), &packed(32, true, true), &cells).ok_or("it opens")?;
    let mut pass = give(&region, &mut root).ok_or("a number is left")?;
    with_orders(&rt, &region, &mut pass);
    Ok(())
}

/// Calls with several causes: the first of them is told. A value that isn't used has no bounds.
fn with_causes<R: Abort + Wait>(rt: &R, region: &Region, pass: &mut Pass)
    requires { IsReady region.now.arena pass.old }
{
    let exchange = SizedOp::CompareExchange;
    let rows = [
        (
            ordered(call(SizedOp::Store, 3, 5, 256, 0), 9),
            SizedFault::NoCell,
        ),
        (
            ordered(call(SizedOp::Store, 1, 4, 65_536, 0), 9),
            SizedFault::BadSize,
        ),
        (
            ordered(call(SizedOp::Store, 2, 4, 65_536, 0), 9),
            SizedFault::BadValue,
        ),
        (call(exchange, 2, 4, 65_536, 0), SizedFault::BadValue),
        (call(exchange, 2, 4, 0, 65_536), SizedFault::BadValue),
        (
            ordered(call(SizedOp::Store, 2, 4, 65_535, 0), 9),
            SizedFault::BadOrder,
        ),
        (load(2, u64::MAX), SizedFault::NoCell),
    ];
    for (call, fault) in rows {
        let made = make(rt, region, pass, call);
        assert_eq!(rt; made, Err(fault), "{call:?}");
    }
    let loaded = make(
        rt,
        region,
        pass,
        call(SizedOp::Load, 2, 4, u128::MAX, u128::MAX),
    );
    assert_eq!(rt; loaded, Ok(Reply::Value(9)));
    let added = make(
        rt,
        region,
        pass,
        call(SizedOp::FetchAdd, 2, 4, 1, u128::MAX),
    );
    assert_eq!(rt; added, Ok(Reply::Value(9)));
}

#[test]
fn first_cause_is_told(rt: HostRuntime) -> Result<(), Fail> {
    let target = builtin(b"cas32").ok_or("a target")?;
    let cells = [cell(4, 2, 9)];
    let (region, mut root) = open(rt.alloc(), &target, &cells).ok_or("it opens")?;
    let mut pass = give(&region, &mut root).ok_or("a number is left")?;
    with_causes(&rt, &region, &mut pass);
    Ok(())
}

#[test]
fn first_cell_with_a_fault_decides(rt: HostRuntime) -> Result<(), Fail> {
    let target = builtin(b"word64").ok_or("a target")?;
    // A region on words of 64 bits ends at byte 134,217,728, and one on words of 32 bits at 67,108,864.
    let rows = [
        (
            cell(0, 4, 0),
            cell(2, 2, 0),
            RegionFault::NotAfter { cell: 1 },
        ),
        (
            cell(2, 4, 0),
            cell(0, 3, 0),
            RegionFault::Unaligned { cell: 0 },
        ),
        (
            cell(0, 3, 256),
            cell(0, 1, 0),
            RegionFault::BadSize { cell: 0 },
        ),
        (
            cell(0, 0, 0),
            cell(0, 1, 0),
            RegionFault::BadSize { cell: 0 },
        ),
        (
            cell(8, 8, 0),
            cell(3, 2, 65_536),
            RegionFault::Unaligned { cell: 1 },
        ),
        (
            cell(8, 8, 0),
            cell(8, 8, 0),
            RegionFault::NotAfter { cell: 1 },
        ),
        (
            cell(0, 1, 0),
            cell(134_217_728, 1, 256),
            RegionFault::TooFar { cell: 1 },
        ),
        (
            cell(0, 1, 0),
            cell(134_217_720, 16, 0),
            RegionFault::Unaligned { cell: 1 },
        ),
        (
            cell(0, 1, 0),
            cell(u64::MAX - 15, 16, 0),
            RegionFault::TooFar { cell: 1 },
        ),
        (
            cell(0, 1, 256),
            cell(0, 3, 0),
            RegionFault::BadStart { cell: 0 },
        ),
        (
            cell(0, 1, 255),
            cell(2, 2, 65_536),
            RegionFault::BadStart { cell: 1 },
        ),
    ];
    for (first, second, fault) in rows {
        let told = fault_of(rt.alloc(), &target, first, second);
        assert_eq!(rt; told, Some(fault), "{first:?}, {second:?}");
    }
    Ok(())
}

/// The most cells that a region may have, a byte each.
#[test]
fn the_most_cells_are_opened(rt: HostRuntime) -> Result<(), Fail> {
    let mut cells = Vec::new(rt.alloc());
    for address in 0..65_536 {
        cells.push(cell(address, 1, 7))?;
    }
    let target = packed(64, false, true);
    let (region, mut root) = open(rt.alloc(), &target, &cells).ok_or("it opens")?;
    let mut pass = give(&region, &mut root).ok_or("a pass")?;
    let reply = make(&rt, &region, &mut pass, load(1, 65_535));
    assert_eq!(rt; reply, Ok(Reply::Value(7)));
    Ok(())
}

#[test]
fn lowest_address_lies_lowest_or_highest(rt: HostRuntime) -> Result<(), Fail> {
    for (big, shift) in [(false, 8), (true, 48)] {
        let cells = [cell(1, 1, 7)];
        let (region, _root) = open(rt.alloc(), &packed(64, big, true), &cells).ok_or("it opens")?;
        let object = region
            .arena()
            .shape()
            .objects
            .as_slice()
            .first()
            .ok_or("an object")?;
        let place = Place::Lane {
            word: 0,
            shift,
            width: 8,
        };
        assert_eq!(rt; object.place, place);
    }
    Ok(())
}

#[test]
fn names_are_read(rt: HostRuntime) -> Result<(), Fail> {
    for (words, op) in NAMES {
        for size in [1, 2, 4, 8, 16] {
            let name = format!(in rt.alloc(); "__atomic_{words}_{size}")?;
            assert_eq!(rt; read_name(name.as_bytes()), Some((op, size)), "{name}");
        }
    }
    Ok(())
}

#[test]
fn other_texts_are_no_names(rt: HostRuntime) {
    for text in [
        "",
        "__atomic_",
        "__atomic__1",
        "__atomic_load",
        "__atomic_load_",
        "__atomic_load_0",
        "__atomic_load_3",
        "__atomic_load_01",
        "__atomic_load_32",
        "__atomic_load_1 ",
        "_atomic_load_1",
        "__atomic_Load_1",
        "__atomic_load_n_1",
        "__atomic_fetch_max_8",
        "__atomic_max_fetch_8",
        "__atomic_compare_exchange_weak_4",
        "__atomic_fetch_nand_8\0",
        "__sync_fetch_and_add_8",
    ] {
        assert_eq!(rt; read_name(text.as_bytes()), None, "{text}");
    }
}
