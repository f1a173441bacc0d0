//! Keys set and taken out in several orders, on more pages than a level has.

use crate::fixtures::{compare, remove, set};
use page_index::PageIndex;
use std::alloc::Global;
use std::collections::BTreeMap;
use std::process::Abort;
use std::test::Fail;

// So many keys need three levels of pages in any order.
const COUNT: u64 = 4_500;

// An order in which keys come.
#[derive(Clone, Copy)]
enum Order {
    Ascending,
    Descending,
    Scattered,
}

const ORDERS: [Order; 3] = [Order::Ascending, Order::Descending, Order::Scattered];

// The key at this turn. Each comes once, and there is a gap between any two.
fn key_at(order: Order, turn: u64) -> u64 {
    let turn = match order {
        Order::Ascending => turn,
        Order::Descending => COUNT.saturating_sub(1).saturating_sub(turn),
        Order::Scattered => turn.wrapping_mul(1_009) % COUNT,
    };
    turn.wrapping_mul(1_000)
}

fn fill<R: Abort>(
    rt: &R,
    index: &mut PageIndex<u32>,
    map: &mut BTreeMap<u64, u32>,
    order: Order,
) -> Result<(), Fail> {
    for turn in 0..COUNT {
        set(rt, index, map, key_at(order, turn), turn as u32)?;
    }
    Ok(())
}

fn empty_again<R: Abort>(
    rt: &R,
    index: &mut PageIndex<u32>,
    map: &mut BTreeMap<u64, u32>,
    order: Order,
) -> Result<(), Fail> {
    for turn in 0..COUNT {
        remove(rt, index, map, key_at(order, turn))?;
        if turn % 500 == 0 {
            compare(rt, index, map);
        }
    }
    Ok(())
}

fn there_and_back<R: Abort>(
    rt: &R,
    alloc: Global,
    filling: Order,
    emptying: Order,
) -> Result<(), Fail> {
    let mut index = PageIndex::empty(alloc);
    let mut map = BTreeMap::new(alloc);
    fill(rt, &mut index, &mut map, filling)?;
    compare(rt, &index, &map);
    empty_again(rt, &mut index, &mut map, emptying)?;
    assert_eq!(rt; index.len(), 0);
    Ok(())
}

#[test]
fn keys_come_and_go_in_every_order(rt: HostRuntime) -> Result<(), Fail> {
    for filling in ORDERS {
        there_and_back(&rt, rt.alloc(), filling, Order::Ascending)?;
        there_and_back(&rt, rt.alloc(), filling, Order::Descending)?;
        there_and_back(&rt, rt.alloc(), filling, Order::Scattered)?;
    }
    Ok(())
}
