//! Two passes at one desk, in one thread.

ghost use Rattle.std.specs.Prelude.{◌≡◌, ◌∷◌, [], length};
ghost use Rattle.turn_lock.specs.Seat.{numbers_of, AreAll};

use crate::site::{addition, apply, commit, hold, open_desk, place, plan};
use desk::{Desk, Pass};
use ground_model::Mark;
use std::alloc::Global;
use std::process::Abort;
use std::sync::Wait;
use store::{Commit, Store, Version};

// The points of a square, with the front after each.
const SQUARE: [((i16, i16, i16), u32); 4] = [
    ((0, 0, 2), 1),
    ((0, 10, 0), 2),
    ((10, 0, 0), 3),
    ((10, 10, 4), 4),
];

// A desk with two passes.
fn open_two<R: Abort>(rt: &R, alloc: Global) -> (Desk, Pass, Pass)
    ensures seats { result.0.seats ≡ 2 }
    ensures desk { (result.1.table ≡ result.0.table) × (result.2.table ≡ result.0.table) }
    ensures numbers { (numbers_of result.1 ≡ 1 ∷ []) × (numbers_of result.2 ≡ 2 ∷ []) }
{
    let (desk, mut passes) = open_desk(rt, alloc, 2, &[]);
    let a = passes.remove(0);
    let b = passes.remove(0);
    (desk, a, b)
}

// Joins the two passes, and closes the desk.
fn close_two<R: Abort>(rt: &R, alloc: Global, desk: Desk, a: Pass, b: Pass) -> Store
    requires seats { desk.seats ≡ 2 }
    requires desk { (a.table ≡ desk.table) × (b.table ≡ desk.table) }
    requires numbers { (numbers_of a ≡ 1 ∷ []) × (numbers_of b ≡ 2 ∷ []) }
{
    let Ok(mut all) = Vec::with_capacity(alloc, 1) else {
        panic!(rt; "memory")
    };
    all.push_reserved(desk.join(a, b));
    desk.close(all)
}

fn add_square<R: Wait + Abort>(rt: &R, desk: &Desk, pass: Pass) -> Pass
    requires { pass.table ≡ desk.now.table }
    ensures { (result.table ≡ pass.table) × (numbers_of result ≡ numbers_of pass) }
{
    let mut pass = pass;
    for (point, front) in SQUARE {
        let (next, found) = apply(rt, desk, pass, addition(rt, point));
        assert_eq!(rt; found, front, "{point:?}");
        pass = next;
    }
    pass
}

// Whether the answer is a conflict at front 5, for the facet of the least place.
fn is_conflict<R: Abort>(rt: &R, answer: &Commit) -> bool {
    let Commit::Conflict(version, Mark::Tri(facet), _) = answer else {
        return false;
    };
    version.front() == 5
        && version.points() == 5
        && facet.a == place(rt, 0, 0)
        && facet.b == place(rt, 0, 10)
        && facet.c == place(rt, 10, 10)
}

// Whether the answer is that the edit was made, at front 5.
fn is_done(answer: &Commit) -> bool {
    let Commit::Done(version, _) = answer else {
        return false;
    };
    version.front() == 5
}

// Both plan a point in the square at front 4, and A commits first.
fn race<R: Wait + Abort>(rt: &R, desk: &Desk, a: Pass, b: Pass) -> (Pass, Pass)
    requires desk { (a.table ≡ desk.now.table) × (b.table ≡ desk.now.table) }
    ensures a { (result.0.table ≡ a.table) × (numbers_of result.0 ≡ numbers_of a) }
    ensures b { (result.1.table ≡ b.table) × (numbers_of result.1 ≡ numbers_of b) }
{
    let (a, at_a) = hold(rt, desk, a);
    let (b, at_b) = hold(rt, desk, b);
    let first = plan(rt, &at_a, addition(rt, (2, 5, 1)));
    let second = plan(rt, &at_b, addition(rt, (5, 2, 1)));
    assert_eq!(rt; (first.base(), first.zone()), (4, 2), "A's plan");
    assert_eq!(rt; (second.base(), second.zone()), (4, 2), "B's plan");
    let (a, answer) = commit(rt, desk, a, first);
    assert!(rt; is_done(&answer), "A's commit");
    let (b, answer) = commit(rt, desk, b, second);
    assert!(rt; is_conflict(rt, &answer), "B's commit");
    (a, b)
}

#[test]
fn the_second_of_two_plans_on_one_facet_conflicts(rt: HostRuntime) {
    let (desk, a, b) = open_two(&rt, rt.alloc());
    let a = add_square(&rt, &desk, a);
    let (a, b) = race(&rt, &desk, a, b);
    let store = close_two(&rt, rt.alloc(), desk, a, b);
    assert_eq!(rt; store.front(), 5);
}
