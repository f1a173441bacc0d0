//! Seats that take turns, in threads of their own and in one thread.

ghost use Rattle.std.specs.Prelude.{◌≡◌, ℕ, ◌+◌, ◌-◌, ◌<◌, ◌≤◌, ◌^◌, ◌++◌, ◌∷◌, [], vec_len, All, MatchBool, IfSome, slice_index_or};
ghost use Rattle.turn_lock.specs.Insides.{removal};
ghost use Rattle.turn_lock.specs.Seat.{numbers_of, IsLast, AreAll};

use ground_model::{Edit, Entry, Limits, LineId};
use ground_num::{Head, Name};
use std::alloc::Global;
use std::process::Abort;
use std::sync::Wait;
use std::thread;
use std::thread::Threads;
use turn_lock::{Filed, TurnLock, TurnSeat};

// A value with a journal and nothing else.
#[derive(Drop)]
struct Book {
    head: Head,
    limits: Limits,
    entries: Vec<Entry>,
    ghost short: { vec_len entries < 2 ^ 32 - 1 },
}

impl Filed for Book {
    ghost journal = { λ b. record { head = b.head; limits = b.limits; entries = b.entries.items } };

    fn filed(&self) -> u32 {
        self.entries.len() as u32
    }
}

impl Book {
    fn add(&mut self, entry: Entry) -> bool
        ensures same { (self.new.head ≡ self.old.head) × (self.new.limits ≡ self.old.limits) }
        ensures entries { MatchBool result
            ((self.new.entries.items ≡ self.old.entries.items ++ entry ∷ [])
            × (vec_len self.old.entries + 1 < 2 ^ 32))
            (self.new.entries.items ≡ self.old.entries.items) }
    {
        if self.entries.len() >= 1000 {
            return false;
        }
        self.entries.push(entry).is_ok()
    }
}

fn entry_of(author: u16, number: u32) -> Entry
    ensures { result ≡ removal author number }
{
    Entry {
        author,
        number,
        edit: Edit::RemoveLine(LineId(number)),
    }
}

// One turn, in which the seat's author makes the entry of this number.
fn make_entry<R: Wait>(rt: &R, lock: &TurnLock<Book>, seat: TurnSeat, number: u32) -> TurnSeat
    requires { seat.table ≡ lock.now.table }
    ensures { (result.table ≡ seat.table) × (numbers_of result ≡ numbers_of seat) }
{
    let author = seat.number();
    let (turn, mut book) = lock.take(rt, seat);
    if book.add(entry_of(author, number)) {
        turn.note(&entry_of(author, number)).leave(book)
    } else {
        turn.leave(book)
    }
}

// Turns of the seat, in which its author makes the entries from 1 to `count`.
fn make_entries<R: Wait>(rt: &R, lock: &TurnLock<Book>, seat: TurnSeat, count: u32) -> TurnSeat
    requires { seat.table ≡ lock.now.table }
    ensures { (result.table ≡ seat.table) × (numbers_of result ≡ numbers_of seat) }
{
    let mut seat = seat;
    for i in 0..count {
        seat = make_entry(rt, lock, seat, i + 1);
    }
    seat
}

// Each seat has so many turns, in a thread of its own.
fn make_in_threads<R: Threads + Wait + Sync + Abort>(
    rt: &R,
    lock: &TurnLock<Book>,
    seats: Vec<TurnSeat>,
    count: u32,
) -> Vec<TurnSeat>
    requires { All (λ s. s.table ≡ lock.now.table) seats.items }
    ensures len { vec_len result ≡ vec_len seats }
    ensures each { (i : ℕ) (d : _) → i < vec_len seats
        → ((slice_index_or result.items i d).table ≡ (slice_index_or seats.items i d).table)
        × (numbers_of (slice_index_or result.items i d)
        ≡ numbers_of (slice_index_or seats.items i d)) }
{
    let make = |seat: TurnSeat| -> TurnSeat
        requires { seat.table ≡ lock.now.table }
        ensures { (result.table ≡ seat.table) × (numbers_of result ≡ numbers_of seat) }
    { make_entries(rt, lock, seat, count) };
    let Ok(made) = thread::map_vec(rt, seats, &make) else {
        panic!(rt; "memory")
    };
    made
}

// Joins all seats, each after it made as many entries. The order is one of `n!`.
fn join_all<R: Wait>(
    rt: &R,
    lock: &TurnLock<Book>,
    seats: Vec<TurnSeat>,
    order: usize,
    count: u32,
) -> Option<TurnSeat>
    requires { AreAll lock.now seats.items }
    ensures { IfSome result (λ s. (s.table ≡ lock.now.table) × IsLast lock.now s) }
{
    let (mut seats, mut order) = (seats, order);
    let mut left = seats.len();
    if left == 0 {
        return None;
    }
    let first = seats.remove(order % left);
    let mut all = make_entries(rt, lock, first, count);
    while left > 1 {
        order /= left;
        left -= 1;
        let next = seats.remove(order % left);
        let next = make_entries(rt, lock, next, count);
        all = lock.join(all, next);
    }
    Some(all)
}

fn new_lock<R: Abort>(rt: &R, alloc: Global, seats: u16) -> (TurnLock<Book>, Vec<TurnSeat>)
    requires { (0 < seats) × (seats ≤ 16) }
    ensures { AreAll result.0 result.1.items }
{
    let Ok(name) = Name::from_bytes(alloc, b"book") else {
        panic!(rt; "memory")
    };
    let book = Book {
        head: Head::plain(name),
        limits: Limits::FULL,
        entries: Vec::new(alloc),
    };
    let Ok(made) = TurnLock::new(alloc, book, seats) else {
        panic!(rt; "memory")
    };
    made
}

fn has_ten_of_each(book: &Book, authors: u16) -> bool {
    for author in 0..authors {
        let numbers = book.entries.iter().filter(|e| e.author == author + 1);
        if !numbers.map(|e| e.number).eq(1..11) {
            return false;
        }
    }
    book.entries.len() == 10 * usize::from(authors)
}

fn check_in_threads<R: Threads + Wait + Sync + Abort>(rt: &R, alloc: Global, seats: u16)
    requires { (0 < seats) × (seats ≤ 16) }
{
    let (lock, all) = new_lock(rt, alloc, seats);
    let made = make_in_threads(rt, &lock, all, 10);
    let Some(last) = join_all(rt, &lock, made, 0, 0) else {
        panic!(rt; "no seat")
    };
    assert_eq!(rt; last.front(), 10 * u32::from(seats), "with {seats} seats");
    let book = lock.close(last);
    assert!(rt; has_ten_of_each(&book, seats), "with {seats} seats");
}

#[test]
fn seats_in_threads_make_each_entry_once(rt: HostRuntime) {
    check_in_threads(&rt, rt.alloc(), 2);
    check_in_threads(&rt, rt.alloc(), 16);
}

#[test]
fn seats_are_joined_in_every_order(rt: HostRuntime) {
    for order in 0..24 {
        let (lock, seats) = new_lock(&rt, rt.alloc(), 4);
        let Some(last) = join_all(&rt, &lock, seats, order, 10) else {
            panic!(rt; "no seat")
        };
        assert_eq!(rt;
            usize::from(last.number()),
            order % 4 + 1,
            "in order {order}"
        );
        assert_eq!(rt; last.front(), 40, "in order {order}");
        let book = lock.close(last);
        assert!(rt; has_ten_of_each(&book, 4), "in order {order}");
    }
}
