//! Lists cut into pieces, as a split cuts them.

use PieceUnit::{All, Events, Nanos};
use split_pieces::{Gauge, Rules, is_before, is_past};
use std::test::Fail;
use word_values::{Moment, PieceUnit};

/// An item of a list: the time of an event, or of a loss.
#[derive(Clone, Copy)]
enum Entry {
    Event(u64),
    Loss(u64),
}

use Entry::{Event, Loss};

impl Entry {
    fn key(self) -> u64 {
        match self {
            Event(key) | Loss(key) => key,
        }
    }

    fn is_event(self) -> bool {
        matches!(self, Event(_))
    }
}

/// A list, how it is cut, the keys of the items of each file, and whether the list is closed.
#[derive(Clone, Copy)]
struct Row {
    list: &'static [Entry],
    rules: Rules,
    files: &'static [&'static [u64]],
    closed: bool,
}

const fn by(unit: PieceUnit) -> Rules {
    Rules {
        unit,
        repeat: false,
        per_cpu: false,
        start: None,
        stop: None,
    }
}

const fn again(unit: PieceUnit) -> Rules {
    Rules {
        unit,
        repeat: true,
        per_cpu: false,
        start: None,
        stop: None,
    }
}

const fn within(rules: Rules, start: Option<Moment>, stop: Option<Moment>) -> Rules {
    Rules {
        unit: rules.unit,
        repeat: rules.repeat,
        per_cpu: rules.per_cpu,
        start,
        stop,
    }
}

const fn micros(value: u128) -> Option<Moment> {
    Some(Moment { micro: true, value })
}

const fn nanos(value: u128) -> Option<Moment> {
    Some(Moment {
        micro: false,
        value,
    })
}

const NONE: &[Entry] = &[];

const FIVE: &[Entry] = &[Event(10), Event(20), Event(30), Event(40), Event(50)];

const LOSSES: &[Entry] = &[Loss(10), Event(10), Loss(20), Event(20), Loss(30)];

const LATE: &[Entry] = &[
    Event(499),
    Event(500),
    Event(1499),
    Event(1500),
    Event(2499),
];

// The items in front of the first that is to be left, and that one with those after it.
fn before_start(list: &[Entry], start: Option<Moment>) -> &[Entry] {
    for (i, entry) in list.iter().enumerate() {
        if !start.is_some_and(|start| is_before(start, entry.key())) {
            let (_, rest) = list.split_at(i);
            return rest;
        }
    }
    &[]
}

// The items up to the end, and whether there is one past it.
fn up_to_end(list: &[Entry], stop: Option<Moment>) -> (&[Entry], bool) {
    for (i, entry) in list.iter().enumerate() {
        if stop.is_some_and(|stop| is_past(stop, entry.key())) {
            let (front, _) = list.split_at(i);
            return (front, true);
        }
    }
    (list, false)
}

// A piece, what is left after it, and whether it closes the list.
fn cut(list: &[Entry], unit: PieceUnit) -> (&[Entry], &[Entry], bool) {
    let mut gauge = Gauge::new(unit);
    for (i, entry) in list.iter().enumerate() {
        if !gauge.takes(entry.key(), entry.is_event()) {
            let (piece, rest) = list.split_at(i);
            return (piece, rest, true);
        }
    }
    (list, &[], gauge.is_full())
}

fn has_keys(piece: &[Entry], keys: &[u64]) -> bool {
    piece.len() == keys.len()
        && piece
            .iter()
            .zip(keys)
            .all(|(entry, key)| entry.key() == *key)
}

// Whether a list is cut and closed as the row says.
fn agrees(row: &Row) -> bool {
    let from = before_start(row.list, row.rules.start);
    let (mut left, mut closed) = up_to_end(from, row.rules.stop);
    for (k, keys) in row.files.iter().enumerate() {
        if k > 0 && (left.is_empty() || !row.rules.repeat) {
            return false;
        }
        let (piece, rest, closes) = cut(left, row.rules.unit);
        if !has_keys(piece, keys) {
            return false;
        }
        closed = closed || closes && !row.rules.repeat;
        left = rest;
    }
    closed == row.closed && (left.is_empty() || !row.rules.repeat)
}

const fn given(
    list: &'static [Entry],
    rules: Rules,
    files: &'static [&'static [u64]],
    closed: bool,
) -> Row {
    Row {
        list,
        rules,
        files,
        closed,
    }
}

#[test]
fn files_of_lists(rt: HostRuntime) -> Result<(), Fail> {
    for (i, row) in [
        given(NONE, again(Nanos(1)), &[&[]], false),
        given(FIVE, by(Events(2)), &[&[10, 20]], true),
        given(
            FIVE,
            again(Events(2)),
            &[&[10, 20], &[30, 40], &[50]],
            false,
        ),
        given(FIVE, by(Events(6)), &[&[10, 20, 30, 40, 50]], false),
        given(FIVE, by(Nanos(40)), &[&[10, 20, 30, 40]], true),
        given(FIVE, again(Nanos(25)), &[&[10, 20, 30], &[40, 50]], false),
        given(LOSSES, by(Events(2)), &[&[10, 10, 20, 20]], true),
        given(
            LOSSES,
            within(again(Events(1)), nanos(11), None),
            &[&[20, 20], &[30]],
            false,
        ),
        given(FIVE, within(by(All), nanos(40), nanos(20)), &[&[]], true),
        given(FIVE, within(by(All), nanos(60), nanos(20)), &[&[]], false),
        given(
            LATE,
            within(by(All), micros(1), micros(1)),
            &[&[500, 1499]],
            true,
        ),
        given(
            LATE,
            within(by(All), nanos(500), nanos(1499)),
            &[&[500, 1499]],
            true,
        ),
    ]
    .iter()
    .enumerate()
    {
        assert!(rt; agrees(row), "row {i}");
    }
    Ok(())
}
