//! A lane gone through from several places, and places that are gone to. At each the key that the lane tells by itself is
//! its head's.

ghost use Rattle.std.specs.Prelude.{◌≡◌, ◌≢◌, ◌<◌, false, IfOk, IsTrue, [], length};
ghost use Rattle.event_cursor.specs.Standing.{held_left};

use event_cursor::{Loaded, Place, Sought, head, head_key, is_there, load, seek, step};
use page_pool::{Lane, LaneState, Pool};
use std::alloc::{AllocError, Global};
use std::str::Split;
use std::test::Fail;
use subpage::Item;
use trace_base::{ByteText, Part};
use trace_outside::{Failed, File, MemFile};
use trace_samples::Page::{Lossy, Malformed, Of};
use trace_samples::{layout, put_pages};

// A file of five sub-buffers: two events; nothing; a loss of seven and two events, with a time before the last one; one
// that commits more than it can hold; one event.
fn file_bytes(alloc: Global) -> Result<Vec<u8>, AllocError> {
    let mut bytes = Vec::new(alloc);
    let third = Lossy(25, Some(7), &[28, 40]);
    put_pages(
        &mut bytes,
        &[Of(&[10, 30]), Of(&[]), third, Malformed, Of(&[60])],
    )?;
    Ok(bytes)
}

const LOSS: Item<'static> = Item::Loss {
    time: 25,
    count: Some(7),
};

fn set_part(lane: &mut Lane, part: Part)
    requires fresh { lane.old.cursor.state ≡ LaneState.Fresh }
    ensures fresh { lane.new.cursor.state ≡ LaneState.Fresh }
{
    lane.part = part;
}

// Whether the lane holds an item.
fn holds_item(lane: &Lane) -> bool
    ensures held { IsTrue result → lane.now.cursor.state ≡ LaneState.Held }
    ensures some { IsTrue result → 0 < length (held_left lane.now) }
    ensures none { result ≡ false → held_left lane.now ≡ [] }
{
    match lane.cursor.state {
        LaneState::Held => match head(lane) {
            Some(_) => true,
            None => false,
        },
        LaneState::Fresh | LaneState::Ended | LaneState::Malformed => false,
    }
}

// The key that the lane tells by itself is that of its head.
fn knows_key(lane: &Lane) -> bool {
    match head(lane) {
        Some((key, _)) => head_key(lane) == Some(key),
        None => head_key(lane) == None,
    }
}

// Loads the lane where it has no item.
fn ready<F: File>(file: &mut F, lane: &mut Lane) -> Result<Loaded, Failed>
    requires sound { lane.old.cursor.state ≢ LaneState.Malformed }
    ensures held { IfOk result (λ loaded. loaded ≡ Loaded.Loaded → lane.new.cursor.state ≡ LaneState.Held) }
    ensures some { IfOk result (λ loaded. loaded ≡ Loaded.Loaded → 0 < length (held_left lane.new)) }
{
    if holds_item(lane) {
        return Ok(Loaded::Loaded);
    }
    load(file, lane)
}

fn event(time: u64, payload: &'static [u8]) -> Item<'static> {
    Item::Event { time, payload }
}

// The item of a letter, with its key in the file: `a` to `e` are those of the first three sub-buffers, `l` and `m` the first
// two of the third where nothing was before it, `f` that of the last one.
fn keyed(letter: u8) -> (u64, Item<'static>) {
    match letter {
        b'a' => (10, event(10, b"\x0a\0\0\0\0\0\0\0")),
        b'b' => (30, event(30, b"\x1e\0\0\0\0\0\0\0")),
        b'c' => (30, LOSS),
        b'd' => (30, event(28, b"\x1c\0\0\0\0\0\0\0")),
        b'e' => (40, event(40, b"\x28\0\0\0\0\0\0\0")),
        b'l' => (25, LOSS),
        b'm' => (28, event(28, b"\x1c\0\0\0\0\0\0\0")),
        _ => (60, event(60, b"\x3c\0\0\0\0\0\0\0")),
    }
}

// The lane has just these items left, with these keys, and then this is loaded.
fn tells<F: File>(file: &mut F, lane: &mut Lane, items: &str, end: Result<Loaded, Failed>) -> bool
    requires sound { lane.old.cursor.state ≢ LaneState.Malformed }
{
    for letter in items.as_bytes() {
        let Ok(Loaded::Loaded) = ready(file, lane) else {
            return false;
        };
        if head(lane) != Some(keyed(*letter)) || !knows_key(lane) {
            return false;
        }
        step(lane);
        if !knows_key(lane) {
            return false;
        }
    }
    ready(file, lane) == end && knows_key(lane)
}

// Uses so many items up.
fn go_on<F: File>(file: &mut F, lane: &mut Lane, count: u32)
    requires sound { lane.old.cursor.state ≢ LaneState.Malformed }
{
    for _ in 0..count {
        let Ok(Loaded::Loaded) = ready(file, lane) else {
            return;
        };
        step(lane);
    }
}

// The lane holds a sub-buffer at this place.
fn stands_at(lane: &Lane, wanted: &Place) -> bool {
    match lane.cursor.state {
        LaneState::Held => {
            let found = Place::of(&lane.cursor);
            found.page == wanted.page && found.at == wanted.at && found.high == wanted.high
        }
        LaneState::Fresh | LaneState::Ended | LaneState::Malformed => false,
    }
}

// Goes to a place, and tells what that came to, and how many bytes were read for it. What is left there is to be these
// items, and then the malformed sub-buffer of this number.
fn go_to(
    file: &mut MemFile,
    lane: &mut Lane,
    to: &Place,
    items: &str,
    bad: u64,
) -> Option<(Result<Sought, Failed>, u64)> {
    let before = file.reads();
    if !is_there(&lane.layout, file.len(), lane.part, to.page) {
        return None;
    }
    let sought = seek(to, file, lane);
    let read = file.reads().wrapping_sub(before);
    match sought {
        Ok(Sought::Held) => {
            file.fail_at(u64::MAX);
            let is_right = stands_at(lane, to)
                && knows_key(lane)
                && tells(file, lane, items, Ok(Loaded::Malformed(bad)));
            if is_right { Some((sought, read)) } else { None }
        }
        Ok(Sought::Malformed) | Err(Failed) => Some((sought, read)),
    }
}

// A lane over this part of the file, of which the byte at a place cannot be read, tells just these items, and then this is
// loaded.
fn tells_part(
    alloc: Global,
    part: Part,
    byte: u64,
    items: &str,
    end: Result<Loaded, Failed>,
) -> Result<bool, AllocError> {
    let layout = layout();
    let mut file = MemFile::new(ByteText::from_vec(file_bytes(alloc)?));
    file.fail_at(byte);
    let mut pool = Pool::new(alloc, &layout, 1, 16)?;
    let lanes = pool.lanes();
    set_part(&mut lanes[0], part);
    let told = tells(&mut file, &mut lanes[0], items, end);
    Ok(told && file.faults() == u64::from(end == Err(Failed)))
}

// A lane that used so many items up goes to a place, while the byte at a place cannot be read.
fn goes_to(
    alloc: Global,
    used: u32,
    to: Place,
    byte: u64,
    behind: &str,
) -> Result<Option<(Result<Sought, Failed>, u64)>, AllocError> {
    let layout = layout();
    let mut file = MemFile::new(ByteText::from_vec(file_bytes(alloc)?));
    let mut pool = Pool::new(alloc, &layout, 1, 16)?;
    let lanes = pool.lanes();
    let part = Part {
        offset: 0,
        size: 16384,
    };
    set_part(&mut lanes[0], part);
    go_on(&mut file, &mut lanes[0], used);
    file.fail_at(byte);
    Ok(go_to(&mut file, &mut lanes[0], &to, behind, 3))
}

// The next word of a row.
fn word<'a>(words: &mut Split<'a, char>) -> &'a str {
    words.next().unwrap_or("")
}

// The number that a word spells, or else the greatest.
fn number(word: &str) -> u64 {
    word.parse::<u64>().unwrap_or(u64::MAX)
}

// The small number that a word spells.
fn small(word: &str) -> u32 {
    word.parse::<u32>().unwrap_or(0)
}

// What is loaded at last: the end, a failed read, or a malformed sub-buffer by its number.
fn end_of(word: &str) -> Result<Loaded, Failed> {
    match word {
        "end" => Ok(Loaded::End),
        "read" => Err(Failed),
        bad => Ok(Loaded::Malformed(number(bad))),
    }
}

// Where the part begins, its length, the place of the byte that cannot be read, the items, and what is loaded then.
const PARTS: &str = "\
0 4096 - ab end
0 12288 - abcde end
4096 4096 -  end
8192 4096 - lme end
8192 12288 - lme 1
12288 8192 -  0
16384 4096 - f end
16384 8192 - f 1
20480 4096 -  0
0 4095 -  0
0 4097 - ab 1
0 0 -  end
0 4096 0  read
0 4096 100  read
0 12288 4096 ab read";

fn part_row(alloc: Global, row: &str) -> Result<bool, AllocError> {
    let mut words = row.split(' ');
    let part = Part {
        offset: number(word(&mut words)),
        size: number(word(&mut words)),
    };
    let byte = number(word(&mut words));
    let items = word(&mut words);
    let end = end_of(word(&mut words));
    tells_part(alloc, part, byte, items, end)
}

#[test]
fn items_of_a_part_with_keys_that_never_fall(rt: HostRuntime) -> Result<(), Fail> {
    for row in PARTS.lines() {
        assert!(rt; part_row(rt.alloc(), row)?, "{row}");
    }
    Ok(())
}

fn sought_of(word: &str) -> Result<Sought, Failed> {
    match word {
        "held" => Ok(Sought::Held),
        "read" => Err(Failed),
        _ => Ok(Sought::Malformed),
    }
}

// How many items were used up before, the place by its sub-buffer, its item and the greatest time so far, the place of the
// byte that cannot be read, the items that are left then, what was found, and how many bytes were read for it.
const PLACES: &str = "\
0 2 1 30 - de held 4096
0 1 0 30 - cde held 4096
1 0 0 - 0 abcde held 0
2 0 1 10 0 bcde held 0
5 0 1 10 - bcde held 4096
5 2 0 30 0 cde held 0
1 2 3 40 -  held 4096
2 0 3 30 0  malformed 0
2 3 0 40 -  malformed 4096
2 2 0 30 8192  read 0
2 2 0 30 8200  read 0";

fn place_row(alloc: Global, row: &str) -> Result<bool, AllocError> {
    let mut words = row.split(' ');
    let used = small(word(&mut words));
    let to = Place {
        page: number(word(&mut words)),
        at: small(word(&mut words)),
        high: word(&mut words).parse::<u64>().ok(),
    };
    let byte = number(word(&mut words));
    let items = word(&mut words);
    let sought = sought_of(word(&mut words));
    let read = number(word(&mut words));
    let found = goes_to(alloc, used, to, byte, items)?;
    Ok(found == Some((sought, read)))
}

#[test]
fn places_forth_and_back(rt: HostRuntime) -> Result<(), Fail> {
    for row in PLACES.lines() {
        assert!(rt; place_row(rt.alloc(), row)?, "{row}");
    }
    Ok(())
}
