//! The values of all objects, their versions, and what a tick writes.
ghost use Rattle.std.specs.Prelude.{vec_capacity, take, drop, ◌≡◌, ◌<◌, ◌≤◌, ◌+◌, ◌-◌, ◌^◌, ◌++◌, length, [], ◌∷◌, slice_index, slice_index_or, slice_set, pos, ◌⊎◌, replicate};
ghost use Rattle.std.specs.List.{AllByRecursion};
ghost use Rattle.world_sim.specs.RowsNext.{row_next, fresh_row, IsSoundRow};
ghost use Rattle.world_sim.specs.Rows.{values_of, differs, version_next, field_writes, row_versions, row_writes, as_number, holder_number};

use arrayvec::ArrayVec;
use world_rules::{Object, Place, Player, State};

/// A field that has a new value.
#[derive(Clone, Copy, Debug, PartialEq, Eq)]
pub struct Write {
    /// The object's number.
    pub object: u32,
    pub field: u8,
    /// How often the field was written, this write counted.
    pub version: u32,
    pub value: i64,
}

/// The values of an object's fields and their versions.
#[derive(Drop)]
pub struct Row {
    pub values: ArrayVec<i64, 5>,
    pub versions: ArrayVec<u32, 5>,
}

fn as_number(b: bool) -> i64
    ensures { result ≡ pos (as_number b) }
{
    if b { 1 } else { 0 }
}

fn holder_number(holder: Option<u8>) -> i64
    ensures { result ≡ pos (holder_number holder) }
{
    match holder {
        None => 0,
        Some(client) => i64::from(client) + 1,
    }
}

fn listed(values: &[i64]) -> ArrayVec<i64, 5>
    requires { length values.now ≤ 5 }
    ensures { result.items ≡ values.now }
{
    let mut all = ArrayVec::new();
    let _ = all.try_extend_from_slice(values);
    all
}

/// The values of the fields, in order.
pub fn values_of(o: &Object) -> ArrayVec<i64, 5>
    ensures { result.items ≡ values_of o.now }
{
    let x = i64::from(o.place.x);
    let y = i64::from(o.place.y);
    match &o.state {
        State::Player(p) => listed(&[x, y, i64::from(p.hp), i64::from(p.ammo), i64::from(p.score)]),
        State::Disc(_) => listed(&[x, y]),
        State::Mine(m) => listed(&[x, y, as_number(m.armed)]),
        State::Drone(d) => listed(&[x, y, i64::from(d.hp)]),
        State::Flag(f) => listed(&[x, y, holder_number(f.holder)]),
        State::Clock(c) => listed(&[i64::from(c.tick), i64::from(c.red), i64::from(c.blue)]),
    }
}

fn differs(a: i64, b: i64) -> bool
    ensures { result ≡ differs a b }
{
    a < b || b < a
}

fn version_next(before: i64, now: i64, version: u32) -> u32
    requires { version < 2 ^ 32 - 1 }
    ensures { result ≡ version_next before now version }
{
    if differs(before, now) {
        version + 1
    } else {
        version
    }
}

// Notes the write of a field, if it is one.
#[tactic(auto, using(crate::proofs::RowFields::few_more))]
fn note(object: u32, field: u8, before: i64, now: i64, version: u32, writes: &mut Vec<Write>)
    requires small { version < 2 ^ 32 - 1 }
    requires room { length writes.old.items < vec_capacity writes.old }
    ensures value { writes.new.items ≡ writes.old.items ++ field_writes object field before now version }
    ensures few { length writes.new.items ≤ length writes.old.items + 1 }
    ensures kept { vec_capacity writes.old ≤ vec_capacity writes.new }
{
    if differs(before, now) {
        writes.push_reserved(Write {
            object,
            field,
            version: version + 1,
            value: now,
        });
    }
}

fn note_at(
    object: u32,
    f: usize,
    before: &[i64],
    now: &[i64],
    versions: &[u32],
    writes: &mut Vec<Write>,
)
    requires before { f < length before.now }
    requires now { f < length now.now }
    requires versions { f < length versions.now }
    requires few { f < 5 }
    requires small { slice_index versions.now f < 2 ^ 32 - 1 }
    requires room { length writes.old.items < vec_capacity writes.old }
    ensures value { writes.new.items ≡ writes.old.items
        ++ field_writes object f (slice_index_or before.now f (pos 0)) (slice_index_or now.now f (pos 0)) (slice_index versions.now f) }
    ensures few { length writes.new.items ≤ length writes.old.items + 1 }
    ensures kept { vec_capacity writes.old ≤ vec_capacity writes.new }
{
    note(object, f as u8, before[f], now[f], versions[f], writes);
}

// How many fields all three have.
fn common_len(before: &[i64], now: &[i64], versions: &[u32]) -> usize
    ensures before { result ≤ length before.now }
    ensures now { result ≤ length now.now }
    ensures versions { result ≤ length versions.now }
    ensures shortest { (length before.now ≤ result) ⊎ ((length now.now ≤ result) ⊎ (length versions.now ≤ result)) }
{
    before.len().min(now.len()).min(versions.len())
}

// The version of a field after the tick.
fn next_at(f: usize, before: &[i64], now: &[i64], version: u32) -> u32
    requires before { f < length before.now }
    requires now { f < length now.now }
    requires small { version < 2 ^ 32 - 1 }
    ensures { result ≡ version_next (slice_index_or before.now f (pos 0)) (slice_index_or now.now f (pos 0)) version }
{
    version_next(before[f], now[f], version)
}

// The versions of the first fields after the writes of one object, in place.
fn count_changes(n: usize, before: &[i64], now: &[i64], versions: &mut [u32])
    requires before { n ≤ length before.now }
    requires now { n ≤ length now.now }
    requires versions { n ≤ length versions.old }
    requires small { AllByRecursion (λ v. v < 2 ^ 32 - 1) versions.old }
    ensures counts { row_versions before.now now.now versions.old
        ≡ take n versions.new ++ row_versions (drop n before.now) (drop n now.now) (drop n versions.old) }
    ensures many { length versions.new ≡ length versions.old }
{
    for f in 0..n {
        versions[f] = next_at(f, before, now, versions[f]);
    }
}

// The versions after the writes of one object.
#[tactic(auto, using(crate::proofs::RowFields::counts_end))]
fn count_row(before: &[i64], now: &[i64], versions: &mut ArrayVec<u32, 5>)
    requires { AllByRecursion (λ v. v < 2 ^ 32 - 1) versions.old.items }
    ensures { versions.new.items ≡ row_versions before.now now.now versions.old.items }
{
    let n = common_len(before, now, versions.as_slice());
    count_changes(n, before, now, versions.as_mut_slice());
    versions.truncate(n);
}

// Notes the writes of one object.
#[tactic(auto, using(crate::proofs::RowFields::writes_more, crate::proofs::RowFields::writes_end))]
fn note_row(object: u32, before: &[i64], now: &[i64], versions: &[u32], writes: &mut Vec<Write>)
    requires few { length now.now ≤ 5 }
    requires small { AllByRecursion (λ v. v < 2 ^ 32 - 1) versions.now }
    requires room { length writes.old.items + 5 ≤ vec_capacity writes.old }
    ensures value { writes.new.items ≡ writes.old.items ++ row_writes object 0 before.now now.now versions.now }
    ensures few { length writes.new.items ≤ length writes.old.items + 5 }
    ensures kept { vec_capacity writes.old ≤ vec_capacity writes.new }
{
    let n = common_len(before, now, versions);
    for f in 0..n {
        note_at(object, f, before, now, versions, writes);
    }
}

// The value of a field in place, with its version and its write if it is another one than before.
fn change_field(
    object: u32,
    f: usize,
    value: u32,
    values: &mut [i64],
    versions: &mut [u32],
    writes: &mut Vec<Write>,
)
    requires values { f < length values.old }
    requires versions { f < length versions.old }
    requires few { f < 5 }
    requires small { slice_index versions.old f < 2 ^ 32 - 1 }
    requires room { length writes.old.items < vec_capacity writes.old }
    ensures values { values.new ≡ slice_set values.old f (pos value) }
    ensures versions { versions.new ≡ slice_set versions.old f
        (version_next (slice_index_or values.old f (pos 0)) (pos value) (slice_index_or versions.old f 0)) }
    ensures writes { writes.new.items ≡ writes.old.items
        ++ field_writes object f (slice_index_or values.old f (pos 0)) (pos value) (slice_index_or versions.old f 0) }
    ensures few { length writes.new.items ≤ length writes.old.items + 1 }
    ensures kept { vec_capacity writes.old ≤ vec_capacity writes.new }
{
    let before = values[f];
    let now = i64::from(value);
    if differs(before, now) {
        let version = versions[f] + 1;
        versions[f] = version;
        values[f] = now;
        writes.push_reserved(Write {
            object,
            field: f as u8,
            version,
            value: now,
        });
    }
}

// The five values of a player's row in place.
fn change_player(
    object: u32,
    place: Place,
    player: &Player,
    values: &mut [i64],
    versions: &mut [u32],
    writes: &mut Vec<Write>,
)
    requires values { length values.old ≡ 5 }
    requires versions { length versions.old ≡ 5 }
    requires small { AllByRecursion (λ v. v < 2 ^ 32 - 1) versions.old }
    requires room { length writes.old.items + 5 ≤ vec_capacity writes.old }
    ensures values { values.new ≡ pos place.x ∷ pos place.y ∷ pos player.now.hp ∷ pos player.now.ammo ∷ pos player.now.score ∷ [] }
    ensures versions { versions.new
        ≡ row_versions values.old
        (pos place.x ∷ pos place.y ∷ pos player.now.hp ∷ pos player.now.ammo ∷ pos player.now.score ∷ [])
        versions.old }
    ensures writes { writes.new.items ≡ writes.old.items
        ++ row_writes object 0 values.old
        (pos place.x ∷ pos place.y ∷ pos player.now.hp ∷ pos player.now.ammo ∷ pos player.now.score ∷ [])
        versions.old }
    ensures few { length writes.new.items ≤ length writes.old.items + 5 }
    ensures kept { vec_capacity writes.old ≤ vec_capacity writes.new }
{
    change_field(object, 0, place.x, values, versions, writes);
    change_field(object, 1, place.y, values, versions, writes);
    change_field(object, 2, player.hp, values, versions, writes);
    change_field(object, 3, player.ammo, values, versions, writes);
    change_field(object, 4, player.score, values, versions, writes);
}

// The row of an object of any kind after a tick that made this of it, with its writes.
#[inline(never)]
fn change_any(object: u32, row: &mut Row, now: &Object, writes: &mut Vec<Write>)
    requires sound { IsSoundRow row.old }
    requires room { length writes.old.items + 5 ≤ vec_capacity writes.old }
    ensures row { row.new ≡ row_next row.old now.now }
    ensures writes { writes.new.items ≡ writes.old.items
        ++ row_writes object 0 row.old.values.items (values_of now.now) row.old.versions.items }
    ensures few { length writes.new.items ≤ length writes.old.items + 5 }
    ensures kept { vec_capacity writes.old ≤ vec_capacity writes.new }
{
    let values = values_of(now);
    let before = row.values.as_slice();
    note_row(
        object,
        before,
        values.as_slice(),
        row.versions.as_slice(),
        writes,
    );
    count_row(before, values.as_slice(), &mut row.versions);
    row.values = values;
}

/// The row of an object after a tick that made this of it, with its writes.
pub fn change_row(object: u32, row: &mut Row, now: &Object, writes: &mut Vec<Write>)
    requires sound { IsSoundRow row.old }
    requires room { length writes.old.items + 5 ≤ vec_capacity writes.old }
    ensures row { row.new ≡ row_next row.old now.now }
    ensures writes { writes.new.items ≡ writes.old.items
        ++ row_writes object 0 row.old.values.items (values_of now.now) row.old.versions.items }
    ensures few { length writes.new.items ≤ length writes.old.items + 5 }
    ensures kept { vec_capacity writes.old ≤ vec_capacity writes.new }
{
    if let State::Player(p) = &now.state {
        if row.values.len() == 5 {
            let values = row.values.as_mut_slice();
            let versions = row.versions.as_mut_slice();
            change_player(object, now.place, p, values, versions, writes);
            return;
        }
    }
    change_any(object, row, now, writes);
}

// The three values of a row in place.
fn change_slices(
    object: u32,
    first: u32,
    second: u32,
    third: u32,
    values: &mut [i64],
    versions: &mut [u32],
    writes: &mut Vec<Write>,
)
    requires values { length values.old ≡ 3 }
    requires versions { length versions.old ≡ 3 }
    requires small { AllByRecursion (λ v. v < 2 ^ 32 - 1) versions.old }
    requires room { length writes.old.items + 5 ≤ vec_capacity writes.old }
    ensures values { values.new ≡ pos first ∷ pos second ∷ pos third ∷ [] }
    ensures versions { versions.new ≡ row_versions values.old (pos first ∷ pos second ∷ pos third ∷ []) versions.old }
    ensures writes { writes.new.items ≡ writes.old.items
        ++ row_writes object 0 values.old (pos first ∷ pos second ∷ pos third ∷ []) versions.old }
    ensures few { length writes.new.items ≤ length writes.old.items + 5 }
    ensures kept { vec_capacity writes.old ≤ vec_capacity writes.new }
{
    change_field(object, 0, first, values, versions, writes);
    change_field(object, 1, second, values, versions, writes);
    change_field(object, 2, third, values, versions, writes);
}

// The first two of three values of a row in place.
fn change_pair(
    object: u32,
    first: u32,
    second: u32,
    values: &mut [i64],
    versions: &mut [u32],
    writes: &mut Vec<Write>,
)
    requires values { length values.old ≡ 3 }
    requires versions { length versions.old ≡ 3 }
    requires small { AllByRecursion (λ v. v < 2 ^ 32 - 1) versions.old }
    requires room { length writes.old.items + 5 ≤ vec_capacity writes.old }
    ensures values { values.new ≡ pos first ∷ pos second ∷ slice_index_or values.old 2 (pos 0) ∷ [] }
    ensures versions { versions.new
        ≡ row_versions values.old (pos first ∷ pos second ∷ slice_index_or values.old 2 (pos 0) ∷ []) versions.old }
    ensures writes { writes.new.items ≡ writes.old.items
        ++ row_writes object 0 values.old (pos first ∷ pos second ∷ slice_index_or values.old 2 (pos 0) ∷ []) versions.old }
    ensures few { length writes.new.items ≤ length writes.old.items + 5 }
    ensures kept { vec_capacity writes.old ≤ vec_capacity writes.new }
{
    change_field(object, 0, first, values, versions, writes);
    change_field(object, 1, second, values, versions, writes);
}

/// The row of an object with three fields after a tick that gave the first two these values, with its writes.
pub fn change_two(object: u32, row: &mut Row, first: u32, second: u32, writes: &mut Vec<Write>)
    requires sound { IsSoundRow row.old }
    requires three { length row.old.values.items ≡ 3 }
    requires room { length writes.old.items + 5 ≤ vec_capacity writes.old }
    ensures values { row.new.values.items ≡ pos first ∷ pos second ∷ slice_index_or row.old.values.items 2 (pos 0) ∷ [] }
    ensures versions { row.new.versions.items ≡ row_versions row.old.values.items
        (pos first ∷ pos second ∷ slice_index_or row.old.values.items 2 (pos 0) ∷ []) row.old.versions.items }
    ensures writes { writes.new.items ≡ writes.old.items ++ row_writes object 0 row.old.values.items
        (pos first ∷ pos second ∷ slice_index_or row.old.values.items 2 (pos 0) ∷ []) row.old.versions.items }
    ensures few { length writes.new.items ≤ length writes.old.items + 5 }
    ensures kept { vec_capacity writes.old ≤ vec_capacity writes.new }
{
    change_pair(
        object,
        first,
        second,
        row.values.as_mut_slice(),
        row.versions.as_mut_slice(),
        writes,
    );
}

/// The row of an object with three fields after a tick that gave them these values, with its writes.
pub fn change_three(
    object: u32,
    row: &mut Row,
    first: u32,
    second: u32,
    third: u32,
    writes: &mut Vec<Write>,
)
    requires sound { IsSoundRow row.old }
    requires three { length row.old.values.items ≡ 3 }
    requires room { length writes.old.items + 5 ≤ vec_capacity writes.old }
    ensures values { row.new.values.items ≡ pos first ∷ pos second ∷ pos third ∷ [] }
    ensures versions { row.new.versions.items
        ≡ row_versions row.old.values.items (pos first ∷ pos second ∷ pos third ∷ []) row.old.versions.items }
    ensures writes { writes.new.items ≡ writes.old.items
        ++ row_writes object 0 row.old.values.items (pos first ∷ pos second ∷ pos third ∷ []) row.old.versions.items }
    ensures few { length writes.new.items ≤ length writes.old.items + 5 }
    ensures kept { vec_capacity writes.old ≤ vec_capacity writes.new }
{
    change_slices(
        object,
        first,
        second,
        third,
        row.values.as_mut_slice(),
        row.versions.as_mut_slice(),
        writes,
    );
}

fn zeros(n: usize) -> ArrayVec<u32, 5>
    requires { n ≤ 5 }
    ensures { result.items ≡ replicate n 0 }
{
    let mut all = ArrayVec::new();
    for i in 0..n {
        let _ = i;
        all.push(0);
    }
    all
}

/// The row of a new object.
pub fn fresh_row(o: &Object) -> Row
    ensures { result ≡ fresh_row o.now }
{
    let values = values_of(o);
    let versions = zeros(values.len());
    Row { values, versions }
}
