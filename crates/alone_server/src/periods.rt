//! What is held of a client's shown periods: their newest values, and which fields were written since the last drain. They
//! stand by rising number.
ghost use Rattle.std.specs.Prelude.{◌≡◌, ℕ, ◌<◌, ◌≤◌, ◌+◌, ◌^◌, ◌++◌, ◌∷◌, [], List, not, IfOk, OnOk, IfSome, length, map, filter, slice_set, bit_or, None};
ghost use Rattle.std.specs.Option.{option_copied};
ghost use Rattle.std.specs.List.{AllByRecursion};
ghost use Rattle.own_lists.specs.Kept.{Kept, wrote, wrote_all, all_begin, has_bits, drained};
ghost use Rattle.own_items.specs.Items.{show_of, write_of};
ghost use Rattle.alone_server.specs.Periods.{Rise, period_in, IsAt, HasField, Table, Holds, MayWrite, is_among, drain_of, unwritten, left_by};

use arrayvec::ArrayVec;
use notify_window::SendState;
use own_items::{OwnShow, OwnWrite};
use std::alloc::AllocError;
use tn_types::{Drain, MAX_FIELDS};

/// What is held of a shown period.
#[derive(Drop)]
pub(crate) struct OwnPeriod {
    pub(crate) n: u32,
    pub(crate) kind: u8,
    pub(crate) values: ArrayVec<i64, MAX_FIELDS>,
    // bit f for field f
    pub(crate) written: u32,
}

// Where the period of this number stands.
fn place(periods: &[OwnPeriod], n: u32) -> Option<usize>
    requires rising { Rise periods.now }
    ensures found { IfSome result (IsAt periods.now n) }
    ensures absent { result ≡ None → period_in periods.now n ≡ None }
{
    periods.binary_search_by_key(&n, |p| p.n).ok()
}

/// The period of this number.
pub(crate) fn period_in(periods: &[OwnPeriod], n: u32) -> Option<&OwnPeriod>
    requires rising { Rise periods.now }
    ensures { option_copied result ≡ period_in periods.now n }
{
    match place(periods, n) {
        Some(at) => Some(&periods[at]),
        None => None,
    }
}

/// Leaves out the periods of these numbers.
pub(crate) fn hide_all(periods: &mut Vec<OwnPeriod>, hides: &[u32])
    ensures { periods.new.items ≡ filter (λ p. not (is_among p.n hides.now)) periods.old.items }
{
    periods.retain(|p| !hides.contains(&p.n));
}

impl OwnPeriod {
    // The period that begins so, as the one of this number.
    fn begun(n: u32, show: &OwnShow) -> OwnPeriod
        requires { length show.now.values ≤ MAX_FIELDS }
        ensures n { result.n ≡ n }
        ensures kind { result.kind ≡ show.now.kind }
        ensures values { result.values.items ≡ show.now.values }
        ensures written { result.written ≡ 0 }
    {
        let mut values = ArrayVec::new();
        let _ = values.try_extend_from_slice(show.values.as_slice());
        OwnPeriod {
            n,
            kind: show.kind,
            values,
            written: 0,
        }
    }

    // A field has another value, which no drain told yet.
    fn write(&mut self, field: u8, value: i64)
        requires { field < length self.old.values.items }
        ensures n { self.new.n ≡ self.old.n }
        ensures kind { self.new.kind ≡ self.old.kind }
        ensures values { self.new.values.items ≡ slice_set self.old.values.items field value }
        ensures written { self.new.written ≡ bit_or self.old.written (2 ^ field) }
    {
        self.values.as_mut_slice()[field as usize] = value;
        self.written |= 1 << field;
    }
}

/// Periods begin, whose numbers are the next after `shows`. Gives how many were shown then.
pub(crate) fn show_all(
    periods: &mut Vec<OwnPeriod>,
    shows: u32,
    begins: &[OwnShow],
) -> Result<u32, AllocError>
    requires few { shows + length begins.now < 2 ^ 32 }
    requires values { AllByRecursion (λ s. length s.values ≤ MAX_FIELDS) begins.now }
    ensures count { IfOk result (λ n. n ≡ shows + length begins.now) }
    ensures holds { OnOk result ((k : Kept) → Holds (record { shows = shows; periods = periods.old.items }) k
        → Holds (record { shows = shows + length begins.now; periods = periods.new.items }) (all_begin (map show_of begins.now) k)) }
{
    let mut n = shows;
    for show in begins {
        periods.push(OwnPeriod::begun(n, show))?;
        n += 1;
    }
    Ok(n)
}

// A field of a shown period has another value.
fn write_one(periods: &mut [OwnPeriod], write: &OwnWrite)
    requires rising { Rise periods.old }
    requires field { HasField periods.old write.now.n write.now.field }
    ensures { (shows : ℕ) (k : Kept) → Holds (record { shows = shows; periods = periods.old }) k
        → Holds (record { shows = shows; periods = periods.new }) (wrote (write_of write.now) k) }
{
    let Some(at) = place(periods, write.n) else {
        unreachable!()
    };
    periods[at].write(write.field, write.value);
}

/// Fields of shown periods have other values.
pub(crate) fn write_each(periods: &mut [OwnPeriod], writes: &[OwnWrite])
    requires { (shows : ℕ) × (k : Kept) × Holds (record { shows = shows; periods = periods.old }) k
        × AllByRecursion (MayWrite k) (map write_of writes.now) }
    ensures { (shows : ℕ) (k : Kept) → Holds (record { shows = shows; periods = periods.old }) k
        → Holds (record { shows = shows; periods = periods.new }) (wrote_all (map write_of writes.now) k) }
{
    for write in writes {
        write_one(periods, write);
    }
}

// Each period with its fields that were written, if any were.
fn drains_of(periods: &[OwnPeriod], drains: &mut Vec<Drain>) -> Result<(), AllocError>
    ensures { OnOk result (drains.new.items ≡ filter has_bits (map drain_of periods.now)) }
{
    drains.clear();
    for p in periods {
        if p.written != 0 {
            drains.push(Drain {
                n: p.n,
                bits: p.written,
            })?;
        }
    }
    Ok(())
}

/// Each period with its fields that were written, also where none were.
pub(crate) fn marks_of(periods: &[OwnPeriod], marks: &mut Vec<Drain>) -> Result<(), AllocError>
    ensures { OnOk result (marks.new.items ≡ map drain_of periods.now) }
{
    marks.clear();
    for p in periods {
        marks.push(Drain {
            n: p.n,
            bits: p.written,
        })?;
    }
    Ok(())
}

// Nothing is left as written.
fn clear_all(periods: &mut [OwnPeriod])
    ensures { periods.new ≡ map unwritten periods.old }
{
    for i in 0..periods.len() {
        periods[i].written = 0;
    }
}

/// What a pack drains, by what it makes: a data packet all that was written, of which nothing is left.
pub(crate) fn drain_all(
    state: SendState,
    periods: &mut [OwnPeriod],
    drains: &mut Vec<Drain>,
) -> Result<(), AllocError>
    ensures drains { OnOk result (drains.new.items ≡ drained state (map drain_of periods.old)) }
    ensures left { OnOk result (periods.new ≡ left_by state periods.old) }
{
    drains.clear();
    match state {
        SendState::Room => {
            drains_of(periods, drains)?;
            clear_all(periods);
            Ok(())
        }
        SendState::Held | SendState::Worn => Ok(()),
    }
}
