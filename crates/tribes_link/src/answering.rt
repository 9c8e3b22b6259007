//! What each export ends with: the end goes back into its handle, and the answer is a number.
ghost use Rattle.std.specs.Prelude.{◌≡◌, ◌↔◌, pos, Ok, IsOk, IfOk, Some, None};
ghost use Rattle.std.specs.Result.{result_err};
ghost use Rattle.tribes_ends.specs.Codes.{code_of};
ghost use Rattle.tribes_link.specs.Answers.{Answered};

use crate::end::End;
use tribes_ends::{Link, Refusal};

/// No end is behind the handle.
pub(crate) const NO_END: i32 = -1;

/// An end is behind the handle already.
pub(crate) const HAS_END: i32 = -2;

/// Memory was not to be had.
pub(crate) const NO_MEMORY: i32 = -3;

/// No channel is behind the handle.
pub(crate) const NO_CHANNEL: i32 = -77;

/// A channel is behind the handle already.
pub(crate) const HAS_CHANNEL: i32 = -78;

/// Notes why a call did nothing, and gives the refusal's code, which is below 0.
#[tactic(auto, using(crate::proofs::Below::is_below))]
pub(crate) fn refused(link: &mut Link, refusal: Refusal) -> i32
    ensures not_zero { result ≡ pos 0 → ⊥ }
    ensures not_one { result ≡ pos 1 → ⊥ }
    ensures not_two { result ≡ pos 2 → ⊥ }
    ensures code { result ≡ code_of refusal }
    ensures unchanged { link.new ≡ link.old }
{
    link.refuse(refusal)
}

/// Puts the end back, and answers 0 or the refusal's code.
pub(crate) fn finish(end: &mut End, link: Box<Link>, done: Result<(), Refusal>) -> i32
    ensures code { (result ≡ pos 0) ↔ IsOk done }
    ensures answered { Answered 0 result (result_err done) }
    ensures held { end.new.held.value ≡ Some link.value }
{
    let mut link = link;
    let code = match done {
        Ok(()) => 0,
        Err(refusal) => refused(&mut *link, refusal),
    };
    end.put(link);
    code
}

/// Puts the end back, and answers 0 with a number, or the refusal's code.
pub(crate) fn finish_with(
    end: &mut End,
    link: Box<Link>,
    done: Result<u32, Refusal>,
    out: &mut u32,
) -> i32
    ensures code { (result ≡ pos 0) ↔ IsOk done }
    ensures answered { Answered 0 result (result_err done) }
    ensures number { IfOk done (λ n. out.new ≡ n) }
    ensures held { end.new.held.value ≡ Some link.value }
{
    let mut link = link;
    let code = match done {
        Ok(number) => {
            *out = number;
            0
        }
        Err(refusal) => refused(&mut *link, refusal),
    };
    end.put(link);
    code
}

/// Puts the end back, and answers 0 with a count of bytes, or the refusal's code.
pub(crate) fn finish_count(
    end: &mut End,
    link: Box<Link>,
    done: Result<usize, Refusal>,
    out: &mut usize,
) -> i32
    ensures code { (result ≡ pos 0) ↔ IsOk done }
    ensures answered { Answered 0 result (result_err done) }
    ensures number { IfOk done (λ n. out.new ≡ n) }
    ensures held { end.new.held.value ≡ Some link.value }
{
    let mut link = link;
    let code = match done {
        Ok(count) => {
            *out = count;
            0
        }
        Err(refusal) => refused(&mut *link, refusal),
    };
    end.put(link);
    code
}

/// Puts the end back, and answers 1 with a number, 0 without one, or the refusal's code.
pub(crate) fn finish_maybe(
    end: &mut End,
    link: Box<Link>,
    done: Result<Option<u8>, Refusal>,
    out: &mut u32,
) -> i32
    ensures some { result ≡ pos 1 → done ≡ Ok (Some out.new) }
    ensures none { result ≡ pos 0 → done ≡ Ok None }
    ensures answered { Answered 1 result (result_err done) }
    ensures held { end.new.held.value ≡ Some link.value }
{
    let mut link = link;
    let code = match done {
        Ok(Some(number)) => {
            *out = u32::from(number);
            1
        }
        Ok(None) => 0,
        Err(refusal) => refused(&mut *link, refusal),
    };
    end.put(link);
    code
}
