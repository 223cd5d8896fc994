// The six fields of a report, or of a part of a correction.
ghost use Rattle.std.specs.Prelude.{◌≡◌, ◌≤◌, Result, Ok, ⊤};
ghost use Rattle.faults.specs.Six.{at_field, is_named_or, on_numbers, on_networks, six_fault};

use crate::cause::{Cause, FieldFault};
use crate::field;

// A fault of a field, with where the field stands.
pub(crate) fn at(pos: usize, check: Result<(), Cause>) -> Result<(), FieldFault>
    ensures { result ≡ at_field pos check }
{
    check.map_err(|cause| FieldFault { field: pos, cause })
}

#[tactic(auto, unfolding(crate::specs::Six::is_named_or))]
fn is_named_or(missing: Result<(), Cause>, gaining: &[u8], status: &[u8]) -> bool
    ensures { result ≡ is_named_or missing gaining.now status.now }
{
    missing.is_ok() || field::is_named(gaining, status)
}

// The fields as they stand, each maybe damaged.
#[derive(Clone, Copy)]
pub(crate) struct Fields<'a> {
    pub first: &'a [u8],
    pub last: &'a [u8],
    pub date: &'a [u8],
    pub gaining: &'a [u8],
    pub losing: &'a [u8],
    pub status: &'a [u8],
}

// The two number fields; what an empty first one is.
fn numbers(pos: usize, none: Result<(), Cause>, f: Fields) -> Result<(), FieldFault>
    requires { pos ≤ 16 }
    ensures { result ≡ on_numbers pos none f.entry.first.now f.entry.last.now (Ok tt) }
{
    let range = field::is_range(f.first, f.last);
    let last = field::allowed(field::digits_alone(f.last, Ok(())), range);
    at(pos, field::digits_alone(f.first, none))?;
    at(pos + 2, last)
}

// The networks and the status, the gaining network at `pos`; what a missing losing network or status is.
fn networks(pos: usize, missing: Result<(), Cause>, f: Fields) -> Result<(), FieldFault>
    requires { pos ≤ 22 }
    ensures { result ≡ on_networks pos missing f.entry.gaining.now f.entry.losing.now f.entry.status.now }
{
    let named = is_named_or(missing, f.gaining, f.status);
    let status = field::allowed(field::kind_alone(f.status, missing), named);
    at(pos, field::code_alone(f.gaining, Ok(())))?;
    at(pos + 2, field::code_alone(f.losing, missing))?;
    at(pos + 4, status)
}

// The six fields, at every second "Pos." from `pos` on; what an empty first number field is, and what a missing date, losing network or status.
#[tactic(auto, unfolding(crate::specs::Six::six_fault))]
pub(crate) fn six(
    pos: usize,
    none: Result<(), Cause>,
    missing: Result<(), Cause>,
    f: Fields,
) -> Result<(), FieldFault>
    requires { pos ≤ 16 }
    ensures { result ≡ six_fault pos none missing f.entry.first.now f.entry.last.now f.entry.date.now f.entry.gaining.now f.entry.losing.now f.entry.status.now }
{
    numbers(pos, none, f)?;
    at(pos + 4, field::date_alone(f.date, missing))?;
    networks(pos + 6, missing, f)
}
