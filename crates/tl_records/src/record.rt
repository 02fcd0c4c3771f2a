//! Records: lines that are good for their record type, the checks that establish it, and their fields.
//!
//! A record borrows its line and is made by these checks alone, so whoever has one needs no further check.
ghost use Rattle.std.specs.Prelude.{◌≡◌, ◌+◌, ◌-◌, ◌^◌, ◌<◌, Some, length, is_some, IfErr, IfOk, IfSome, OnOk};
ghost use Rattle.tl_fields.specs.Number.{number_of};
ghost use Rattle.tl_records.specs.Layout.{IsWithin, field_at, type1, type2, type4, type5, type6};
ghost use Rattle.tl_records.specs.declared.layout.TheConstants.Type2.{RTSQ};
ghost use Rattle.tl_records.specs.Records.{IsValidLine, IsLineFault, line_fault_kind, sequence_fault};

use crate::fault::{LineFault, LineFaultKind};
use crate::layout::{Layout, Places, RecordType, Type1, Type2, Type4, Type5, Type6};
use crate::lines::Line;
use std::marker::{Model, PhantomData};
use tl_fields::number;

/// A borrowed line of a record type. Contracts see it as a record with the field `bytes`.
#[derive(Drop)]
pub struct Record<'a, T: RecordType> {
    line: &'a [u8],
    number: u64,
    of: PhantomData<T>,
}

/// A line of record type 1: a street segment's own record.
pub type Rt1<'a> = Record<'a, Type1>;

/// A line of record type 2: points of a segment's shape.
pub type Rt2<'a> = Record<'a, Type2>;

/// A line of record type 4: the numbers of a segment's alternate names.
pub type Rt4<'a> = Record<'a, Type4>;

/// A line of record type 5: a feature's name, by its number.
pub type Rt5<'a> = Record<'a, Type5>;

/// A line of record type 6: a further address range of a segment.
pub type Rt6<'a> = Record<'a, Type6>;

impl<'a, T: RecordType> Model for Record<'a, T> {
    ghost use Rattle.tl_records.specs.Records.{IsRecord, RecordParts};

    ghost Value = { RecordParts };

    ghost view = { λ rt. record { bytes = rt.line.now } };

    ghost invariant = { λ rt. IsRecord T.LAYOUT rt.line.now rt.number };
}

impl<'a, T: RecordType> Record<'a, T> {
    /// Returns a line as a record of its type, or its first flaw: `WrongLength`, `WrongType`, `BadTlid` (`BadFeature` in type 5), and
    /// then, in type 2, `BadSequence`.
    #[inline]
    pub fn of(number: u32, line: &'a [u8]) -> Result<Self, LineFault>
        ensures ok { IfOk result (λ rt. (rt.bytes ≡ line.now) × IsValidLine T.LAYOUT line.now) }
        ensures err { IfErr result (λ fault. IsLineFault T.LAYOUT (record { number = number; bytes = line.now }) fault) }
    {
        match checked_number(T::LAYOUT, line) {
            Ok(found) => Ok(Record {
                line,
                number: found,
                of: PhantomData,
            }),
            Err(flaw) => Err(LineFault {
                line: u64::from(number),
                flaw,
            }),
        }
    }

    /// Checks a line as [`of`](Self::of) does, without reading its number.
    #[inline]
    pub fn check(number: u32, line: &[u8]) -> Result<(), LineFault>
        ensures ok { OnOk result (IsValidLine T.LAYOUT line.now) }
        ensures err { IfErr result (λ fault. IsLineFault T.LAYOUT (record { number = number; bytes = line.now }) fault) }
    {
        // Only tested, by vectors: the number is read if something may be joined to it.
        match line_fault_kind(T::LAYOUT, line) {
            None => Ok(()),
            Some(flaw) => Err(LineFault {
                line: u64::from(number),
                flaw,
            }),
        }
    }

    /// Returns the whole line, without its terminator.
    #[inline]
    pub fn bytes(&self) -> &'a [u8]
        ensures value { result.now ≡ self.now.bytes }
        ensures len { length result.now ≡ T.LAYOUT.length }
        ensures good { IsValidLine T.LAYOUT self.now.bytes }
    {
        self.line
    }

    /// Returns the field in these columns, including its blanks.
    #[inline]
    pub fn field(&self, places: Places) -> &'a [u8]
        requires { IsWithin places T.LAYOUT.length }
        ensures value { result.now ≡ field_at places self.now.bytes }
        ensures len { length result.now ≡ places.1 + 1 - places.0 }
    {
        places.of(self.line)
    }

    /// Returns the number that each line of the record type must have: of TLID, or of FEAT in type 5.
    #[inline]
    #[tactic(auto, using(tl_fields::proofs::NumberLemmas::number_of_lt))]
    pub fn number(&self) -> u64
        ensures value { number_of (field_at T.LAYOUT.number self.now.bytes) ≡ Some result }
        ensures small { result < 10 ^ (T.LAYOUT.number.1 + 1 - T.LAYOUT.number.0) }
    {
        self.number
    }
}

impl Record<'_, Type2> {
    /// Returns the number of RTSQ, of three digits at most.
    #[inline]
    #[tactic(auto, using(tl_fields::proofs::NumberLemmas::number_of_lt))]
    pub fn sequence(&self) -> u16
        ensures value { number_of (field_at RTSQ self.now.bytes) ≡ Some result }
        ensures small { result < 1000 }
    {
        match number(Type2::RTSQ.of(self.line)) {
            Some(sequence) => sequence as u16,
            // `of` has checked it.
            None => unreachable!(),
        }
    }
}

/// Returns the first flaw of a line of a record type, or `None` if it is good.
#[inline]
fn line_fault_kind(layout: Layout, line: &[u8]) -> Option<LineFaultKind>
    requires number { IsWithin layout.number layout.length }
    requires sequence { IfSome layout.sequence (λ places. IsWithin places layout.length) }
    ensures { result ≡ line_fault_kind layout line.now }
{
    if line.len() != layout.length {
        return Some(LineFaultKind::WrongLength);
    }
    if line[0] != layout.tag {
        return Some(LineFaultKind::WrongType);
    }
    if !layout.number.has_number(line) {
        return Some(layout.without_number);
    }
    sequence_fault(layout.sequence, line)
}

/// Returns the flaw of a line whose sequence number must be in this field, if it has none.
#[inline]
fn sequence_fault(sequence: Option<Places>, line: &[u8]) -> Option<LineFaultKind>
    requires { IfSome sequence (λ places. IsWithin places (length line.now)) }
    ensures { result ≡ sequence_fault sequence line.now }
{
    match sequence {
        Some(places) if !places.has_number(line) => Some(LineFaultKind::BadSequence),
        _ => None,
    }
}

/// Returns the number that each line of a record type must have, or the line's first flaw.
#[inline]
fn checked_number(layout: Layout, line: &[u8]) -> Result<u64, LineFaultKind>
    requires number { IsWithin layout.number layout.length }
    requires sequence { IfSome layout.sequence (λ places. IsWithin places layout.length) }
    ensures number { IfOk result (λ n. number_of (field_at layout.number line.now) ≡ Some n) }
    ensures good { IfOk result (λ _. IsValidLine layout line.now) }
    ensures err { IfErr result (λ flaw. line_fault_kind layout line.now ≡ Some flaw) }
{
    if line.len() != layout.length {
        return Err(LineFaultKind::WrongLength);
    }
    if line[0] != layout.tag {
        return Err(LineFaultKind::WrongType);
    }
    let Some(found) = number(layout.number.of(line)) else {
        return Err(layout.without_number);
    };
    match sequence_fault(layout.sequence, line) {
        None => Ok(found),
        Some(flaw) => Err(flaw),
    }
}

/// Returns a line as a record of type 1, or its first flaw: `WrongLength`, `WrongType`, `BadTlid`.
/// No caller in this program: part of the library's fixed interface.
pub fn rt1(line: &Line) -> Result<Rt1<'_>, LineFault>
    ensures ok { IfOk result (λ rt1. (rt1.bytes ≡ line.now.bytes) × IsValidLine type1 line.now.bytes) }
    ensures err { IfErr result (λ fault. IsLineFault type1 line.now fault) }
{
    Record::of(line.number(), line.bytes())
}

/// Returns a line as a record of type 2, or its first flaw: `WrongLength`, `WrongType`, `BadTlid`, `BadSequence`.
/// No caller in this program: part of the library's fixed interface.
pub fn rt2(line: &Line) -> Result<Rt2<'_>, LineFault>
    ensures ok { IfOk result (λ rt2. (rt2.bytes ≡ line.now.bytes) × IsValidLine type2 line.now.bytes) }
    ensures err { IfErr result (λ fault. IsLineFault type2 line.now fault) }
{
    Record::of(line.number(), line.bytes())
}

/// Returns a line as a record of type 4, or its first flaw: `WrongLength`, `WrongType`, `BadTlid`.
/// No caller in this program: part of the library's fixed interface.
pub fn rt4(line: &Line) -> Result<Rt4<'_>, LineFault>
    ensures ok { IfOk result (λ rt4. (rt4.bytes ≡ line.now.bytes) × IsValidLine type4 line.now.bytes) }
    ensures err { IfErr result (λ fault. IsLineFault type4 line.now fault) }
{
    Record::of(line.number(), line.bytes())
}

/// Returns a line as a record of type 5, or its first flaw: `WrongLength`, `WrongType`, `BadFeature`.
/// No caller in this program: part of the library's fixed interface.
pub fn rt5(line: &Line) -> Result<Rt5<'_>, LineFault>
    ensures ok { IfOk result (λ rt5. (rt5.bytes ≡ line.now.bytes) × IsValidLine type5 line.now.bytes) }
    ensures err { IfErr result (λ fault. IsLineFault type5 line.now fault) }
{
    Record::of(line.number(), line.bytes())
}

/// Returns a line as a record of type 6, or its first flaw: `WrongLength`, `WrongType`, `BadTlid`.
/// No caller in this program: part of the library's fixed interface.
pub fn rt6(line: &Line) -> Result<Rt6<'_>, LineFault>
    ensures ok { IfOk result (λ rt6. (rt6.bytes ≡ line.now.bytes) × IsValidLine type6 line.now.bytes) }
    ensures err { IfErr result (λ fault. IsLineFault type6 line.now fault) }
{
    Record::of(line.number(), line.bytes())
}
