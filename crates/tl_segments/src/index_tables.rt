//! The index's table for each file.
ghost use Rattle.std.specs.Prelude.{◌≡◌, length};
ghost use Rattle.tl_fields.specs.Number.{number_of};
ghost use Rattle.tl_segments.specs.FullName.{HasNameLengths, full_name_of};
ghost use Rattle.tl_segments.specs.Joining.{further_range};
ghost use Rattle.tl_segments.specs.TableContents.{HoldsFeatures, HoldsNames, HoldsRanges, feature_numbers, full_name_in};

use crate::county_file::{Addition, Table};
use crate::feature_names::FeatureNames;
use crate::full_name::FullName;
use crate::multi_map::MultiMap;
use crate::range::{Range, RangeFields};
use std::alloc::{AllocError, Allocator};
use tl_fields::number;
use tl_records::{Rt4, Rt5, Rt6, Type4, Type5, Type6};

/// The numbers of a type 4 line's FEATs, or `None` for a FEAT without one.
pub(crate) type Features = [Option<u32>; 5];

impl<A: Allocator + Copy> Table for MultiMap<Features, A> {
    type Lines = Type4;

    ghost holds = { λ table lines. HoldsFeatures table lines };

    fn add(&mut self, rt4: &Rt4<'_>) -> Result<Addition, AllocError> {
        self.push(rt4.number(), feature_numbers(rt4))
    }
}

fn feature_numbers(rt4: &Rt4<'_>) -> Features
    ensures { result ≡ feature_numbers rt4.now.bytes }
{
    [
        feature_number(rt4.field(Type4::FEAT1)),
        feature_number(rt4.field(Type4::FEAT2)),
        feature_number(rt4.field(Type4::FEAT3)),
        feature_number(rt4.field(Type4::FEAT4)),
        feature_number(rt4.field(Type4::FEAT5)),
    ]
}

/// Returns the number of a FEAT, a field of 8 bytes.
fn feature_number(feat: &[u8]) -> Option<u32>
    requires { length feat.now ≡ 8 }
    ensures { result ≡ number_of feat.now }
{
    Some(number(feat)? as u32)
}

impl<A: Allocator + Copy> Table for FeatureNames<A> {
    type Lines = Type5;

    ghost holds = { λ table lines. HoldsNames table lines };

    fn add(&mut self, rt5: &Rt5<'_>) -> Result<Addition, AllocError> {
        self.set(rt5.number(), full_name(rt5))?;
        Ok(Addition::Added)
    }
}

fn full_name<'a>(rt5: &Rt5<'a>) -> FullName<'a>
    ensures value { full_name_of result ≡ full_name_in rt5.now.bytes }
    ensures lengths { HasNameLengths (full_name_of result) }
{
    FullName {
        fedirp: rt5.field(Type5::FEDIRP),
        fename: rt5.field(Type5::FENAME),
        fetype: rt5.field(Type5::FETYPE),
        fedirs: rt5.field(Type5::FEDIRS),
    }
}

impl<A: Allocator + Copy> Table for MultiMap<RangeFields, A> {
    type Lines = Type6;

    ghost holds = { λ table lines. HoldsRanges table lines };

    fn add(&mut self, rt6: &Rt6<'_>) -> Result<Addition, AllocError> {
        self.push(rt6.number(), further_range(rt6))
    }
}

fn further_range(rt6: &Rt6<'_>) -> RangeFields
    ensures { result ≡ further_range rt6.now.bytes }
{
    RangeFields::of(Range {
        fraddl: rt6.field(Type6::FRADDL),
        toaddl: rt6.field(Type6::TOADDL),
        fraddr: rt6.field(Type6::FRADDR),
        toaddr: rt6.field(Type6::TOADDR),
        zipl: rt6.field(Type6::ZIPL),
        zipr: rt6.field(Type6::ZIPR),
    })
}
