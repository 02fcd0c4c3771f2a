//! Laws about the definitions, stated as contracts of functions that do nothing.
ghost use Rattle.std.specs.Prelude.{◌≡◌, List, map, All};
ghost use Rattle.tl_segments.specs.County.{CountyParts};
ghost use Rattle.tl_segments.specs.Segment.{IsSegment};
ghost use Rattle.geocode.specs.Hits.{find};
ghost use Rattle.geocode.specs.Matches.{hits_on_street, matches};
ghost use Rattle.geocode.specs.Street.{StreetParts, WantsNameAlone};
ghost use Rattle.geocode.specs.declared.house.House.{House};
ghost use Rattle.geocode.specs.declared.query.TheConstants.{MAX_HOUSE_NUMBER_DIGITS};

/// States that a house number has at most 11 digits.
pub fn digit_limit()
    ensures { MAX_HOUSE_NUMBER_DIGITS ≡ 11 }
{}

/// States that the hits of matches are those on the segments that are on the street. With a direction or a type they are some of the hits of its
/// name.
#[tactic(auto, using(crate::proofs::MatchHitLemmas::hits_of_matches))]
pub fn matches_are_hits()
    ensures { (street : StreetParts) (house : House) (counties : List CountyParts)
        → map (λ found. found.hit) (matches street house counties) ≡ hits_on_street street house counties }
{}

/// States that with no direction and no type, the hits of matches are those found by the street's name.
#[tactic(auto, using(crate::proofs::MatchHitLemmas::hits_of_name))]
pub fn matches_of_a_name()
    ensures { (street : StreetParts) (house : House) (counties : List CountyParts) → WantsNameAlone street
        → All (λ county. All IsSegment county.segments) counties
        → map (λ found. found.hit) (matches street house counties) ≡ find street.name house counties }
{}
