//! Laws about the definitions, stated as contracts of functions that do nothing.
ghost use Rattle.std.specs.Prelude.{◌≡◌, ℕ, List};
ghost use Rattle.tl_records.specs.Layout.{latitude, longitude, places};
ghost use Rattle.tl_records.specs.Lines.{AreLines};

use crate::layout::{Type1, Type2, Type4, Type5, Type6};

/// States that a file has at most one list of lines.
#[tactic(auto, using(crate::proofs::LineLemmas::one_list_of_lines_lem))]
pub fn one_list_of_lines()
    ensures { (file : List ℕ) (lines others : List (List ℕ))
        → AreLines file lines → AreLines file others → lines ≡ others }
{}

/// States that every file has a list of lines.
#[tactic(auto, using(crate::proofs::LineLemmas::every_file_has_lines_lem))]
pub fn every_file_has_lines()
    ensures { (file : List ℕ) → (lines : List (List ℕ)) × AreLines file lines }
{}

/// States the columns of the fields of record type 1.
pub fn type1_fields()
    ensures start { (Type1.RT ≡ places 1 1) × (Type1.VERSION ≡ places 2 5) × (Type1.TLID ≡ places 6 15) × (Type1.SIDE1 ≡ places 16 16)
        × (Type1.SOURCE ≡ places 17 17) }
    ensures name { (Type1.FEDIRP ≡ places 18 19) × (Type1.FENAME ≡ places 20 49) × (Type1.FETYPE ≡ places 50 53)
        × (Type1.FEDIRS ≡ places 54 55) × (Type1.CFCC ≡ places 56 58) }
    ensures addresses { (Type1.FRADDL ≡ places 59 69) × (Type1.TOADDL ≡ places 70 80) × (Type1.FRADDR ≡ places 81 91)
        × (Type1.TOADDR ≡ places 92 102) }
    ensures zips { (Type1.ZIPL ≡ places 107 111) × (Type1.ZIPR ≡ places 112 116) }
    ensures states { (Type1.STATEL ≡ places 131 132) × (Type1.STATER ≡ places 133 134) × (Type1.COUNTYL ≡ places 135 137)
        × (Type1.COUNTYR ≡ places 138 140) }
    ensures districts { (Type1.COUSUBL ≡ places 141 145) × (Type1.COUSUBR ≡ places 146 150) × (Type1.PLACEL ≡ places 161 165)
        × (Type1.PLACER ≡ places 166 170) }
    ensures blocks { (Type1.TRACTL ≡ places 171 176) × (Type1.TRACTR ≡ places 177 182) × (Type1.BLOCKL ≡ places 183 186)
        × (Type1.BLOCKR ≡ places 187 190) }
    ensures ends { (Type1.FRLONG ≡ places 191 200) × (Type1.FRLAT ≡ places 201 209) × (Type1.TOLONG ≡ places 210 219)
        × (Type1.TOLAT ≡ places 220 228) }
{}

/// States the columns of the fields of record type 2.
pub fn type2_fields()
    ensures start { (Type2.RT ≡ places 1 1) × (Type2.VERSION ≡ places 2 5) × (Type2.TLID ≡ places 6 15) × (Type2.RTSQ ≡ places 16 18) }
    ensures points { Type2.POINTS ≡ 10 }
    ensures longitudes { (longitude 1 ≡ places 19 28) × (longitude 2 ≡ places 38 47) × (longitude 3 ≡ places 57 66)
        × (longitude 4 ≡ places 76 85) × (longitude 5 ≡ places 95 104) × (longitude 6 ≡ places 114 123) × (longitude 7 ≡ places 133 142)
        × (longitude 8 ≡ places 152 161) × (longitude 9 ≡ places 171 180) × (longitude 10 ≡ places 190 199) }
    ensures latitudes { (latitude 1 ≡ places 29 37) × (latitude 2 ≡ places 48 56) × (latitude 3 ≡ places 67 75)
        × (latitude 4 ≡ places 86 94) × (latitude 5 ≡ places 105 113) × (latitude 6 ≡ places 124 132) × (latitude 7 ≡ places 143 151)
        × (latitude 8 ≡ places 162 170) × (latitude 9 ≡ places 181 189) × (latitude 10 ≡ places 200 208) }
{}

/// States the columns of the fields of record type 4.
pub fn type4_fields()
    ensures start { (Type4.RT ≡ places 1 1) × (Type4.VERSION ≡ places 2 5) × (Type4.TLID ≡ places 6 15) × (Type4.RTSQ ≡ places 16 18) }
    ensures names { (Type4.FEAT1 ≡ places 19 26) × (Type4.FEAT2 ≡ places 27 34) × (Type4.FEAT3 ≡ places 35 42)
        × (Type4.FEAT4 ≡ places 43 50) × (Type4.FEAT5 ≡ places 51 58) }
{}

/// States the columns of the fields of record type 5.
pub fn type5_fields()
    ensures start { (Type5.RT ≡ places 1 1) × (Type5.VERSION ≡ places 2 5) × (Type5.FEAT ≡ places 11 18) }
    ensures name { (Type5.FEDIRP ≡ places 19 20) × (Type5.FENAME ≡ places 21 50) × (Type5.FETYPE ≡ places 51 54)
        × (Type5.FEDIRS ≡ places 55 56) }
{}

/// States the columns of the fields of record type 6.
pub fn type6_fields()
    ensures start { (Type6.RT ≡ places 1 1) × (Type6.VERSION ≡ places 2 5) × (Type6.TLID ≡ places 6 15) × (Type6.RTSQ ≡ places 16 18) }
    ensures addresses { (Type6.FRADDL ≡ places 19 29) × (Type6.TOADDL ≡ places 30 40) × (Type6.FRADDR ≡ places 41 51)
        × (Type6.TOADDR ≡ places 52 62) }
    ensures zips { (Type6.ZIPL ≡ places 67 71) × (Type6.ZIPR ≡ places 72 76) }
{}
