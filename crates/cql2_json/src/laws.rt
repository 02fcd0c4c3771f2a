//! Laws about the definitions, stated as contracts of functions that do nothing.
ghost use Rattle.std.specs.Prelude.{◌≡◌, ℕ, List, [], ◌∷◌, ◌++◌, length, codes, false, option_and_then, option_map, Err, Ok, Some};
ghost use Rattle.std.specs.List.{list_any};
ghost use Rattle.json.specs.Json.{Json, document};
ghost use Rattle.cql2_json.specs.Meets.{meets};
ghost use Rattle.cql2_json.specs.Pointer.{value_at};
ghost use Rattle.cql2_json.specs.Position.{BeginsCharacter, column_after, is_line_feed, offset_of};
ghost use Rattle.cql2_json.specs.Translation.{Misplaced, Piece, filter_translation, path_at, text_of};
ghost use Rattle.cql2_json.specs.declared.fault.ExpectedValue.TheVariants as needed;
ghost use Rattle.cql2_json.specs.declared.pointer.Member.TheVariants as member;
ghost use Rattle.cql2_json.specs.declared.pointer.Step.{Step};
ghost use Rattle.cql2_json.specs.declared.pointer.Step.TheVariants as step;
ghost use Rattle.cql2_json.specs.declared.translation.TheConstants.{MAX_LENGTH};

/// States that JSON and its text have at most 1,048,576 bytes.
pub fn length_limit()
    ensures { MAX_LENGTH ≡ 1048576 }
{}

/// States that the column after a prefix of a line leads back to the length of the prefix.
pub fn offsets_of_columns()
    ensures { (front after : List ℕ) → list_any is_line_feed front ≡ false → BeginsCharacter after
        → offset_of (column_after front) (front ++ after) ≡ length front }
{}

/// States that the path of a fault leads to a value that isn't as expected, and the path to the writer of a byte leads to a value.
pub fn pointers_lead()
    ensures faults { (value : Json) (fault : Misplaced) → filter_translation value ≡ Err fault
        → (part : Json) × (value_at fault.path value ≡ Some part) × (meets fault.needs part ≡ false) }
    ensures pieces { (value : Json) (pieces : List Piece) (offset : ℕ) (path : List Step) → filter_translation value ≡ Ok pieces
        → path_at pieces offset ≡ Some path → (part : Json) × (value_at path value ≡ Some part) }
{}

/// States the texts of three filters, and where a fourth has no text.
pub fn examples()
    ensures combined { option_and_then text_of (document (codes
        "{\"op\":\"or\",\"args\":[{\"op\":\"and\",\"args\":[true,false]},{\"op\":\"in\",\"args\":[{\"property\":\"ZIPL\"},[1,2]]}]}"))
        ≡ Some (codes "((TRUE AND FALSE) OR (\"ZIPL\" IN (1, 2)))") }
    ensures quoted { option_and_then text_of (document (codes "{\"args\":[{\"property\":\"FENAME\"},\"O'Hara\"],\"op\":\"=\"}"))
        ≡ Some (codes "(\"FENAME\" = 'O''Hara')") }
    ensures spatial { option_and_then text_of (document (codes
        "{\"op\":\"f\",\"args\":[{\"type\":\"LineString\",\"coordinates\":[[-86.70,32.4],[1e2,0]]}]}"))
        ≡ Some (codes "f(LINESTRING(-86.70 32.4, 1e2 0))") }
    ensures misplaced { option_map filter_translation (document (codes "{\"op\":\"not\",\"args\":[null]}"))
        ≡ Some (Err (record {
          before = record { path = step.Member member.Args ∷ []; text = codes "(NOT " } ∷ record { path = step.Member member.Args ∷ []; text = [] } ∷ [];
          path = step.Member member.Args ∷ step.Item 0 ∷ [];
          needs = needed.Expression;
        })) }
{}
