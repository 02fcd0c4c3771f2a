//! Laws about the definitions, stated as contracts of functions that do nothing.
ghost use Rattle.std.specs.Prelude.{◌≡◌, ◌==◌, ℕ, [], ◌∷◌, ◌++◌, true, codes, List, map, drop, Some, Ok};
ghost use Rattle.std.specs.List.{IsDistinct, list_any, slice_split};
ghost use Rattle.cql2.specs.Column.{column_name};
ghost use Rattle.cql2.specs.declared.column.Column.{Column};
ghost use Rattle.cql2.specs.declared.column.TheConstants.{COLUMNS};
ghost use Rattle.csv.specs.Reading.{default_config, records};
ghost use Rattle.layers.specs.Columns.{columns_named, is_same, usual_columns};
ghost use Rattle.layers.specs.CsvTable.{header_cells, row_cells, table_text};
ghost use Rattle.layers.specs.Feature.{IsWritable, feature, feature_text, features_text};
ghost use Rattle.layers.specs.Layout.{LayoutParts, SelectedParts};
ghost use Rattle.layers.specs.declared.columns.TheConstants.{USUAL_COUNT};
ghost use Rattle.json.specs.Json.{document};

/// States that the usual columns are those of the fields, in the order of a record, and that only the house numbers as texts are columns besides.
#[tactic(auto, using(crate::proofs::ColumnLemmas::all_columns), unfolding(crate::specs::Columns::is_same))]
pub fn all_columns()
    ensures each { (column : Column) → list_any (is_same column) COLUMNS ≡ true }
    ensures usual { map column_name usual_columns ≡
        codes "RT" ∷ codes "VERSION" ∷ codes "TLID" ∷ codes "SIDE1" ∷ codes "SOURCE" ∷ codes "FEDIRP" ∷ codes "FENAME" ∷ codes "FETYPE"
        ∷ codes "FEDIRS" ∷ codes "CFCC" ∷ codes "FRADDL" ∷ codes "TOADDL" ∷ codes "FRADDR" ∷ codes "TOADDR" ∷ codes "FRIADDL" ∷ codes "TOIADDL"
        ∷ codes "FRIADDR" ∷ codes "TOIADDR" ∷ codes "ZIPL" ∷ codes "ZIPR" ∷ codes "STATEL" ∷ codes "STATER" ∷ codes "COUNTYL" ∷ codes "COUNTYR"
        ∷ codes "COUSUBL" ∷ codes "COUSUBR" ∷ codes "PLACEL" ∷ codes "PLACER" ∷ codes "TRACTL" ∷ codes "TRACTR" ∷ codes "BLOCKL" ∷ codes "BLOCKR"
        ∷ codes "FRLONG" ∷ codes "FRLAT" ∷ codes "TOLONG" ∷ codes "TOLAT" ∷ [] }
    ensures others { map column_name (drop USUAL_COUNT COLUMNS) ≡
        codes "FRADDL_TEXT" ∷ codes "TOADDL_TEXT" ∷ codes "FRADDR_TEXT" ∷ codes "TOADDR_TEXT" ∷ [] }
{}

/// States that columns that were named are different.
#[tactic(auto, using(crate::proofs::ColumnLemmas::named_columns))]
pub fn named_columns_differ()
    ensures { (names : List (List ℕ)) (columns : List Column) → columns_named names ≡ Ok columns → IsDistinct is_same columns }
{}

/// States that the records of a table, as a reader of the crate csv reads them, are the names of its columns and then the cells of each row.
#[tactic(auto, using(crate::proofs::TableLemmas::records_of_table))]
pub fn table_reads_back()
    ensures { (table : LayoutParts) (selected : List SelectedParts) → records default_config (table_text table selected)
        ≡ header_cells table ∷ map (λ one. row_cells table one.score one.segment one.shape) selected }
{}

// Numbers are text to this reader, as floating point wouldn't say which millionths were written.
/// States that a feature, as a reader of the crate json reads it, has the members and the values that are defined, in order. Numbers are read as text.
#[tactic(auto, using(crate::proofs::DocumentLemmas::document_of_feature))]
pub fn feature_reads_back()
    ensures { (layout : LayoutParts) (one : SelectedParts) → IsWritable one
        → document (feature_text layout one.score one.segment one.shape) ≡ Some (feature layout one.score one.segment one.shape) }
{}

/// States that the lines of features are their texts: a feature has no line feed.
#[tactic(auto, using(crate::proofs::LineFeedLemmas::lines_of_features))]
pub fn features_are_lines()
    ensures { (layout : LayoutParts) (selected : List SelectedParts) → slice_split (λ b. b == 10) (features_text layout selected)
        ≡ map (λ one. feature_text layout one.score one.segment one.shape) selected ++ [] ∷ [] }
{}
