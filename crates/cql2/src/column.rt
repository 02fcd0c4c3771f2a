//! The columns of a segment's record that a filter can name (TIGER/Line 2006, record type 1).
ghost use Rattle.std.specs.Prelude.{◌≡◌};
ghost use Rattle.cql2.specs.Column.{column_name, is_right_justified, number_places, places_of, text_places};

use tl_records::{Places, Type1};

/// A column whose fields are numbers.
#[derive(Clone, Copy)]
pub enum NumberColumn {
    Tlid,
    Fraddl,
    Toaddl,
    Fraddr,
    Toaddr,
    Zipl,
    Zipr,
    Statel,
    Stater,
    Countyl,
    Countyr,
    Placel,
    Placer,
    Tractl,
    Tractr,
    Blockl,
    Blockr,
}

/// A column whose fields are coordinates, in millionths of a degree (NAD83).
#[derive(Clone, Copy)]
pub enum CoordinateColumn {
    Frlong,
    Frlat,
    Tolong,
    Tolat,
}

/// A column that is compared with numbers.
#[derive(Clone, Copy)]
pub enum NumericColumn {
    Number(NumberColumn),
    Coordinate(CoordinateColumn),
}

/// A column that is compared with texts.
#[derive(Clone, Copy)]
pub enum TextColumn {
    Rt,
    Version,
    Side1,
    Source,
    Fedirp,
    Fename,
    Fetype,
    Fedirs,
    Cfcc,
    /// FRADDL as a text, which may have more than digits: `164-20`. The next three are likewise.
    FraddlText,
    ToaddlText,
    FraddrText,
    ToaddrText,
    Friaddl,
    Toiaddl,
    Friaddr,
    Toiaddr,
    Cousubl,
    Cousubr,
}

/// A column.
#[derive(Clone, Copy)]
pub enum Column {
    Numeric(NumericColumn),
    Text(TextColumn),
}

// One table, so that a column is written once. What a field means is said where `Type1` doesn't name it.
/// Passes the given tokens and each column with its name and the positions of its fields to a macro.
macro_rules! columns {
    ($write:ident!($($given:tt)*)) => {
        $write! {
            ($($given)*)
            Text Rt "RT" Type1::RT;
            Text Version "VERSION" Type1::VERSION;
            Number Tlid "TLID" Type1::TLID;
            Text Side1 "SIDE1" Type1::SIDE1;
            Text Source "SOURCE" Type1::SOURCE;
            Text Fedirp "FEDIRP" Type1::FEDIRP;
            Text Fename "FENAME" Type1::FENAME;
            Text Fetype "FETYPE" Type1::FETYPE;
            Text Fedirs "FEDIRS" Type1::FEDIRS;
            Text Cfcc "CFCC" Type1::CFCC;
            Number Fraddl "FRADDL" Type1::FRADDL;
            Number Toaddl "TOADDL" Type1::TOADDL;
            Number Fraddr "FRADDR" Type1::FRADDR;
            Number Toaddr "TOADDR" Type1::TOADDR;
            // Whether FRADDL is imputed: `1`, `0` or blank.
            Text Friaddl "FRIADDL" Places(103, 103);
            // Whether TOADDL is imputed: `1`, `0` or blank.
            Text Toiaddl "TOIADDL" Places(104, 104);
            // Whether FRADDR is imputed: `1`, `0` or blank.
            Text Friaddr "FRIADDR" Places(105, 105);
            // Whether TOADDR is imputed: `1`, `0` or blank.
            Text Toiaddr "TOIADDR" Places(106, 106);
            Number Zipl "ZIPL" Type1::ZIPL;
            Number Zipr "ZIPR" Type1::ZIPR;
            Number Statel "STATEL" Type1::STATEL;
            Number Stater "STATER" Type1::STATER;
            Number Countyl "COUNTYL" Type1::COUNTYL;
            Number Countyr "COUNTYR" Type1::COUNTYR;
            Text Cousubl "COUSUBL" Type1::COUSUBL;
            Text Cousubr "COUSUBR" Type1::COUSUBR;
            Number Placel "PLACEL" Type1::PLACEL;
            Number Placer "PLACER" Type1::PLACER;
            Number Tractl "TRACTL" Type1::TRACTL;
            Number Tractr "TRACTR" Type1::TRACTR;
            Number Blockl "BLOCKL" Type1::BLOCKL;
            Number Blockr "BLOCKR" Type1::BLOCKR;
            Coordinate Frlong "FRLONG" Type1::FRLONG;
            Coordinate Frlat "FRLAT" Type1::FRLAT;
            Coordinate Tolong "TOLONG" Type1::TOLONG;
            Coordinate Tolat "TOLAT" Type1::TOLAT;
            Text FraddlText "FRADDL_TEXT" Type1::FRADDL;
            Text ToaddlText "TOADDL_TEXT" Type1::TOADDL;
            Text FraddrText "FRADDR_TEXT" Type1::FRADDR;
            Text ToaddrText "TOADDR_TEXT" Type1::TOADDR;
        }
    };
}

/// Expands to a column of a kind.
macro_rules! column {
    (Number $column:ident) => { Column::Numeric(NumericColumn::Number(NumberColumn::$column)) };
    (Coordinate $column:ident) => { Column::Numeric(NumericColumn::Coordinate(CoordinateColumn::$column)) };
    (Text $column:ident) => { Column::Text(TextColumn::$column) };
}

/// Expands to the list of the columns.
macro_rules! list {
    (() $($kind:ident $column:ident $name:literal $places:expr;)*) => { [$(column!($kind $column)),*] };
}

/// Expands to the match from a column to its name.
macro_rules! name {
    (($of:expr) $($kind:ident $column:ident $name:literal $places:expr;)*) => { match $of { $(column!($kind $column) => $name,)* } };
}

/// Expands to the match from a column to the positions of its fields.
macro_rules! places {
    (($of:expr) $($kind:ident $column:ident $name:literal $places:expr;)*) => { match $of { $(column!($kind $column) => $places,)* } };
}

/// The number of columns.
pub const MAX_COLUMNS: usize = columns!(list!()).len();

/// All columns, each once: first the usual ones, one for each field, in the order of the record, and then those that repeat a field.
pub const COLUMNS: [Column; MAX_COLUMNS] = columns!(list!());

/// Returns the column's name in the record layout.
pub fn column_name(column: Column) -> &'static str
    ensures { result.now ≡ column_name column }
{
    columns!(name!(column))
}

impl Column {
    /// Returns the positions of the column's fields.
    pub fn places(self) -> Places
        ensures { result ≡ places_of self }
    {
        columns!(places!(self))
    }
}

impl NumberColumn {
    /// Returns the positions of the column's fields.
    pub fn places(self) -> Places
        ensures { result ≡ number_places self }
    {
        Column::Numeric(NumericColumn::Number(self)).places()
    }
}

impl TextColumn {
    /// Returns the positions of the column's fields.
    pub fn places(self) -> Places
        ensures { result ≡ text_places self }
    {
        Column::Text(self).places()
    }

    /// Returns whether the column's fields are right-justified, so that blanks before a text aren't part of it.
    pub fn is_right_justified(self) -> bool
        ensures { result ≡ is_right_justified self }
    {
        matches!(
            self,
            TextColumn::FraddlText
                | TextColumn::ToaddlText
                | TextColumn::FraddrText
                | TextColumn::ToaddrText,
        )
    }
}
