//! Layers, chosen by names. The command line and HTTP read them by these functions, so both take the same names.
ghost use Rattle.std.specs.Prelude.{◌≡◌, ◌≢◌, IfErr, IfOk, MatchResult, Ok, Err, Some, [], map, get_or};
ghost use Rattle.std.specs.Option.{option_copied};
ghost use Rattle.layers.specs.LayerFault.{NamesNearest, parts_of};
ghost use Rattle.layers.specs.LayerParts.{layout_of as layout_parts, parts_of as layer_parts};
ghost use Rattle.layers.specs.Names.{columns_or_usual, fault_of_columns, geometry_named, layer_named, layout_named, listed_columns, names_in, plain_rows, unknown_column};
ghost use Rattle.layers.specs.declared.layer_fault.LayerFault.TheVariants as LayerFault;

use crate::columns::Columns;
use crate::columns_fault::ColumnsFault;
use crate::geometry::Geometry;
use crate::layer::{Layer, TableOptions};
use crate::layer_fault::LayerFault;
use cql2_tokens::near_column;
use std::alloc::{AllocError, Allocator};

/// Returns the layer with the values of `format`, `columns` and `geometry`, as far as they are given: rows, without columns and geometry, or a table or
/// features. They are looked at in this order. `alloc` keeps the list of names meanwhile.
pub fn layer_named<'a, A: Allocator>(
    alloc: A,
    format: Option<&'a str>,
    columns: Option<&'a str>,
    geometry: Option<&'a str>,
) -> Result<Layer, LayerFault<'a>>
    ensures value { MatchResult result
        (λ layer. layer_named (option_copied format.entry) (option_copied columns.entry)
        (option_copied geometry.entry) ≡ Ok (layer_parts layer))
        (λ fault. fault ≢ LayerFault.Memory → layer_named (option_copied format.entry) (option_copied columns.entry)
        (option_copied geometry.entry) ≡ Err (parts_of fault)) }
    ensures nearest { IfErr result NamesNearest }
{
    let Some(name) = format else {
        return plain_rows(columns, geometry);
    };
    match name {
        "rows" => plain_rows(columns, geometry),
        "csv" => Ok(Layer::Table(layout_named(alloc, columns, geometry)?)),
        "geojsonseq" => Ok(Layer::Features(layout_named(alloc, columns, geometry)?)),
        _ => Err(LayerFault::Format(name)),
    }
}

/// Returns the layer of rows, which takes neither columns nor a geometry.
fn plain_rows<'a>(
    columns: Option<&'a str>,
    geometry: Option<&'a str>,
) -> Result<Layer, LayerFault<'a>>
    ensures value { MatchResult result
        (λ layer. plain_rows (option_copied columns.entry) (option_copied geometry.entry) ≡ Ok (layer_parts layer))
        (λ fault. plain_rows (option_copied columns.entry) (option_copied geometry.entry) ≡ Err (parts_of fault)) }
    ensures nearest { IfErr result NamesNearest }
{
    match (columns, geometry) {
        (Some(_names), _) => Err(LayerFault::NotOfRows("columns")),
        (None, Some(_name)) => Err(LayerFault::NotOfRows("geometry")),
        (None, None) => Ok(Layer::Rows),
    }
}

/// Returns the columns and the geometry of a table or of features.
fn layout_named<'a, A: Allocator>(
    alloc: A,
    columns: Option<&'a str>,
    geometry: Option<&'a str>,
) -> Result<TableOptions, LayerFault<'a>>
    ensures value { MatchResult result
        (λ layout. layout_named (option_copied columns.entry) (option_copied geometry.entry) ≡ Ok (layout_parts layout))
        (λ fault. fault ≢ LayerFault.Memory
        → layout_named (option_copied columns.entry) (option_copied geometry.entry) ≡ Err (parts_of fault)) }
    ensures nearest { IfErr result NamesNearest }
{
    Ok(TableOptions {
        columns: columns_or_usual(alloc, columns)?,
        geometry: geometry_named(geometry)?,
    })
}

/// Returns the columns with the names between the commas of a text, by default the usual ones.
fn columns_or_usual<'a, A: Allocator>(
    alloc: A,
    text: Option<&'a str>,
) -> Result<Columns, LayerFault<'a>>
    ensures value { MatchResult result (λ columns. columns_or_usual (option_copied text.entry) ≡ Ok columns)
        (λ fault. fault ≢ LayerFault.Memory → columns_or_usual (option_copied text.entry) ≡ Err (parts_of fault)) }
    ensures nearest { IfErr result NamesNearest }
{
    match text {
        Some(text) => listed_columns(alloc, text),
        None => Ok(Columns::usual()),
    }
}

/// Returns the columns with the names between the commas of a text.
fn listed_columns<'a, A: Allocator>(alloc: A, text: &'a str) -> Result<Columns, LayerFault<'a>>
    ensures value { MatchResult result (λ columns. listed_columns text.now ≡ Ok columns)
        (λ fault. fault ≢ LayerFault.Memory → listed_columns text.now ≡ Err (parts_of fault)) }
    ensures nearest { IfErr result NamesNearest }
{
    let names = names_in(alloc, text)?;
    match Columns::named(names.as_slice()) {
        Ok(columns) => Ok(columns),
        Err(fault) => Err(fault_of_columns(fault, names.as_slice())),
    }
}

/// Returns the names between the commas of a text.
fn names_in<'a, A: Allocator>(alloc: A, text: &'a str) -> Result<Vec<&'a str, A>, AllocError>
    ensures { IfOk result (λ names. map (λ name. name.now) names.items ≡ names_in text.now) }
{
    let mut names = Vec::new(alloc);
    for name in text.split(',') {
        names.push(name)?;
    }
    Ok(names)
}

/// Returns the fault of names that don't choose columns.
fn fault_of_columns<'a>(fault: ColumnsFault, names: &[&'a str]) -> LayerFault<'a>
    ensures value { parts_of result ≡ fault_of_columns (map (λ name. name.now) names.now) fault }
    ensures nearest { NamesNearest result }
{
    match fault {
        ColumnsFault::Empty => LayerFault::EmptyColumn,
        ColumnsFault::Unknown(index) => unknown_column(name_at(names, index)),
        ColumnsFault::Repeated(index) => LayerFault::RepeatedColumn(name_at(names, index)),
    }
}

/// Returns the name at this index, or an empty one past the end.
fn name_at<'a>(names: &[&'a str], index: usize) -> &'a str
    ensures { result.now ≡ get_or (map (λ name. name.now) names.now) index [] }
{
    match names.get(index) {
        Some(name) => name,
        None => "",
    }
}

/// Returns the fault of a name that isn't that of a column.
fn unknown_column<'a>(name: &'a str) -> LayerFault<'a>
    ensures value { parts_of result ≡ unknown_column name.now }
    ensures nearest { NamesNearest result }
{
    match name {
        "" => LayerFault::EmptyColumn,
        _ => LayerFault::Column {
            name,
            nearest: near_column(name.trim().as_bytes()),
        },
    }
}

/// Returns the geometry of this name, by default a straight line.
fn geometry_named<'a>(name: Option<&'a str>) -> Result<Geometry, LayerFault<'a>>
    ensures value { MatchResult result (λ geometry. geometry_named (option_copied name.entry) ≡ Ok geometry)
        (λ fault. geometry_named (option_copied name.entry) ≡ Err (parts_of fault)) }
    ensures nearest { IfErr result NamesNearest }
{
    match name {
        None => Ok(Geometry::Line),
        Some("none") => Ok(Geometry::None),
        Some("line") => Ok(Geometry::Line),
        Some("shape") => Ok(Geometry::Shape),
        Some(name) => Err(LayerFault::Geometry(name)),
    }
}
