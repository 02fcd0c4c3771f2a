//! The types of GeoJSON geometries (RFC 7946).
ghost use Rattle.std.specs.Prelude.{◌≡◌};
ghost use Rattle.cql2_json.specs.GeometryType.{coordinates_form, geometry_type_of_name, geometry_tag};

use crate::form::Form;

/// The type of a geometry.
#[derive(Clone, Copy)]
pub(crate) enum GeometryType {
    Point,
    LineString,
    Polygon,
    MultiPoint,
    MultiLineString,
    MultiPolygon,
}

impl GeometryType {
    /// Returns the type with this name.
    pub fn of_name(name: &str) -> Option<GeometryType>
        ensures { result ≡ geometry_type_of_name name.now }
    {
        match name {
            "Point" => Some(GeometryType::Point),
            "LineString" => Some(GeometryType::LineString),
            "Polygon" => Some(GeometryType::Polygon),
            "MultiPoint" => Some(GeometryType::MultiPoint),
            "MultiLineString" => Some(GeometryType::MultiLineString),
            "MultiPolygon" => Some(GeometryType::MultiPolygon),
            _ => None,
        }
    }

    /// Returns the type as text writes it.
    pub fn tag(self) -> &'static str
        ensures { result.now ≡ geometry_tag self }
    {
        match self {
            GeometryType::Point => "POINT",
            GeometryType::LineString => "LINESTRING",
            GeometryType::Polygon => "POLYGON",
            GeometryType::MultiPoint => "MULTIPOINT",
            GeometryType::MultiLineString => "MULTILINESTRING",
            GeometryType::MultiPolygon => "MULTIPOLYGON",
        }
    }

    /// Returns the form of the coordinates.
    pub fn coordinates(self) -> Form
        ensures { result ≡ coordinates_form self }
    {
        match self {
            GeometryType::Point => Form::Point,
            GeometryType::LineString => Form::Line,
            GeometryType::Polygon => Form::Polygon,
            GeometryType::MultiPoint => Form::MultiPoint,
            GeometryType::MultiLineString => Form::MultiLine,
            GeometryType::MultiPolygon => Form::MultiPolygon,
        }
    }
}
