//! Shapes read from texts, with results worked out by hand.
use crate::filter_texts::is_read;
use fixtures::Table;

// A text and the filter it is read as, as in the table of other filters. Between the vertices of a shape there are commas, between rings `/`, and
// between polygons `|`.
const SHAPES: Table = Table(
    r#"
S_INTERSECTS(geometry, POINT(-86.5 32.25)); (meets point -86500000 32250000)
S_INTERSECTS(POINT(-86.5 32.25), geometry); (meets point -86500000 32250000)
s_Intersects("Geometry", Point(+1 -2)); (meets point 1000000 -2000000)
S_INTERSECTS(geometry, LINESTRING(0 1, 2 3, 4.5 5)); (meets line 0 1000000,2000000 3000000,4500000 5000000)
S_INTERSECTS(geometry, BBOX(1, 2, 3.000001, 4)); (meets box 1000000 2000000,3000001 4000000)
S_INTERSECTS(geometry, POLYGON((0 0, 4 0, 0 4, 0 0))); (meets polygons 0 0,4000000 0,0 4000000)
S_INTERSECTS(geometry, POLYGON((0 0, 4 0, 0 4, 0.0 -0), (1 1, 2 1, 1 2, 1 1)));
  (meets polygons 0 0,4000000 0,0 4000000/1000000 1000000,2000000 1000000,1000000 2000000)
S_INTERSECTS(MULTIPOLYGON(((0 0, 4 0, 0 4, 0 0)), ((5 5, 6 5, 6 6, 5 6, 5 5))), geometry);
  (meets polygons 0 0,4000000 0,0 4000000|5000000 5000000,6000000 5000000,6000000 6000000,5000000 6000000)
S_DISJOINT(geometry, POINT(1 2)); (not (meets point 1000000 2000000))
NOT S_DISJOINT(BBOX(1, 2, 3, 4), geometry) AND TRUE; (and (not (not (meets box 1000000 2000000,3000000 4000000))) (true))
S_WITHIN(geometry, BBOX(1, 2, 3, 4)); (within 1000000 2000000,3000000 4000000)
S_WITHIN(geometry, BBOX(1, 2, 1, 2)); (within 1000000 2000000,1000000 2000000)
S_WITHIN(geometry, BBOX(-999.9999999999999, -1, 999.999999999999999, 1)); (within -1000000000+100 -1000000,999999999+999999999 1000000)
S_WITHIN(geometry, BBOX(3, 2, 1, 4)); 1 31 NumberRange
S_WITHIN(geometry, BBOX(1, 2.000000000000002, 3, 2.000000000000001)); 1 50 NumberRange
STARTS_IN(BBOX(-0.000000000000001, -0.0, +0.0000000000000010, 0)); 1 42 NumberRange
STARTS_IN(BBOX(-0.000000000000001, -0.0, +0.000000000000001, 0)); (starts box -1+999999999 0,0+1 0)
STARTS_IN(BBOX(3, 4, 1, 2)); 1 22 NumberRange
STARTS_IN(BBOX(1, 4, 3, 2)); 1 25 NumberRange
STARTS_IN(POLYGON((0 0, 4 0, 0 4, 0 0))); (starts 0 0,4000000 0,0 4000000)
STARTS_IN(MULTIPOLYGON(((0 0, 4 0, 0 4, 0 0)), ((5 5, 6 5, 6 6, 5 5)))); (starts 0 0,4000000 0,0 4000000|5000000 5000000,6000000 5000000,6000000 6000000)
S_INTERSECTS(geometry, POINT(0.0000005 0.0000015)); (meets point 0 2)
S_INTERSECTS(geometry, POINT(0.00000050001 -0.0000025)); (meets point 1 -2)
S_INTERSECTS(geometry, POINT(0.00000049999 -0.00000350000)); (meets point 0 -4)
S_INTERSECTS(geometry, POINT(0.9999999 1.2345678)); (meets point 1000000 1234568)
S_INTERSECTS(geometry, POINT(999.9999994 -999.9999990)); (meets point 999999999 -999999999)
S_INTERSECTS(geometry, POINT(999.9999996 0)); 1 30 NumberRange
S_INTERSECTS(geometry, POINT(0 -1000)); 1 32 NumberRange
S_INTERSECTS(geometry, POLYGON((0 0, 4 0, 0 4, 0.0000004 0))); (meets polygons 0 0,4000000 0,0 4000000)
S_INTERSECTS(geometry, BBOX(0.0000001, -0.0000015, 1, 1)); (meets box 0+100000000 -2+500000000,1000000 1000000)
S_INTERSECTS(geometry, BBOX(-86.123456789012345, 0, -86.1, 1)); (meets box -86123457+210987655 0,-86100000 1000000)
S_INTERSECTS(geometry, BBOX(0.1234567890123456, 0, 1, 1)); 1 29 NumberRange
S_INTERSECTS(geometry, BBOX(0, 0, 1000, 1)); 1 35 NumberRange
S_INTERSECTS(geometry, BBOX(3, 2, 1, 4)); 1 35 NumberRange
S_INTERSECTS(geometry, BBOX(1, 4, 3, 2)); 1 38 NumberRange
S_INTERSECTS(geometry, BBOX(1, 2, 3)); 1 36 Syntax
S_INTERSECTS(geometry, POINT(1, 2)); 1 31 Syntax
S_INTERSECTS(geometry, POINT(1 2 3)); 1 34 Syntax
S_INTERSECTS(geometry, POINT(1e1 2)); 1 31 Syntax
S_INTERSECTS(geometry, POINT('1' 2)); 1 30 WrongType
S_INTERSECTS(geometry, LINESTRING(0 0)); 1 38 Syntax
S_INTERSECTS(geometry, POLYGON((0 0, 4 0, 0 0))); 1 46 Syntax
S_INTERSECTS(geometry, POLYGON((0 0, 4 0, 0 4, -1 0), (0 0))); 1 48 Syntax
S_INTERSECTS(geometry, POLYGON(0 0, 4 0, 0 4, 0 0)); 1 32 Syntax
S_INTERSECTS(geometry, MULTIPOINT(0 0)); 1 24 Syntax
S_INTERSECTS(geometry, geometry); 1 24 Syntax
S_INTERSECTS(POINT(0 0), POINT(0 0)); 1 26 Syntax
S_INTERSECTS(FENAME, POINT(0 0)); 1 14 Syntax
S_WITHIN(geometry, POLYGON((0 0, 4 0, 0 4, 0 0))); 1 20 Syntax
S_WITHIN(BBOX(1, 2, 3, 4), geometry); 1 10 Syntax
STARTS_IN(POINT(0 0)); 1 11 Syntax
geometry = 5; 1 1 Syntax
S_CONTAINS(geometry, POINT(0 0)); 1 1 UnknownColumn
S_INTERSECTS(geometry, LINESTRING(0 0{text , 0 0*999})); (meets line 0 0{text ,0 0*999})
S_INTERSECTS(geometry, LINESTRING(0 0{text , 0 0*1000})); 1 24 TooLong
S_INTERSECTS(geometry, POLYGON((0 0{text , 0 0*1000}))); (meets polygons 0 0{text ,0 0*999})
S_INTERSECTS(geometry, POLYGON((0 0{text , 0 0*1000}), (0 0, 1 1, 2 2, 0 0))); 1 24 TooLong
"#,
);

#[test]
fn reads_shapes(rt: HostRuntime) {
    for row in SHAPES.joined(rt.alloc()).expect(&rt, "shapes").lines() {
        assert_eq!(rt; is_read(rt.alloc(), row), Ok(true), "{row}");
    }
}
