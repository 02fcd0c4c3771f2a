//! The names of an object's members.
ghost use Rattle.std.specs.Prelude.{◌≡◌};
ghost use Rattle.cql2_json.specs.Members.{pair_of_names};

/// The two members of an object, by their names. The members of an object are in no order, so there are two pairs of each kind.
#[derive(Clone, Copy)]
pub(crate) enum Pair {
    OpArgs,
    ArgsOp,
    TypeCoordinates,
    CoordinatesType,
    Other,
}

impl Pair {
    /// Returns the pair with these names.
    pub fn of_names(first: &str, second: &str) -> Pair
        ensures { result ≡ pair_of_names first.now second.now }
    {
        match first {
            "op" => if second == "args" {
                Pair::OpArgs
            } else {
                Pair::Other
            },
            "args" => if second == "op" {
                Pair::ArgsOp
            } else {
                Pair::Other
            },
            "type" => if second == "coordinates" {
                Pair::TypeCoordinates
            } else {
                Pair::Other
            },
            "coordinates" => if second == "type" {
                Pair::CoordinatesType
            } else {
                Pair::Other
            },
            _ => Pair::Other,
        }
    }
}
