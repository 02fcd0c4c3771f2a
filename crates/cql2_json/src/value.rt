//! Writing JSON values as text, a method for each rule of the JSON encoding (CQL2, 21-065r2, annex C).
//!
//! A value is written as soon as its kind is known to fit. No filter is built here, as the parser of the text does that. The methods call each
//! other as deep as the JSON is nested, which the reader of JSON limits.
//!
//! Between two calls, the text is that of the values written so far and within its limit, and the path leads to the value that is being written.
//! A fault leaves the path at the value at fault, so nothing is searched for its JSON pointer.
ghost use Rattle.json.specs.Json.{member, no_members};
ghost use Rattle.json.specs.Value.{value_view, items_view, members_view};
ghost use Rattle.cql2_json.specs.Translation.{arguments_text, array_text, at, boolean_text, coordinates_text, geometry_text, items_text};
ghost use Rattle.cql2_json.specs.Translation.{named_geometry_text, named_operation_text, number_text, object_text, operation_text};
ghost use Rattle.cql2_json.specs.Translation.{property_text, string_text, translation};
ghost use Rattle.cql2_json.specs.Writer.{IsWithin, Writes};
ghost use Rattle.cql2_json.specs.declared.pointer.Step.TheVariants as step_to;

use crate::fault::{ExpectedValue, Flaw};
use crate::form::{Form, ValueKind};
use crate::geometry_type::GeometryType;
use crate::members::Pair;
use crate::operator::JsonOperator;
use crate::pointer::{Member, Step};
use crate::quoted::{is_name, is_printable, quoted_text};
use crate::writer::Writer;
use json::Value;
use std::alloc::Allocator;

impl<A: Allocator + Copy> Writer<A> {
    /// Writes a value that has to be of this kind.
    #[cycle(value)]
    #[tactic(auto, unfolding(crate::specs::Translation::translation))]
    pub fn value(&mut self, alloc: A, value: &Value<'_, A>, kind: ValueKind) -> Result<(), Flaw>
        requires { IsWithin self.old }
        ensures { Writes self.old (translation (value_view value.now) kind self.old.path.items) self.new result }
    {
        match value {
            Value::Null => Err(Flaw::Expected(kind.expected_value())),
            Value::Bool(value) => self.boolean(*value, kind),
            Value::Number(number) => self.number(number, kind),
            Value::String(text) => self.string(alloc, text, kind),
            Value::Array(values) => match kind {
                ValueKind::Array(form) => self.array(alloc, values, form),
                ValueKind::Expression | ValueKind::Number => Err(Flaw::Expected(
                    kind.expected_value(),
                )),
            },
            Value::Object(members) => match kind {
                ValueKind::Expression => self.object(alloc, members),
                ValueKind::Number | ValueKind::Array(_) => Err(Flaw::Expected(
                    kind.expected_value(),
                )),
            },
        }
    }

    /// Writes an array of this form.
    #[cycle(value)]
    #[tactic(auto, unfolding(crate::specs::Translation::translation))]
    fn array(&mut self, alloc: A, values: &Vec<Value<'_, A>, A>, form: Form) -> Result<(), Flaw>
        requires { IsWithin self.old }
        ensures { Writes self.old (array_text (items_view values.now.items) form self.old.path.items) self.new result }
    {
        if !form.count().admits(values.len()) {
            return Err(Flaw::Expected(ExpectedValue::Array(form.count())));
        }
        self.put(form.opening().as_bytes())?;
        self.items(alloc, values, form)?;
        self.put(form.closing().as_bytes())
    }

    /// Writes the values of an array of this form.
    #[cycle(value)]
    fn items(&mut self, alloc: A, values: &Vec<Value<'_, A>, A>, form: Form) -> Result<(), Flaw>
        requires { IsWithin self.old }
        ensures { Writes self.old (items_text (items_view values.now.items) form self.old.path.items 0) self.new result }
    {
        let mut index = 0;
        for value in values {
            self.put(form.separator(index).as_bytes())?;
            self.part(alloc, Step::Item(index), value, form.item(index))?;
            index += 1;
        }
        Ok(())
    }

    /// Writes a value in the one at the path.
    #[cycle(value)]
    fn part(
        &mut self,
        alloc: A,
        step: Step,
        value: &Value<'_, A>,
        kind: ValueKind,
    ) -> Result<(), Flaw>
        requires { IsWithin self.old }
        ensures { Writes self.old (translation (value_view value.now) kind (at self.old.path.items step)) self.new result }
    {
        self.enter(step)?;
        self.value(alloc, value, kind)?;
        self.leave();
        Ok(())
    }

    /// Writes an object.
    #[cycle(value)]
    fn object(&mut self, alloc: A, members: &Vec<(&str, Value<'_, A>), A>) -> Result<(), Flaw>
        requires { IsWithin self.old }
        ensures { Writes self.old (object_text (members_view members.now.items) self.old.path.items) self.new result }
    {
        match members.as_slice() {
            [one] => self.one_member(alloc, one.0, &one.1),
            [first, second] => match Pair::of_names(first.0, second.0) {
                Pair::OpArgs => self.operation(alloc, &second.1, &first.1),
                Pair::ArgsOp => self.operation(alloc, &first.1, &second.1),
                Pair::TypeCoordinates => self.geometry(alloc, &second.1, &first.1),
                Pair::CoordinatesType => self.geometry(alloc, &first.1, &second.1),
                Pair::Other => Err(Flaw::Expected(ExpectedValue::Object)),
            },
            _ => Err(Flaw::Expected(ExpectedValue::Object)),
        }
    }

    /// Writes an object with one member.
    #[cycle(value)]
    #[tactic(auto, unfolding(crate::specs::Translation::object_text, crate::specs::Translation::members_text))]
    fn one_member(&mut self, alloc: A, name: &str, value: &Value<'_, A>) -> Result<(), Flaw>
        requires { IsWithin self.old }
        ensures { Writes self.old (object_text (member name.now (value_view value.now) no_members) self.old.path.items) self.new result }
    {
        match name {
            "property" => self.property(alloc, value),
            "bbox" => {
                let kind = ValueKind::Array(Form::Box);
                self.part(alloc, Step::Member(Member::Bbox), value, kind)
            }
            _ => Err(Flaw::Expected(ExpectedValue::Object)),
        }
    }

    /// Writes an operation or a function.
    #[cycle(value)]
    fn operation(
        &mut self,
        alloc: A,
        operands: &Value<'_, A>,
        name: &Value<'_, A>,
    ) -> Result<(), Flaw>
        requires { IsWithin self.old }
        ensures { Writes self.old
            (operation_text (value_view name.now) self.old.path.items (arguments_text (value_view operands.now) self.old.path.items))
            self.new result }
    {
        match name {
            Value::String(name) => self.named_operation(alloc, operands, name),
            _ => Err(self.refuse(Step::Member(Member::Op), ExpectedValue::Operator)),
        }
    }

    /// Writes the operation or the function with this name.
    #[cycle(value)]
    fn named_operation(&mut self, alloc: A, operands: &Value<'_, A>, name: &str) -> Result<(), Flaw>
        requires { IsWithin self.old }
        ensures { Writes self.old
            (named_operation_text name.now self.old.path.items (arguments_text (value_view operands.now) self.old.path.items))
            self.new result }
    {
        let args = Step::Member(Member::Args);
        match JsonOperator::of_name(name) {
            Some(operator) => {
                let kind = ValueKind::Array(Form::Operands(operator));
                self.part(alloc, args, operands, kind)
            }
            None => {
                if !is_name(name) {
                    return Err(self.refuse(Step::Member(Member::Op), ExpectedValue::Operator));
                }
                self.put(name.as_bytes())?;
                self.part(alloc, args, operands, ValueKind::Array(Form::Arguments))
            }
        }
    }

    /// Writes a geometry.
    #[cycle(value)]
    fn geometry(
        &mut self,
        alloc: A,
        coordinates: &Value<'_, A>,
        name: &Value<'_, A>,
    ) -> Result<(), Flaw>
        requires { IsWithin self.old }
        ensures { Writes self.old
            (geometry_text (value_view name.now) self.old.path.items (coordinates_text (value_view coordinates.now) self.old.path.items))
            self.new result }
    {
        match name {
            Value::String(name) => self.named_geometry(alloc, coordinates, name),
            _ => Err(self.refuse(Step::Member(Member::TypeName), ExpectedValue::Geometry)),
        }
    }

    /// Writes the geometry of the type with this name.
    #[cycle(value)]
    fn named_geometry(
        &mut self,
        alloc: A,
        coordinates: &Value<'_, A>,
        name: &str,
    ) -> Result<(), Flaw>
        requires { IsWithin self.old }
        ensures { Writes self.old
            (named_geometry_text name.now self.old.path.items (coordinates_text (value_view coordinates.now) self.old.path.items))
            self.new result }
    {
        match GeometryType::of_name(name) {
            Some(geometry) => {
                self.put(geometry.tag().as_bytes())?;
                let kind = ValueKind::Array(geometry.coordinates());
                self.part(alloc, Step::Member(Member::Coordinates), coordinates, kind)
            }
            None => Err(self.refuse(Step::Member(Member::TypeName), ExpectedValue::Geometry)),
        }
    }

    /// Writes the name of a property.
    fn property(&mut self, alloc: A, name: &Value<'_, A>) -> Result<(), Flaw>
        requires { IsWithin self.old }
        ensures { Writes self.old (property_text (value_view name.now) (at self.old.path.items (step_to.Member Member.Property)))
            self.new result }
    {
        self.enter(Step::Member(Member::Property))?;
        self.name(alloc, name)?;
        self.leave();
        Ok(())
    }

    /// Writes a name.
    fn name(&mut self, alloc: A, name: &Value<'_, A>) -> Result<(), Flaw>
        requires { IsWithin self.old }
        ensures { Writes self.old (property_text (value_view name.now) self.old.path.items) self.new result }
    {
        match name {
            Value::String(name) => {
                if !is_name(name) {
                    return Err(Flaw::Expected(ExpectedValue::Name));
                }
                self.put(&quoted_text(alloc, b'"', name)?)
            }
            _ => Err(Flaw::Expected(ExpectedValue::Name)),
        }
    }

    /// Writes a truth value.
    fn boolean(&mut self, value: bool, kind: ValueKind) -> Result<(), Flaw>
        requires { IsWithin self.old }
        ensures { Writes self.old (boolean_text value kind self.old.path.items) self.new result }
    {
        match kind {
            ValueKind::Expression => self.put(if value { b"TRUE" } else { b"FALSE" }),
            ValueKind::Number | ValueKind::Array(_) => Err(Flaw::Expected(kind.expected_value())),
        }
    }

    /// Writes a number.
    fn number(&mut self, number: &str, kind: ValueKind) -> Result<(), Flaw>
        requires { IsWithin self.old }
        ensures { Writes self.old (number_text number.now kind self.old.path.items) self.new result }
    {
        match kind {
            ValueKind::Expression | ValueKind::Number => self.put(number.as_bytes()),
            ValueKind::Array(_) => Err(Flaw::Expected(kind.expected_value())),
        }
    }

    /// Writes a string.
    fn string(&mut self, alloc: A, text: &str, kind: ValueKind) -> Result<(), Flaw>
        requires { IsWithin self.old }
        ensures { Writes self.old (string_text text.now kind self.old.path.items) self.new result }
    {
        match kind {
            ValueKind::Expression => {
                if !is_printable(text) {
                    return Err(Flaw::Expected(ExpectedValue::Printable));
                }
                self.put(&quoted_text(alloc, b'\'', text)?)
            }
            ValueKind::Number | ValueKind::Array(_) => Err(Flaw::Expected(kind.expected_value())),
        }
    }
}
