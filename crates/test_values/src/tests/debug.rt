//! Texts of `Debug` of types, and of values that have one. Those of a value's own type are tested
//! with its rows.

use postgres_types::{Fault, Field, Format, IsNull, Kind, Type, WasNull, WrongType};
use std::test::Fail;
use test_support::{debugs, simple_type};

#[test]
fn types_and_what_holds_one_have_debug_texts(rt: HostRuntime) -> Result<(), Fail> {
    let alloc = rt.alloc();
    let answers = (IsNull::Yes, Format::Binary, Kind::Array(Type::TEXT));
    debugs(alloc, &answers, "(Yes, Binary, Array(Text))")?;
    let mood = simple_type(alloc, "mood", 99_000, "app")?;
    let text = "Other(Other { name: \"mood\", oid: 99000, kind: Simple, schema: \"app\" })";
    debugs(alloc, &mood, text)?;
    let field = Field::new(String::from_str(alloc, "price")?, Type::INT8);
    debugs(alloc, &field, "Field { name: \"price\", type_: Int8 }")
}

#[test]
fn faults_have_debug_texts(rt: HostRuntime) -> Result<(), Fail> {
    let wrong = WrongType::new(Type::TEXT, "i32");
    let text = "(WrongType { postgres: Text, rust: \"i32\" }, WasNull, User(\"odd\"))";
    debugs(rt.alloc(), &(wrong, WasNull, Fault::user("odd")), text)
}
