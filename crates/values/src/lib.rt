// Values of slots, and what operations on them give.
#![tactic(auto)]

ghost use Rattle.std.specs.Prelude.{◌≡◌};
ghost use Rattle.values.specs.Values.{value_of, kind_of_value, payload_of, slot_of};

use rules::Slot;

pub mod comparison;
pub mod single;

// An int, a long, a double with its number, or a pointer with its address; true: a managed one.
#[derive(Clone, Copy, Debug)]
pub enum Value {
    Int(u32),
    Long(u64),
    Double(f64),
    Pointer(bool, u64),
}

// The value of a slot. The types are 3, 4, 6, 7 and 8; of other numbers those from 7 on are taken as a pointer's, the rest as a
// long's, so that pointers are told from numbers by one test.
pub fn value_of(s: Slot) -> Value
    ensures { result ≡ value_of s }
{
    if s.kind == 3 {
        return Value::Int(words::low(s.payload));
    }
    if s.kind == 6 {
        return Value::Double(doubles::decode(s.payload));
    }
    if 7 <= s.kind {
        return Value::Pointer(s.kind == 8, s.payload);
    }
    Value::Long(s.payload)
}

pub fn payload_of(v: Value) -> u64
    ensures { result ≡ payload_of v }
{
    match v {
        Value::Int(n) => u64::from(n),
        Value::Long(n) => n,
        Value::Double(x) => doubles::encode(x),
        Value::Pointer(_, n) => n,
    }
}

fn kind_of(v: Value) -> u8
    ensures { result ≡ kind_of_value v }
{
    match v {
        Value::Int(_) => 3,
        Value::Long(_) => 4,
        Value::Double(_) => 6,
        Value::Pointer(managed, _) => { if managed { 8 } else { 7 } }
    }
}

// The slot of a value.
pub fn slot_of(v: Value) -> Slot
    ensures { result ≡ slot_of v }
{
    let kind = kind_of(v);
    let payload = payload_of(v);
    Slot { kind, payload }
}
